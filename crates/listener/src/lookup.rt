// A lookup: a run of the listener over a lent image, and the lines that it finds in a lent buffer. Document 01, "The listener".
ghost use Rattle.std.specs.Prelude.{◌≡◌, [], ◌+◌, ◌*◌, ◌<◌, ◌≤◌, length};
ghost use Rattle.columns.specs.Lists.{put, joined};
ghost use Rattle.buckets.specs.Lengths.{bucket_length, buckets_most, bucket_lines_most, line_length};
ghost use Rattle.buckets.specs.ListLine.{print_line};
ghost use Rattle.listener.specs.Lookup.{lookup, got_by};
ghost use Rattle.listener.specs.Inner.OnRun.{WasHeard, run_on, FoundWithin, lines_in};

use super::hearing::Heard;
use super::{Answer, Ending, Image, Listener, Looked};
use buckets::lines::copy_lines;
use cycle::{Reason, Refusal};

impl Image<'_> {
    // The lines that a step on bucket x names, behind those already in out.
    fn copy_named(&self, x: u64, first: u64, count: u64, out: &mut [u8], lines: u64)
        requires inside { x < self.now.count }
        requires count_bound { (first + count ≤ bucket_lines_most) × (line_length * (lines + count) ≤ length out.old) }
        ensures { out.new ≡
            put out.old (line_length * lines) (lines_in self.now.bytes.now x first count) }
    {
        copy_lines(
            out,
            Listener::LINE * lines as usize,
            self.bucket(x),
            Listener::LINES + Listener::COLUMNS * first as usize,
            count as usize,
        );
    }

    // The run again from a bucket heard on, which finds, and writes the lines. A loop: it ends by what is heard, and counts no index.
    fn write_found(&self, from: Heard, out: &mut [u8])
        requires was_heard { WasHeard self.now.bytes.now self.now.count from }
        requires found_within { FoundWithin (run_on self.now.bytes.now self.now.count from []) (length out.old) }
        ensures { out.new ≡
            put out.old 0 (joined print_line (got_by (run_on self.now.bytes.now self.now.count from []))) }
    {
        let mut h = from;
        let mut lines = 0;
        loop {
            let step = h.step;
            self.copy_named(h.x, step.first, step.count, out, lines);
            lines += step.count;
            let Answer::Doze(d) = step.answer else {
                return;
            };
            h = self.hear_next(h, d);
        }
    }
}

// Looks a tag up in an image, tuning in at bucket t, and writes the matching lines to out if it finds some.
pub fn lookup(image: &[u8], tag: u64, t: u64, out: &mut [u8]) -> Result<Looked, Refusal>
    ensures answer { result ≡ (lookup image.now tag t (length out.old)).answer }
    ensures output { out.new ≡ put out.old 0 (lookup image.now tag t (length out.old)).output }
{
    let image = Image::tuned_in(image, t)?;
    let ran = image.hear_to_end(tag, t)?;
    match ran.ending {
        Ending::Found(l, lines) => {
            if ((out.len() / Listener::LINE) as u64) < lines {
                return Err(Reason::BufferTooShort.into());
            }
            image.write_found(ran.from, out);
            Ok(Looked::Found {
                heard: l.heard(),
                elapsed: l.elapsed(),
                lines,
            })
        }
        Ending::Absent(l) => Ok(Looked::Absent {
            heard: l.heard(),
            elapsed: l.elapsed(),
        }),
    }
}
