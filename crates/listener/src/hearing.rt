// Hearing the buckets of an image: one after the other, as a listener started with a tag dozes from each to the next.
ghost use Rattle.std.specs.Prelude.{◌≡◌, ◌≤◌, ◌<◌};
ghost use Rattle.buckets.specs.Lengths.{buckets_most};
ghost use Rattle.listener.specs.Inner.OnRun.{heard_at, heard_next, RanFrom};

use super::{Answer, Ending, Image, Listener, Stepped};
use cycle::Refusal;

// A bucket that a run heard: its place in the image, and what its step handed back.
#[derive(Clone, Copy)]
pub struct Heard {
    pub x: u64,
    pub step: Stepped,
}

// A run that came to its end, and the bucket heard that its lines are written from: the first whose lines are named, or the last
// one if there is none.
#[derive(Clone, Copy)]
pub struct Ran {
    pub ending: Ending,
    pub from: Heard,
}

impl Image<'_> {
    // The listener's step on bucket x.
    fn hear(&self, x: u64, l: Listener) -> Heard
        requires { x < self.now.count }
        ensures { result ≡ heard_at self.now.bytes.now x l }
    {
        Heard {
            x,
            step: l.step(self.bucket(x)),
        }
    }

    // Hears the bucket d places on from one heard, counted round by the image.
    pub fn hear_next(&self, h: Heard, d: u64) -> Heard
        requires { (h.x < self.now.count) × (d ≤ buckets_most) }
        ensures { result ≡ heard_next self.now.bytes.now self.now.count h d }
    {
        self.hear((h.x + d) % self.count, h.step.listener)
    }

    // The run from bucket t on to its end, of a listener started with the tag. A loop: it ends by what is heard, and counts no index
    // and no steps, since 10 ends it.
    pub fn hear_to_end(&self, tag: u64, t: u64) -> Result<Ran, Refusal>
        requires { t < self.now.count }
        ensures { RanFrom self.now.bytes.now self.now.count tag t result }
    {
        let mut h = self.hear(t, Listener::new(tag));
        let mut from = h;
        let mut lines = 0;
        let ending = loop {
            lines += h.step.count;
            match h.step.answer {
                Answer::Doze(d) => h = self.hear_next(h, d),
                Answer::Found => break Ending::Found(h.step.listener, lines),
                Answer::Absent => break Ending::Absent(h.step.listener),
                Answer::Refused(reason) => return Err(Refusal { reason, place: h.x }),
            }
            if lines == 0 {
                from = h;
            }
        };
        Ok(Ran { ending, from })
    }
}
