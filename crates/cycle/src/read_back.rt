// Reading back: whether an image is the cycle of some list under given settings, and of which.
ghost use Rattle.std.specs.Prelude.{◌≡◌, [], ◌+◌, ◌-◌, ◌*◌, ◌/◌, ◌%◌, ◌≤◌, ◌<◌, min, length};
ghost use Rattle.columns.specs.Lists.{put, onto};
ghost use Rattle.buckets.specs.Lengths.{line_length, bucket_length, buckets_most};
ghost use Rattle.cycle.specs.Tree.{settings, layout_number, children, last_tag};
ghost use Rattle.cycle.specs.ReadingBack.{read_back};
ghost use Rattle.cycle.specs.Cycle.{first_place};
ghost use Rattle.cycle.specs.Judging.{tree_at};
ghost use Rattle.cycle.specs.Inner.HeldOnce.{held};
ghost use Rattle.cycle.specs.Inner.Held.{plan_of, segment_count, Shaped, plan_in, TreePlace, DataPlace, PathPlace};
ghost use Rattle.cycle.specs.Cycle.{bucket_at};
ghost use Rattle.cycle.specs.Inner.Comparing.{Decides, Finds, counted, MatchesAt, Matches, DataMatches, Followed, list_text, Comparing, Checking};
ghost use Rattle.cycle.specs.declared.Source.TheVariants as Source;

use super::index::Printer;
use super::measures::{Fitted, figures_of, lesser, settings_fit};
use super::{BUCKET, Cycle, Figures, LINE, Part, Reason, Refusal, Settings, Source};
use buckets::lines::{copy_lines, spelled_tag};
use buckets::reader::read_into;
use buckets::{Bucket, Items, Kind, Line};

// The columns of a bucket before its lines.
const LINES: u64 = Bucket::LINES as u64;

// The most buckets of an image.
const BUCKETS_MOST: usize = Bucket::BUCKETS_MOST as usize;

// Whether two buckets are the same. It looks at each column, so that many are tested at once: by `==`, which stops where columns
// differ, reading back takes 716 instructions with 2 1 1 4, and 704 where both are arrays, for 700 at most (docs/SPEED.md).
fn same_bucket(a: &[u8], b: &[u8]) -> bool
    requires { (length a.now ≡ bucket_length) × (length b.now ≡ bucket_length) }
    ensures { Decides (a.now ≡ b.now) result }
{
    a.iter().zip(b).fold(true, |same, (x, y)| same & (x == y))
}

// Whether these columns are the bucket at x.
fn is_at(image: &[u8], x: u64, wanted: &[u8]) -> bool
    requires { (bucket_length * x + bucket_length ≤ length image.now) ×
        (x ≤ buckets_most) ×
        (length wanted.now ≡ bucket_length) }
    ensures { Decides (bucket_at image.now x ≡ wanted.now) result }
{
    let at = (BUCKET * x) as usize;
    let to = at + Bucket::LENGTH;
    same_bucket(&image[at..to], wanted)
}

// A segment of a cycle, and an image of the right length that is held against it.
#[derive(Clone, Copy)]
struct Comparer<'a> {
    part: Part<'a>,
    image: &'a [u8],
    ghost comparing: { Comparing part.cycle.now.f image.now part.s } by { Prim.hlevel held },
}

impl Comparer<'_> {
    // The position of the data bucket behind data bucket q, which stands at x.
    fn next_data(&self, q: u64, x: u64) -> u64
        requires { DataPlace self.now.part.s q x × (q + 1 < self.now.part.cycle.now.f.d) }
        ensures { result ≡ first_place (plan_of self.now.part.cycle.now.f []) (self.now.part.cycle.now.f.k + 1) (q + 1) }
    {
        let next = q + 1;
        if next < self.part.s.last {
            return x + 1;
        }
        self.part.cycle.data_place(next)
    }

    // Whether data bucket q at x, with this last tag, has the right follow-on, and the next data bucket no lower tag.
    fn is_followed(&self, q: u64, x: u64, last: u64, follow_on: u64) -> bool
        requires { DataPlace self.now.part.s q x
            × (last ≡ last_tag (plan_in self.now.part.cycle.now.f Source.Image self.now.image.now) q) }
        ensures { Decides (Followed (plan_in self.now.part.cycle.now.f Source.Image self.now.image.now) q x follow_on) result }
    {
        let next = q + 1;
        if next == self.part.cycle.f.d {
            return follow_on == 0;
        }
        let place = self.next_data(q, x);
        let at = (BUCKET * place + LINES) as usize;
        let first = spelled_tag(self.image, at);
        if first < last {
            return false;
        }
        if first == last {
            return follow_on == place - x;
        }
        follow_on == 0
    }

    // Whether data bucket q stands at x, and the next data bucket has no lower tag. Its lines are read off the image, so that
    // only their number is compared.
    fn is_data(&self, q: u64, x: u64) -> bool
        requires { DataPlace self.now.part.s q x }
        ensures { Decides (MatchesAt (plan_in self.now.part.cycle.now.f Source.Image self.now.image.now) self.now.image.now x) result }
    {
        let f = &self.part.cycle.f;
        let at = (BUCKET * x) as usize;
        let to = at + Bucket::LENGTH;
        let mut items = Items::new();
        let Some(frame) = read_into(&self.image[at..to], &mut items) else {
            return false;
        };
        let Kind::Data { follow_on } = frame.kind else {
            return false;
        };
        if frame.head != self.part.head_at(x) {
            return false;
        }
        let tags = items.tags.as_slice();
        if tags.len() as u64 != lesser(f.p, f.lines - q * f.p) {
            return false;
        }
        self.is_followed(q, x, tags[tags.len() - 1], follow_on)
    }

    // Whether the data buckets of the segment stand in their places.
    fn are_datas(&self) -> bool
        ensures { Decides
            (Matches (plan_in self.now.part.cycle.now.f Source.Image self.now.image.now) self.now.image.now self.now.part.s.data_at
            self.now.part.s.end)
            result }
    {
        let s = &self.part.s;
        (s.first..s.last).all(|q| self.is_data(q, s.place_of(q)))
    }

    // The lines of the segment's data buckets, each at its place in the list.
    fn write_lines(&self, out: &mut [u8])
        requires { line_length * self.now.part.cycle.now.f.lines ≤ length out.old }
        ensures { out.new ≡
            put out.old (line_length * (self.now.part.s.first * self.now.part.cycle.now.f.p))
            (list_text self.now.part.cycle.now.f self.now.image.now (self.now.part.s.first * self.now.part.cycle.now.f.p)
            (min self.now.part.cycle.now.f.lines (self.now.part.s.last * self.now.part.cycle.now.f.p))) }
    {
        let f = &self.part.cycle.f;
        let s = &self.part.s;
        for q in s.first..s.last {
            let line = q * f.p;
            let count = lesser(f.p, f.lines - line) as usize;
            let to = (LINE * line) as usize;
            let from = (BUCKET * s.place_of(q) + LINES) as usize;
            copy_lines(out, to, self.image, from, count);
        }
    }
}

// A segment of a cycle whose data buckets the image is known to have, so that the index buckets that belong to them can be printed.
#[derive(Clone, Copy)]
struct Checker<'a> {
    part: Part<'a>,
    image: &'a [u8],
    ghost checking: { Checking part.cycle.now.f image.now part.s } by { Prim.hlevel held },
}

impl Checker<'_> {
    // What its index buckets are printed from.
    #[inline]
    fn printer(&self) -> Printer<'_>
        ensures { (result.part.now ≡ self.now.part) × (result.source ≡ Source.Image) × (result.text.now ≡ self.now.image.now) }
    {
        Printer {
            part: &self.part,
            source: Source::Image,
            text: self.image,
            plain: true,
        }
    }

    // Whether bucket j of height e of the segment's tree, with `count` entries, stands at x.
    fn is_tree_bucket(&self, e: usize, j: u64, x: u64, count: usize) -> bool
        requires { TreePlace self.now.part.cycle.now.f self.now.part.s e j x
            × (count ≡ length (children (plan_of self.now.part.cycle.now.f []) (self.now.part.cycle.now.f.k + 1 - e) j)) }
        ensures { Decides (MatchesAt (plan_in self.now.part.cycle.now.f Source.Image self.now.image.now) self.now.image.now x) result }
    {
        let mut wanted = [0u8; Bucket::LENGTH];
        self.printer()
            .print_tree_bucket(&mut wanted, e, j, x, count);
        is_at(self.image, x, &wanted)
    }

    // The position behind the subtree of bucket j of height e, if it stands from x on.
    fn behind_subtree(&self, e: usize, j: u64, x: u64) -> Option<u64>
        requires { TreePlace self.now.part.cycle.now.f self.now.part.s e j x }
        ensures { Finds
            (Matches (plan_in self.now.part.cycle.now.f Source.Image self.now.image.now) self.now.image.now x
            (x + length (tree_at (plan_of self.now.part.cycle.now.f []) e j)))
            (x + length (tree_at (plan_of self.now.part.cycle.now.f []) e j)) result }
    {
        let count = self.part.cycle.child_count(e, j);
        if !self.is_tree_bucket(e, j, x, count) {
            return None;
        }
        let mut next = x + 1;
        if e == 1 {
            return Some(next);
        }
        let first = j * self.part.cycle.f.n;
        for i in 0..count as u64 {
            next = self.behind_subtree(e - 1, first + i, next)?;
        }
        Some(next)
    }

    // Whether the path bucket of level i of the segment stands at x.
    fn is_path_bucket(&self, i: u64, x: u64) -> bool
        requires { PathPlace self.now.part.cycle.now.f self.now.part.s i x }
        ensures { Decides (MatchesAt (plan_in self.now.part.cycle.now.f Source.Image self.now.image.now) self.now.image.now x) result }
    {
        let mut wanted = [0u8; Bucket::LENGTH];
        self.printer().print_path_bucket(&mut wanted, i, x);
        is_at(self.image, x, &wanted)
    }

    // Whether the path of the segment stands in its place.
    fn is_path(&self) -> bool
        ensures { Decides
            (Matches (plan_in self.now.part.cycle.now.f Source.Image self.now.image.now) self.now.image.now self.now.part.s.start
            self.now.part.s.tree_at)
            result }
    {
        let s = &self.part.s;
        (s.start..s.tree_at).all(|x| self.is_path_bucket(s.top + (x - s.start), x))
    }

    // Whether the index buckets of the segment, its path and its tree, stand in their places as its data buckets do.
    fn is_segment(&self) -> bool
        ensures { Decides
            (Matches (plan_in self.now.part.cycle.now.f Source.Image self.now.image.now) self.now.image.now self.now.part.s.start
            self.now.part.s.end)
            result }
    {
        let s = &self.part.s;
        self.is_path() && self.behind_subtree(s.height, s.root, s.tree_at).is_some()
    }
}

// An image of the right length for the cycle of some figures.
#[derive(Clone, Copy)]
struct Held<'a> {
    cycle: Cycle,
    image: &'a [u8],
    ghost long: { length image.now ≡ bucket_length * cycle.f.size },
}

impl Held<'_> {
    // Segment i of the cycle, to be held against the image.
    fn comparer(&self, i: u64) -> Comparer<'_>
        requires { i < segment_count (plan_of self.now.cycle.f []) }
        ensures { (result.part.cycle.now.f ≡ self.now.cycle.f) × (result.image.now ≡ self.now.image.now) × (result.part.s.number ≡ i) }
    {
        Comparer {
            part: self.cycle.part(i),
            image: self.image,
        }
    }

    // The same, where all data buckets stand in their places.
    fn checker(&self, i: u64) -> Checker<'_>
        requires { (i < segment_count (plan_of self.now.cycle.f []))
            × DataMatches (plan_in self.now.cycle.f Source.Image self.now.image.now) self.now.image.now 0 self.now.cycle.f.d }
        ensures { (result.part.cycle.now.f ≡ self.now.cycle.f) × (result.image.now ≡ self.now.image.now) × (result.part.s.number ≡ i) }
    {
        Checker {
            part: self.cycle.part(i),
            image: self.image,
        }
    }

    // Whether all data buckets stand in their places. One line here and in all_segments: a frame for both would be longer.
    fn all_datas(&self) -> bool
        ensures { Decides
            (DataMatches (plan_in self.now.cycle.f Source.Image self.now.image.now) self.now.image.now 0 self.now.cycle.f.d)
            result }
    {
        (0..self.cycle.segment_count()).all(|i| self.comparer(i).are_datas())
    }

    // Whether all segments stand in their places, as their data buckets do. One line, as in all_datas.
    fn all_segments(&self) -> bool
        requires { DataMatches (plan_in self.now.cycle.f Source.Image self.now.image.now) self.now.image.now 0 self.now.cycle.f.d }
        ensures { Decides
            (Matches (plan_in self.now.cycle.f Source.Image self.now.image.now) self.now.image.now 0 self.now.cycle.f.size)
            result }
    {
        (0..self.cycle.segment_count()).all(|i| self.checker(i).is_segment())
    }

    // Whether the image is the cycle of the lines that stand in it. Once its data buckets are known to be good, so are the index
    // buckets that belong to them, and the image's are held against these column by column.
    fn is_cycle(&self) -> bool
        ensures { Decides
            (Matches (plan_in self.now.cycle.f Source.Image self.now.image.now) self.now.image.now 0 self.now.cycle.f.size)
            result }
    {
        self.all_datas() && self.all_segments()
    }

    // The lines of the image as a list, at the front of the buffer; segment after segment, by their numbers (`Cycle::part`).
    fn write_list(&self, out: &mut [u8])
        requires { line_length * self.now.cycle.f.lines ≤ length out.old }
        ensures { out.new ≡ put out.old 0 (list_text self.now.cycle.f self.now.image.now 0 self.now.cycle.f.lines) }
    {
        for i in 0..self.cycle.segment_count() {
            self.comparer(i).write_lines(out);
        }
    }
}

// How many lines the image has: p for each data bucket but the last, and what the last one's count says.
fn line_count(image: &[u8], p: u64) -> u64
    requires { (length image.now ≤ bucket_length * buckets_most) × (p ≤ 8) }
    ensures { result ≡ counted p image.now }
{
    let mut d = 0;
    let mut last = b'0';
    for bucket in image.chunks_exact(Bucket::LENGTH) {
        // named, since a must-fail edit turns this test
        let data = bucket[Bucket::LETTER] == Bucket::DATA;
        if data {
            d += 1;
            last = bucket[Bucket::ITEM_DIGIT];
        }
    }
    // numbers, and not none: an image without data buckets or with a bad digit counts no lines
    if d == 0 {
        return 0;
    }
    if last < b'0' {
        return 0;
    }
    (d - 1) * p + (last - b'0') as u64
}

// Conditions 13 and 7, and then the list.
fn hand_out(image: &[u8], f: Figures, out: &mut [u8]) -> Result<u64, Refusal>
    requires { Shaped f ×
        (1 ≤ length image.now) ×
        (length image.now % bucket_length ≡ 0) ×
        (length image.now / bucket_length ≤ buckets_most) ×
        (f.lines ≡ counted f.p image.now) }
    ensures { (result ≡
        (read_back (settings f.n f.p (layout_number f.layout) f.copies) image.now (length out.old)).answer) ×
        (out.new ≡
        onto (read_back (settings f.n f.p (layout_number f.layout) f.copies) image.now (length out.old)).output
        out.old) }
{
    let Some(fitted) = Fitted::new(&f) else {
        return Err(Refusal::from(Reason::NoListBuilds));
    };
    let sized = fitted.with_size();
    let count = (image.len() / Bucket::LENGTH) as u64;
    if sized.size != count {
        return Err(Refusal::from(Reason::NoListBuilds));
    }
    let held = Held {
        cycle: Cycle { f: sized },
        image,
    };
    if !held.is_cycle() {
        return Err(Refusal::from(Reason::NoListBuilds));
    }
    let room = out.len() as u64;
    if room < LINE * sized.lines {
        return Err(Refusal::from(Reason::BufferTooShort));
    }
    held.write_list(out);
    Ok(sized.lines)
}

// Writes the list that an image was built from into the front of a lent buffer: its number of lines, or a refusal, on which no
// byte is written.
pub fn read_back(image: &[u8], settings: Settings, out: &mut [u8]) -> Result<u64, Refusal>
    ensures { (result ≡ (read_back settings image.now (length out.old)).answer) ×
        (out.new ≡ onto (read_back settings image.now (length out.old)).output out.old) }
{
    if !settings_fit(settings) {
        return Err(Refusal::from(Reason::SettingsOut));
    }
    let length = image.len();
    if length == 0 {
        return Err(Refusal::from(Reason::ImageLengthOut));
    }
    if length % Bucket::LENGTH != 0 {
        return Err(Refusal::from(Reason::ImageLengthOut));
    }
    if BUCKETS_MOST < length / Bucket::LENGTH {
        return Err(Refusal::from(Reason::ImageLengthOut));
    }
    let lines = line_count(image, settings.p);
    // named, since a must-fail edit turns this test
    let too_many = Line::LINES_MOST < lines;
    if too_many {
        return Err(Refusal::from(Reason::NoListBuilds));
    }
    hand_out(image, figures_of(settings, lines), out)
}
