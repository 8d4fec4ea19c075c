// Building: from a list and settings to the cycle on air.
ghost use Rattle.std.specs.Prelude.{◌≡◌, true, [], ◌∷◌, ◌+◌, ◌-◌, ◌*◌, ◌≤◌, ◌<◌, max, length, take, drop};
ghost use Rattle.columns.specs.Lists.{onto};
ghost use Rattle.buckets.specs.Lengths.{tag_width, bucket_length};
ghost use Rattle.buckets.specs.Bucket.{follow_on};
ghost use Rattle.buckets.specs.Inner.Columns.{PlainList};
ghost use Rattle.cycle.specs.Tree.{children};
ghost use Rattle.cycle.specs.Building;
ghost use Rattle.cycle.specs.Layouts.{slot};
ghost use Rattle.cycle.specs.Inner.Comparing.{Decides, SameDigits};
ghost use Rattle.cycle.specs.Judging.{tree_at};
ghost use Rattle.cycle.specs.Inner.Held.{plan_of, segment_count, StandsAt, AcceptedList, plan_in, cycle_bucket, written, TreePlace, DataPlace};
ghost use Rattle.cycle.specs.declared.Source.TheVariants as Source;

use super::conditions::judge_list;
use super::index::Printer;
use super::measures::lesser;
use super::{Accepted, BUCKET, LINE, Part, Refusal, Settings, Source};
use buckets::writer::write_data;
use buckets::{Bucket, Line};

// A column of a tag by the digit that it adds: a blank as a 0. One call of the library's, which does not say this by itself.
fn as_digit(c: u8) -> u8
    ensures { result ≡ max c 48 }
{
    c.max(b'0')
}

// Whether the tags that stand printed at a and b are the same, column by column from the last. No equality of a type: a blank is
// the same as a 0.
fn same_tags(list: &[u8], a: usize, b: usize) -> bool
    requires { (a + tag_width ≤ length list.now) × (b + tag_width ≤ length list.now) }
    ensures { Decides (SameDigits (take tag_width (drop a list.now)) (take tag_width (drop b list.now))) result }
{
    for i in (0..Line::TAG_WIDTH).rev() {
        if as_digit(list[a + i]) != as_digit(list[b + i]) {
            return false;
        }
    }
    true
}

// A segment of the cycle of a list that can be sent.
#[derive(Clone, Copy)]
struct Sender<'a> {
    part: Part<'a>,
    list: &'a [u8],
    plain: bool,
    ghost sending: { AcceptedList part.cycle.now.f list.now },
    ghost no_zeros: { plain ≡ true → PlainList list.now },
}

impl Sender<'_> {
    // What its index buckets are printed from.
    #[inline]
    #[tactic(auto, using(crate::proofs::Building::Writings::printing))]
    fn printer(&self) -> Printer<'_>
        ensures { (result.part.now ≡ self.now.part) × (result.source ≡ Source.List) × (result.text.now ≡ self.now.list.now) }
    {
        Printer {
            part: &self.part,
            source: Source::List,
            text: self.list,
            plain: self.plain,
        }
    }

    // Bucket j of height e of the segment's tree, at x. It hands back its number of entries.
    fn write_tree_bucket(&self, image: &mut [u8], e: usize, j: u64, x: u64) -> usize
        requires { (bucket_length * self.now.part.cycle.now.f.size ≤ length image.old)
            × TreePlace self.now.part.cycle.now.f self.now.part.s e j x }
        ensures { (result ≡ length (children (plan_of self.now.part.cycle.now.f []) (self.now.part.cycle.now.f.k + 1 - e) j)) ×
            (image.new ≡ written (plan_in self.now.part.cycle.now.f Source.List self.now.list.now) image.old x (x + 1)) }
    {
        let count = self.part.cycle.child_count(e, j);
        let at = (BUCKET * x) as usize;
        let to = at + Bucket::LENGTH;
        self.printer()
            .print_tree_bucket(&mut image[at..to], e, j, x, count);
        count
    }

    // A subtree from x on: its bucket, then each child's whole subtree. It hands back the position behind it.
    fn write_subtree(&self, image: &mut [u8], e: usize, j: u64, x: u64) -> u64
        requires { (bucket_length * self.now.part.cycle.now.f.size ≤ length image.old)
            × TreePlace self.now.part.cycle.now.f self.now.part.s e j x }
        ensures { (result ≡ x + length (tree_at (plan_of self.now.part.cycle.now.f []) e j)) ×
            (image.new ≡
            written (plan_in self.now.part.cycle.now.f Source.List self.now.list.now) image.old x
            (x + length (tree_at (plan_of self.now.part.cycle.now.f []) e j))) }
    {
        let count = self.write_tree_bucket(image, e, j, x);
        let mut next = x + 1;
        if e == 1 {
            return next;
        }
        let first = j * self.part.cycle.f.n;
        for i in 0..count as u64 {
            next = self.write_subtree(image, e - 1, first + i, next);
        }
        next
    }

    // The path of the segment.
    fn write_path(&self, image: &mut [u8])
        requires { bucket_length * self.now.part.cycle.now.f.size ≤ length image.old }
        ensures { image.new ≡
            written (plan_in self.now.part.cycle.now.f Source.List self.now.list.now) image.old
            self.now.part.s.start self.now.part.s.tree_at }
    {
        let s = &self.part.s;
        for x in s.start..s.tree_at {
            let i = s.top + (x - s.start);
            let at = (BUCKET * x) as usize;
            let to = at + Bucket::LENGTH;
            self.printer().print_path_bucket(&mut image[at..to], i, x);
        }
    }

    // The follow-on of data bucket q at x.
    fn list_follow_on(&self, q: u64, x: u64) -> u64
        requires { (q < self.now.part.cycle.now.f.d)
            × StandsAt (plan_of self.now.part.cycle.now.f []) x (slot (self.now.part.cycle.now.f.k + 1) q ∷ []) }
        ensures { result ≡
            follow_on (cycle_bucket (plan_in self.now.part.cycle.now.f Source.List self.now.list.now) x).body }
    {
        let cycle = self.part.cycle;
        let next = q + 1;
        // the 0 that the format prints in the last data bucket
        if next == cycle.f.d {
            return 0;
        }
        let at = (LINE * (next * cycle.f.p)) as usize;
        if same_tags(self.list, at - Line::LENGTH, at) {
            return cycle.data_place(next) - x;
        }
        0
    }

    // Data bucket q at x.
    #[tactic(auto, using(crate::proofs::Building::Writings::data_below, crate::proofs::Building::Writings::data_small))]
    fn write_data_at(&self, image: &mut [u8], q: u64, x: u64)
        requires { (bucket_length * self.now.part.cycle.now.f.size ≤ length image.old) × DataPlace self.now.part.s q x }
        ensures { image.new ≡
            written (plan_in self.now.part.cycle.now.f Source.List self.now.list.now) image.old x (x + 1) }
    {
        let f = &self.part.cycle.f;
        let follow_on = self.list_follow_on(q, x);
        let from = (LINE * (q * f.p)) as usize;
        let end = (LINE * lesser(f.lines, (q + 1) * f.p)) as usize;
        let at = (BUCKET * x) as usize;
        let to = at + Bucket::LENGTH;
        write_data(
            &mut image[at..to],
            self.part.head_at(x),
            follow_on,
            &self.list[from..end],
            self.plain,
        );
    }

    // The data buckets of the segment.
    fn write_datas(&self, image: &mut [u8])
        requires { bucket_length * self.now.part.cycle.now.f.size ≤ length image.old }
        ensures { image.new ≡
            written (plan_in self.now.part.cycle.now.f Source.List self.now.list.now) image.old
            self.now.part.s.data_at self.now.part.s.end }
    {
        let s = &self.part.s;
        for q in s.first..s.last {
            self.write_data_at(image, q, s.place_of(q));
        }
    }

    // The segment: its path, its tree, its data buckets.
    fn write_segment(&self, image: &mut [u8])
        requires { bucket_length * self.now.part.cycle.now.f.size ≤ length image.old }
        ensures { image.new ≡
            written (plan_in self.now.part.cycle.now.f Source.List self.now.list.now) image.old
            self.now.part.s.start self.now.part.s.end }
    {
        let s = &self.part.s;
        self.write_path(image);
        self.write_subtree(image, s.height, s.root, s.tree_at);
        self.write_datas(image);
    }
}

impl Accepted<'_> {
    // Segment i of its cycle.
    fn sender(&self, i: u64) -> Sender<'_>
        requires { i < segment_count (plan_of self.now.cycle.f []) }
        ensures { (result.part.cycle.now.f ≡ self.now.cycle.f) × (result.list.now ≡ self.now.list.now) × (result.part.s.number ≡ i) }
    {
        Sender {
            part: self.cycle.part(i),
            list: self.list,
            plain: self.plain,
        }
    }

    // Writes the whole cycle, segment after segment, by their numbers (`Cycle::part`).
    pub fn write_cycle(&self, image: &mut [u8])
        requires { bucket_length * self.now.cycle.f.size ≤ length image.old }
        ensures { image.new ≡ written (plan_in self.now.cycle.f Source.List self.now.list.now) image.old 0 self.now.cycle.f.size }
    {
        for i in 0..self.cycle.segment_count() {
            self.sender(i).write_segment(image);
        }
    }
}

// Builds the cycle of a list into the front of a lent buffer: N, or a refusal, on which no byte is written.
pub fn build(list: &[u8], settings: Settings, out: &mut [u8]) -> Result<u64, Refusal>
    ensures { (result ≡ (Building.build settings list.now (length out.old)).answer) ×
        (out.new ≡ onto (Building.build settings list.now (length out.old)).output out.old) }
{
    let accepted = judge_list(list, settings, out.len() as u64)?;
    accepted.write_cycle(out);
    Ok(accepted.cycle.f.size)
}
