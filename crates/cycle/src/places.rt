// Where buckets and lines stand in a cycle.
ghost use Rattle.std.specs.Prelude.{◌≡◌, [], ◌+◌, ◌-◌, ◌*◌, ◌≤◌, ◌<◌, min};
ghost use Rattle.cycle.specs.Tree.{layout_number};
ghost use Rattle.cycle.specs.Cycle.{first_place};
ghost use Rattle.cycle.specs.Inner.Held.{plan_of, InTree, line_at};
ghost use Rattle.cycle.specs.Inner.Held.{Spans, SpansIn, tag_place};
ghost use Rattle.cycle.specs.declared.Source.TheVariants as Source;

use super::measures::{lesser, power};
use super::{BUCKET, Cycle, LINE, Layout, Part, Source};
use buckets::{Bucket, Line};

impl Cycle {
    // The first position in layout 1 of bucket j of a level up to r + 1.
    pub fn first_place(&self, level: u64, j: u64) -> u64
        requires { (layout_number self.now.f.layout ≡ 1) × (1 ≤ level) × (level ≤ self.now.f.copies + 1)
            × InTree self.now.f (self.now.f.k + 1 - level) j }
        ensures { result ≡ first_place (plan_of self.now.f []) level j }
    {
        let h = (self.f.copies + 1 - level) as usize;
        let b = j * power(self.f.n, h);
        let start = self.distributed_start(b);
        start + (level - self.path_top(b))
    }

    // The position of data bucket q in layout 1.
    fn distributed_data_place(&self, q: u64) -> u64
        requires { (layout_number self.now.f.layout ≡ 1) × (q < self.now.f.d) }
        ensures { result ≡ first_place (plan_of self.now.f []) (self.now.f.k + 1) q }
    {
        let b = q / self.f.span;
        q + b * self.f.full + self.segment_tree(b) + self.fitted().paths_before(b + 1)
    }

    // The position of data bucket q in layout 2.
    fn one_m_data_place(&self, q: u64) -> u64
        requires { (layout_number self.now.f.layout ≡ 2) × (q < self.now.f.d) }
        ensures { result ≡ first_place (plan_of self.now.f []) (self.now.f.k + 1) q }
    {
        let part = ((q + 1) * self.f.copies - 1) / self.f.d;
        q + (part + 1) * self.f.last
    }

    // The position of data bucket q.
    pub fn data_place(&self, q: u64) -> u64
        requires { q < self.now.f.d }
        ensures { result ≡ first_place (plan_of self.now.f []) (self.now.f.k + 1) q }
    {
        match self.f.layout {
            Layout::Distributed => self.distributed_data_place(q),
            Layout::OneM => self.one_m_data_place(q),
        }
    }

    // The place of line i's first byte.
    #[tactic(auto, using(crate::proofs::Reach::DataHeld::data_ends, crate::proofs::Lines::LinesHeld::line_bucket), unfolding(crate::specs::Inner::Held::plan_of))]
    pub fn line_place(&self, source: Source, i: u64) -> usize
        requires { i < self.now.f.lines }
        ensures { result ≡ line_at (plan_of self.now.f []) source i }
    {
        match source {
            Source::List => (LINE * i) as usize,
            Source::Image => {
                let at = self.data_place(i / self.f.p);
                (BUCKET * at
                    + (Bucket::LINES as u64 + Line::COLUMNS as u64 * (i % self.f.p))) as usize
            }
        }
    }

    // The last line under bucket j of a level whose full buckets have `span` data buckets under them.
    #[tactic(auto, using(crate::proofs::Trees::LargestTags::span_reached))]
    pub fn last_line(&self, span: u64, j: u64) -> u64
        requires le_d { 1 ≤ self.now.f.d }
        requires spans { Spans self.now.f span j }
        ensures { (result < self.now.f.lines) × (result ≡ min self.now.f.lines ((j + 1) * span * self.now.f.p) - 1) }
    {
        lesser(self.f.lines, (j + 1) * span * self.f.p) - 1
    }
}

impl Part<'_> {
    // Where the image has that line, if the data buckets under the bucket are those of a segment of layout 1.
    fn segment_place(&self, span: u64, j: u64) -> usize
        requires layout_value { layout_number self.now.cycle.now.f.layout ≡ 1 }
        requires le_d { 1 ≤ self.now.cycle.now.f.d }
        requires spans_in { SpansIn self.now.cycle.now.f self.now.s span j }
        ensures { result ≡ tag_place self.now.cycle.now.f Source.Image span j }
    {
        let f = &self.cycle.f;
        let q = lesser(f.d, (j + 1) * span) - 1;
        let lines = lesser(f.p, f.lines - q * f.p);
        let x = self.s.data_at + (q - self.s.first);
        (Bucket::LENGTH as u64 * x
            + (Bucket::LINES as u64 + Line::COLUMNS as u64 * (lines - 1))) as usize
    }

    // The same wherever they stand: in layout 1, a bucket below the root of the segment's tree has them in the segment.
    #[tactic(auto, unfolding(crate::specs::Inner::Held::tag_place))]
    fn image_place(&self, span: u64, j: u64) -> usize
        requires le_d { 1 ≤ self.now.cycle.now.f.d }
        requires spans { Spans self.now.cycle.now.f span j }
        requires spans_in { span < self.now.cycle.now.f.span → SpansIn self.now.cycle.now.f self.now.s span j }
        ensures { result ≡ tag_place self.now.cycle.now.f Source.Image span j }
    {
        if self.cycle.f.layout == Layout::Distributed && span < self.cycle.f.span {
            return self.segment_place(span, j);
        }
        self.cycle
            .line_place(Source::Image, self.cycle.last_line(span, j))
    }

    // Where a text has it.
    #[tactic(auto, unfolding(crate::specs::Inner::Held::tag_place))]
    pub fn tag_place(&self, source: Source, span: u64, j: u64) -> usize
        requires le_d { 1 ≤ self.now.cycle.now.f.d }
        requires spans { Spans self.now.cycle.now.f span j }
        requires spans_in { span < self.now.cycle.now.f.span → SpansIn self.now.cycle.now.f self.now.s span j }
        ensures { result ≡ tag_place self.now.cycle.now.f source span j }
    {
        match source {
            Source::List => self
                .cycle
                .line_place(Source::List, self.cycle.last_line(span, j)),
            Source::Image => self.image_place(span, j),
        }
    }
}
