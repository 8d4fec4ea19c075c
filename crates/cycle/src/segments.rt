// The segments of a cycle, and where they stand.
ghost use Rattle.std.specs.Prelude.{◌≡◌, List, [], ◌+◌, ◌-◌, ◌*◌, ◌≤◌, ◌<◌, length};
ghost use Rattle.columns.specs.Lists.{joined, range};
ghost use Rattle.buckets.specs.declared.Line.{Line};
ghost use Rattle.cycle.specs.Tree.{layout_number};
ghost use Rattle.cycle.specs.Layouts.{path_top, distributed_segment, whole_segment};
ghost use Rattle.cycle.specs.Waits.{segment_start};
ghost use Rattle.cycle.specs.Judging.{tree_at};
ghost use Rattle.cycle.specs.Inner.Held.{plan_of, HoldsSegment, segment_count, DataPlace};

use super::measures::{lesser, up};
use super::{Cycle, Layout, Part, Segment};

impl Segment {
    // The position of its data bucket q.
    #[inline]
    pub fn place_of(self, q: u64) -> u64
        requires { (self.first ≤ q) × (q < self.last) × (self.end ≡ self.data_at + (self.last - self.first)) }
        ensures { DataPlace self q result }
    {
        self.data_at + (q - self.first)
    }
}

impl Cycle {
    // How many segments there are.
    #[tactic(auto, using(crate::proofs::Segmenting::SegmentSizes::count_wholes), unfolding(crate::specs::Inner::Held::plan_of))]
    pub fn segment_count(&self) -> u64
        ensures { result ≡ segment_count (plan_of self.now.f []) }
    {
        match self.f.layout {
            Layout::Distributed => up(self.f.d, self.f.span).max(1),
            Layout::OneM => self.f.copies,
        }
    }

    // The level on which the path before bucket b of level r + 1 begins.
    pub fn path_top(&self, b: u64) -> u64
        requires { layout_number self.now.f.layout ≡ 1 }
        ensures { result ≡ path_top self.now.f.n self.now.f.copies b }
    {
        if b == 0 {
            return 1;
        }
        let mut place = b;
        for level in (2..self.f.copies + 1).rev() {
            if place % self.f.n != 0 {
                return level;
            }
            place /= self.f.n;
        }
        1
    }

    // The position of segment b of layout 1.
    pub fn distributed_start(&self, b: u64) -> u64
        requires { (layout_number self.now.f.layout ≡ 1) × (b < segment_count (plan_of self.now.f [])) }
        ensures { result ≡ length (joined (distributed_segment (plan_of self.now.f [])) (range 0 b)) }
    {
        b * (self.f.span + self.f.full) + self.fitted().paths_before(b)
    }

    // The position of part i of layout 2.
    fn whole_start(&self, i: u64) -> u64
        requires { (layout_number self.now.f.layout ≡ 2) × (i < self.now.f.copies) }
        ensures { result ≡ length (joined (whole_segment (plan_of self.now.f [])) (range 0 i)) }
    {
        i * self.f.last + i * self.f.d / self.f.copies
    }

    // The position where the segment of data bucket q starts.
    #[tactic(auto, using(crate::proofs::Reach::DataHeld::part_product, crate::proofs::Waiting::SegmentStarts::start_in_part))]
    pub fn segment_start(&self, q: u64) -> u64
        requires { q < self.now.f.d }
        ensures { result ≡ segment_start (plan_of self.now.f []) q }
    {
        match self.f.layout {
            Layout::Distributed => self.distributed_start(q / self.f.span),
            Layout::OneM => self.whole_start(((q + 1) * self.f.copies - 1) / self.f.d),
        }
    }

    // The index buckets of the tree of segment b of layout 1.
    pub fn segment_tree(&self, b: u64) -> u64
        requires { (layout_number self.now.f.layout ≡ 1) × (b < segment_count (plan_of self.now.f [])) }
        ensures { result ≡ length (tree_at (plan_of self.now.f []) (self.now.f.k - self.now.f.copies) b) }
    {
        if (b + 1) * self.f.span <= self.f.d {
            return self.f.full;
        }
        self.f.last
    }

    // Segment b of layout 1.
    fn distributed_segment(&self, b: u64) -> Segment
        requires { (layout_number self.now.f.layout ≡ 1) × (b < segment_count (plan_of self.now.f [])) }
        ensures { ((ls : List Line) → HoldsSegment (plan_of self.now.f ls) result) × (result.number ≡ b) }
    {
        let start = self.distributed_start(b);
        let e = (self.f.k - self.f.copies) as usize;
        let top = self.path_top(b);
        let tree_at = start + (self.f.copies + 1 - top);
        let data_at = tree_at + self.segment_tree(b);
        let first = b * self.f.span;
        let last = lesser(self.f.d, first + self.f.span);
        Segment {
            number: b,
            start,
            top,
            tree_at,
            height: e,
            root: b,
            data_at,
            first,
            last,
            end: data_at + (last - first),
        }
    }

    // Part i of layout 2.
    fn whole_segment(&self, i: u64) -> Segment
        requires { (layout_number self.now.f.layout ≡ 2) × (i < self.now.f.copies) }
        ensures { ((ls : List Line) → HoldsSegment (plan_of self.now.f ls) result) × (result.number ≡ i) }
    {
        let tree = self.f.last;
        let first = i * self.f.d / self.f.copies;
        let last = (i + 1) * self.f.d / self.f.copies;
        let start = i * tree + first;
        let data_at = start + tree;
        Segment {
            number: i,
            start,
            top: self.f.copies + 1,
            tree_at: start,
            height: self.f.k as usize,
            root: 0,
            data_at,
            first,
            last,
            end: data_at + (last - first),
        }
    }

    // A segment by its number. The two `for` and two `all` that go over all of them count: a struct with an `impl Iterator` would be
    // longer than these lines.
    #[tactic(auto, using(crate::proofs::Segmenting::SegmentSizes::count_wholes), unfolding(crate::specs::Inner::Held::plan_of))]
    pub fn part(&self, number: u64) -> Part<'_>
        requires { number < segment_count (plan_of self.now.f []) }
        ensures { (result.cycle.now.f ≡ self.now.f) × (result.s.number ≡ number) }
    {
        let s = match self.f.layout {
            Layout::Distributed => self.distributed_segment(number),
            Layout::OneM => self.whole_segment(number),
        };
        Part { cycle: self, s }
    }
}
