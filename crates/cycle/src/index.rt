// What stands in an index bucket of a cycle: its head, its control pairs and its entries, in a path and in a segment's tree.
ghost use Rattle.std.specs.Prelude.{◌≡◌, [], ◌++◌, ◌∷◌, suc, ◌+◌, ◌-◌, ◌*◌, ◌%◌, ◌≤◌, ◌<◌, length, drop};
ghost use Rattle.columns.specs.Lists.{joined, padded, put};
ghost use Rattle.buckets.specs.Lengths.{newline, pairs_most, entries_start, bucket_end, bucket_length};
ghost use Rattle.buckets.specs.Bucket.{print_entry, print_bucket};
ghost use Rattle.buckets.specs.Inner.Held.{head_of, index_front, EntriesBlank};
ghost use Rattle.cycle.specs.Tree.{layout_number, width, children, largest_tag};
ghost use Rattle.cycle.specs.Layouts.{slots};
ghost use Rattle.cycle.specs.Cycle.{to_next_segment, first_place, first_pair};
ghost use Rattle.cycle.specs.Judging.{full_size};
ghost use Rattle.cycle.specs.Inner.HeldOnce.{held};
ghost use Rattle.cycle.specs.Inner.Held.{plan_of, InTree, plan_in, cycle_bucket, tag_at};
ghost use Rattle.cycle.specs.Inner.Held.{ahead_of, last_of, tree_distance, child_distance, child_entries};
ghost use Rattle.cycle.specs.Inner.Held.{pair_reach, tree_pairs, path_pairs, OnPath, TreePlace, PathPlace, IndexPlace, Printing};

use super::measures::{full_size, power, up};
use super::{Cycle, Layout, Part, Source};
use arrayvec::ArrayVec;
use buckets::lines::spelled_tag;
use buckets::writer::{put_entry, start_index};
use buckets::{Head, Pair};

impl Cycle {
    // A distance from position x to a place of the cycle if it is ahead, else to the next cycle's start.
    #[tactic(auto, unfolding(crate::specs::Inner::Held::ahead_of))]
    fn ahead(&self, x: u64, place: u64) -> u64
        requires { x < self.now.f.size }
        ensures { result ≡ ahead_of self.now.f.size x place }
    {
        if x < place {
            return place - x;
        }
        self.f.size - x
    }

    // How many children bucket j of height e has.
    pub fn child_count(&self, e: usize, j: u64) -> usize
        requires { (1 ≤ e) × InTree self.now.f e j }
        ensures { result ≡ length (children (plan_of self.now.f []) (self.now.f.k + 1 - e) j) }
    {
        let below = e - 1;
        let from = j * self.f.n;
        let span = power(self.f.n, below);
        if (from + self.f.n) * span <= self.f.d {
            return self.f.n as usize;
        }
        let behind = up(self.f.d, span);
        // a number, and not none: no children
        if behind < from {
            return 0;
        }
        (behind - from) as usize
    }

    // The distance of pair number level of a path bucket at x, over bucket `place` of that level.
    fn pair_distance(&self, level: u64, place: u64, x: u64) -> u64
        requires { (1 ≤ self.now.f.d) × (layout_number self.now.f.layout ≡ 1) × (2 ≤ level) × (level ≤ self.now.f.copies)
            × InTree self.now.f (self.now.f.k + 1 - level) place × (x < self.now.f.size)
            × ((place + 1 < width (plan_of self.now.f []) level → ((place + 1) % self.now.f.n ≡ 0 → ⊥) →
            x < first_place (plan_of self.now.f []) level (place + 1))) }
        ensures { result ≡ pair_reach (plan_of self.now.f []) self.now.f.size x level place }
    {
        let e = (self.f.k + 1 - level) as usize;
        let sibling = place + 1;
        if sibling % self.f.n == 0 {
            return self.f.size - x;
        }
        if sibling < up(self.f.d, power(self.f.n, e)) {
            return self.first_place(level, sibling) - 1 - x;
        }
        self.f.size - x
    }
}

impl Part<'_> {
    // The head of the bucket at x.
    pub fn head_at(&self, x: u64) -> Head
        requires { (x < self.now.s.end) × (self.now.s.end ≤ self.now.cycle.now.f.size)
            × (to_next_segment (drop (suc x) (slots (plan_of self.now.cycle.now.f []))) ≡ self.now.s.end - x) }
        ensures { result ≡ head_of (cycle_bucket (plan_of self.now.cycle.now.f []) x) }
    {
        Head {
            position: x,
            to_cycle: self.cycle.f.size - x,
            to_segment: self.s.end - x,
        }
    }

    // The distance from bucket j of height e in the segment's tree, at x, to its child i. A full subtree of the children's height
    // has `full` index buckets, and those of the earlier children are full.
    fn tree_distance(&self, e: usize, j: u64, x: u64, full: u64, i: u64) -> u64
        requires tree_place { TreePlace self.now.cycle.now.f self.now.s e j x }
        requires full_value { full ≡ full_size self.now.cycle.now.f.n (e - 1) }
        requires i_in_bounds { i < length (children (plan_of self.now.cycle.now.f []) (self.now.cycle.now.f.k + 1 - e) j) }
        ensures { result ≡
            tree_distance (plan_of self.now.cycle.now.f []) self.now.cycle.now.f.size x e j (j * self.now.cycle.now.f.n + i) }
    {
        if e != 1 {
            return 1 + i * full;
        }
        let c = j * self.cycle.f.n + i;
        match self.cycle.f.layout {
            Layout::Distributed => self.s.data_at + (c - self.s.first) - x,
            Layout::OneM => self.cycle.ahead(x, self.cycle.data_place(c)),
        }
    }

    // The distance from bucket j of height e of the segment, at x, to its child i: a child of a path bucket may stand anywhere.
    fn child_distance(&self, e: usize, j: u64, x: u64, full: u64, i: u64) -> u64
        requires index_place { IndexPlace self.now.cycle.now.f self.now.s e j x }
        requires full_value { full ≡ full_size self.now.cycle.now.f.n (e - 1) }
        requires i_in_bounds { i < length (children (plan_of self.now.cycle.now.f []) (self.now.cycle.now.f.k + 1 - e) j) }
        ensures { result ≡
            child_distance (plan_of self.now.cycle.now.f []) self.now.cycle.now.f.size x e j (j * self.now.cycle.now.f.n + i) }
    {
        let f = &self.cycle.f;
        if self.s.height < e {
            let place = self.cycle.first_place(f.k + 2 - e as u64, j * f.n + i);
            return self.cycle.ahead(x, place);
        }
        self.tree_distance(e, j, x, full, i)
    }
}

// What the index buckets of a segment are printed from: the segment, and the text in which the lines of its cycle stand, a list or
// an image. Where `plain` says so, no tag of it has a leading zero.
#[derive(Clone, Copy)]
pub struct Printer<'a> {
    pub part: &'a Part<'a>,
    pub source: Source,
    pub text: &'a [u8],
    pub plain: bool,
    pub ghost printing: { Printing part.now.cycle.now.f source text.now plain part.now.s } by { Prim.hlevel held },
}

impl Printer<'_> {
    // The tag of line i.
    #[tactic(auto, using(crate::proofs::Lines::LinesHeld::line_fits), unfolding(crate::specs::Inner::Held::tag_at))]
    fn tag_of(&self, i: u64) -> u64
        requires { i < self.now.part.now.cycle.now.f.lines }
        ensures { result ≡ tag_at self.now.part.now.cycle.now.f self.now.source self.now.text.now i }
    {
        let at = self.part.cycle.line_place(self.source, i);
        spelled_tag(self.text, at)
    }

    // The largest tag under bucket j of height e.
    #[tactic(auto, using(crate::proofs::Trees::Readiness::reached, crate::proofs::Trees::LargestTags::largest_tag_lem))]
    fn largest_tag(&self, e: usize, j: u64) -> u64
        requires { (1 ≤ self.now.part.now.cycle.now.f.d) × InTree self.now.part.now.cycle.now.f e j }
        ensures { result ≡
            largest_tag (plan_in self.now.part.now.cycle.now.f self.now.source self.now.text.now) (self.now.part.now.cycle.now.f.k + 1 - e) j }
    {
        let cycle = self.part.cycle;
        self.tag_of(cycle.last_line(power(cycle.f.n, e), j))
    }

    // The tag of the last line of the data buckets sent before the segment, if there is one.
    fn last_sent_tag(&self) -> Option<u64>
        ensures { result ≡ last_of (plan_in self.now.part.now.cycle.now.f self.now.source self.now.text.now) self.now.part.now.s.first }
    {
        let sent = self.part.s.first;
        if sent == 0 {
            return None;
        }
        Some(self.tag_of(sent * self.part.cycle.f.p - 1))
    }

    // The first control pair of a bucket at x: the tag that was sent last, and the distance to the next cycle's start.
    #[tactic(auto, unfolding(crate::specs::Cycle::first_pair))]
    fn first_pair(&self, x: u64) -> Pair
        requires { x < self.now.part.now.cycle.now.f.size }
        ensures { result ≡
            first_pair (last_of (plan_in self.now.part.now.cycle.now.f self.now.source self.now.text.now) self.now.part.now.s.first)
            (self.now.part.now.cycle.now.f.size - x) }
    {
        Pair {
            tag: self.last_sent_tag(),
            distance: self.part.cycle.f.size - x,
        }
    }

    // The control pairs of a bucket of height e in the segment's tree, at x: the root of layout 2 has one.
    fn tree_pairs(&self, e: usize, x: u64) -> ArrayVec<Pair, 4>
        requires { x < self.now.part.now.cycle.now.f.size }
        ensures { result.items ≡
            tree_pairs (plan_in self.now.part.now.cycle.now.f self.now.source self.now.text.now) self.now.part.now.s.first
            (self.now.part.now.cycle.now.f.size - x) e }
    {
        let f = &self.part.cycle.f;
        let mut pairs = ArrayVec::new();
        if f.layout == Layout::OneM && e as u64 == f.k {
            pairs.push(self.first_pair(x));
        }
        pairs
    }

    // The control pairs of the path bucket of level i of the segment, at x.
    fn path_pairs(&self, i: u64, x: u64) -> ArrayVec<Pair, 4>
        requires some_data { 1 ≤ self.now.part.now.cycle.now.f.d }
        requires x_in_bounds { x < self.now.part.now.cycle.now.f.size }
        requires on_path { OnPath (plan_of self.now.part.now.cycle.now.f []) self.now.part.now.s.number i x }
        ensures { result.items ≡ path_pairs self.now.part.now.cycle.now.f self.now.source self.now.text.now self.now.part.now.s i x }
    {
        let cycle = self.part.cycle;
        let mut pairs = ArrayVec::new();
        pairs.push(self.first_pair(x));
        for level in 2..i + 1 {
            let h = (cycle.f.copies + 1 - level) as usize;
            let e = (cycle.f.k + 1 - level) as usize;
            let place = self.part.s.number / power(cycle.f.n, h);
            pairs.push(Pair {
                tag: Some(self.largest_tag(e, place)),
                distance: cycle.pair_distance(level, place, x),
            });
        }
        pairs
    }

    // The entries of bucket j of height e of the segment, at x, `count` of them, put one after the other over blank columns.
    fn put_entries(&self, part: &mut [u8], e: usize, j: u64, x: u64, count: usize)
        requires part_len { length part.old ≡ bucket_length }
        requires entries_blank { EntriesBlank part.old }
        requires index_place { IndexPlace self.now.part.now.cycle.now.f self.now.part.now.s e j x }
        requires count_value { count ≡ length (children (plan_of self.now.part.now.cycle.now.f []) (self.now.part.now.cycle.now.f.k + 1 - e) j) }
        ensures { part.new ≡
            put part.old entries_start
            (joined print_entry (child_entries self.now.part.now.cycle.now.f self.now.source self.now.text.now e j x count)) }
    {
        let below = e - 1;
        let span = power(self.part.cycle.f.n, below);
        let full = full_size(self.part.cycle.f.n, below);
        let first = j * self.part.cycle.f.n;
        for i in 0..count {
            let from = self.part.tag_place(self.source, span, first + i as u64);
            let distance = self.part.child_distance(e, j, x, full, i as u64);
            put_entry(part, i, self.text, from, self.plain, distance);
        }
    }

    // An index bucket of the segment, bucket j of height e, at x: its head, the control pairs given, and its `count` entries.
    fn print_index_bucket(
        &self,
        part: &mut [u8],
        e: usize,
        j: u64,
        x: u64,
        count: usize,
        pairs: &[Pair],
    )
        requires part_len { length part.old ≡ bucket_length }
        requires index_place { IndexPlace self.now.part.now.cycle.now.f self.now.part.now.s e j x }
        requires count_value { count ≡ length (children (plan_of self.now.part.now.cycle.now.f []) (self.now.part.now.cycle.now.f.k + 1 - e) j) }
        requires start_le_x { (self.now.part.now.s.start ≤ x) × (x < self.now.part.now.s.end) }
        requires pairs_le_pairs_most { length pairs.now ≤ pairs_most }
        ensures { part.new ≡
            put
            (padded bucket_end (index_front (head_of (cycle_bucket (plan_of self.now.part.now.cycle.now.f []) x)) pairs.now count)
            ++ newline ∷ [])
            entries_start
            (joined print_entry (child_entries self.now.part.now.cycle.now.f self.now.source self.now.text.now e j x count)) }
    {
        start_index(part, self.part.head_at(x), pairs, count);
        self.put_entries(part, e, j, x, count);
    }

    // Bucket j of height e of the segment's tree, at x, with `count` entries.
    #[inline]
    pub fn print_tree_bucket(&self, part: &mut [u8], e: usize, j: u64, x: u64, count: usize)
        requires part_len { length part.old ≡ bucket_length }
        requires tree_place { TreePlace self.now.part.now.cycle.now.f self.now.part.now.s e j x }
        requires count_value { count ≡ length (children (plan_of self.now.part.now.cycle.now.f []) (self.now.part.now.cycle.now.f.k + 1 - e) j) }
        ensures { part.new ≡
            print_bucket (cycle_bucket (plan_in self.now.part.now.cycle.now.f self.now.source self.now.text.now) x) }
    {
        let pairs = self.tree_pairs(e, x);
        self.print_index_bucket(part, e, j, x, count, pairs.as_slice());
    }

    // The path bucket of level i of the segment, at x.
    pub fn print_path_bucket(&self, part: &mut [u8], i: u64, x: u64)
        requires part_len { length part.old ≡ bucket_length }
        requires path_place { PathPlace self.now.part.now.cycle.now.f self.now.part.now.s i x }
        ensures { part.new ≡
            print_bucket (cycle_bucket (plan_in self.now.part.now.cycle.now.f self.now.source self.now.text.now) x) }
    {
        let cycle = self.part.cycle;
        let h = (cycle.f.copies + 1 - i) as usize;
        let e = (cycle.f.k + 1 - i) as usize;
        let j = self.part.s.number / power(cycle.f.n, h);
        let count = cycle.child_count(e, j);
        let pairs = self.path_pairs(i, x);
        self.print_index_bucket(part, e, j, x, count, pairs.as_slice());
    }
}
