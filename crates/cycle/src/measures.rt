// The figures of a tree and of its cycle: data buckets, levels, subtrees, paths and N.
ghost use Rattle.std.specs.Prelude.{◌≡◌, true, false, [], ◌+◌, ◌*◌, ◌^◌, ◌≤◌, ◌<◌, min, length, MatchOption};
ghost use Rattle.columns.specs.Lists;
ghost use Rattle.columns.specs.Lists.{joined, range};
ghost use Rattle.buckets.specs.Lengths.{lines_most, entries_most};
ghost use Rattle.cycle.specs.Tree.{layout_number, levels_most, levels};
ghost use Rattle.cycle.specs.Layouts.{path};
ghost use Rattle.cycle.specs.Cycle.{cycle_size};
ghost use Rattle.cycle.specs.Refusals.{first_refusal, outcome};
ghost use Rattle.cycle.specs.Building.{settings_fit, copies_fit};
ghost use Rattle.cycle.specs.Judging.{size_conditions, full_size, tree_at, tree_height, last_place};
ghost use Rattle.cycle.specs.Inner.Held.{plan_of, span_most, Shaped, InTree, Trees, sized};
ghost use Rattle.cycle.specs.Inner.Settings.{SettingsFit, Figured};

use super::{Cycle, Figures, Layout, Reason, Refusal, Settings};
use buckets::Bucket;
use columns;

// a divided by b, rounded up: the library's method, in the definitions' word `up`.
pub fn up(a: u64, b: u64) -> u64
    requires { (1 ≤ b) × (a + b ≤ 2 ^ 60) }
    ensures { result ≡ Lists.up a b }
{
    a.div_ceil(b)
}

// The lesser of two.
pub fn lesser(a: u64, b: u64) -> u64
    ensures { result ≡ min a b }
{
    a.min(b)
}

// The least k of at least 1 with n^k at least d.
fn levels_of(n: u64, d: u64) -> u64
    requires { (2 ≤ n) × (n ≤ entries_most) × (d ≤ lines_most) }
    ensures { result ≡ levels n d }
{
    let mut k = 1;
    // a `while`: it ends by the power
    let mut power = n;
    while power < d {
        power *= n;
        k += 1;
    }
    k
}

// n to the power h: the data buckets under a full bucket of height h.
#[tactic(auto, using(crate::proofs::Basics::Powers::power_high))]
pub fn power(n: u64, h: usize) -> u64
    requires { (2 ≤ n) × (n ≤ entries_most) × (h ≤ levels_most) }
    ensures { result ≡ n ^ h }
{
    columns::power(n, h)
}

// The index buckets of a full subtree of height h.
pub fn full_size(n: u64, h: usize) -> u64
    requires { (2 ≤ n) × (n ≤ entries_most) × (h ≤ levels_most) }
    ensures { result ≡ full_size n h }
{
    let mut size = 0;
    for _ in 0..h {
        size = size * n + 1;
    }
    size
}

// Whether n, p and layout are within their ranges. A chain of tests: with ranges and `contains` the goals have no names of the source.
#[tactic(auto, unfolding(crate::specs::Building::settings_fit))]
pub fn settings_fit(settings: Settings) -> bool
    ensures { result ≡ settings_fit settings }
{
    let Settings { n, p, layout, .. } = settings;
    2 <= n && n <= 8 && 1 <= p && p <= 8 && 1 <= layout && layout <= 2
}

// The figures of settings within their ranges and of a number of lines, N left 0.
// Compiled once, since the header promises how much code there is.
#[inline(never)]
#[tactic(auto, using(crate::proofs::Trees::Readiness::few_data))]
pub fn figures_of(settings: Settings, lines: u64) -> Figures
    requires { SettingsFit settings × (lines ≤ lines_most) }
    ensures { Figured settings result × (result.lines ≡ lines) }
{
    let Settings {
        n,
        p,
        layout,
        copies,
    } = settings;
    let d = up(lines, p);
    Figures {
        n,
        p,
        layout: Layout::of(layout),
        copies,
        lines,
        d,
        k: levels_of(n, d),
        size: 0,
        span: 0,
        full: 0,
        last: 0,
    }
}

// Whether copies is within its range.
// Compiled once, since the header promises how much code there is.
#[inline(never)]
fn copies_fit(f: &Figures) -> bool
    requires { Shaped f.now }
    ensures { result ≡ copies_fit (plan_of f.now []) }
{
    match f.layout {
        Layout::Distributed => f.copies <= Bucket::PAIRS_MOST as u64 && f.copies < f.k,
        Layout::OneM => 1 <= f.copies && f.copies <= f.d.max(1),
    }
}

// Figures of settings within their ranges, with copies within its own.
#[derive(Clone, Copy)]
pub struct Fitted<'a> {
    f: &'a Figures,
    ghost shaped: { Shaped f.now },
    ghost copies_in: { copies_fit (plan_of f.now []) ≡ true },
}

impl<'a> Fitted<'a> {
    // Figures held against condition 5: none where copies is out of its range.
    pub fn new(f: &'a Figures) -> Option<Fitted<'a>>
        requires { Shaped f.now }
        ensures { MatchOption result (copies_fit (plan_of f.now []) ≡ false) (λ fitted. fitted.f.now ≡ f.now) }
    {
        if !copies_fit(f) {
            return None;
        }
        Some(Fitted { f })
    }

    // The index buckets of the subtree of bucket j of height e, which is the last of its height and not full.
    fn last_tree_size(&self, e: usize, j: u64) -> u64
        requires { (1 ≤ e) × InTree self.now.f.now e j × (self.now.f.now.d ≤ (j + 1) * self.now.f.now.n ^ e) }
        ensures { result ≡ length (tree_at (plan_of self.now.f.now []) e j) }
    {
        let f = self.f;
        if f.d == 0 {
            return 1;
        }
        let mut sum = 0;
        for h in 1..e + 1 {
            sum += up(f.d, power(f.n, h)) - j * power(f.n, e - h);
        }
        sum
    }

    // The index buckets of the subtree of bucket j of height e.
    #[tactic(auto, using(crate::proofs::Trees::Readiness::reached))]
    fn tree_size(&self, e: usize, j: u64) -> u64
        requires { (1 ≤ e) × InTree self.now.f.now e j }
        ensures { result ≡ length (tree_at (plan_of self.now.f.now []) e j) }
    {
        let f = self.f;
        if (j + 1) * power(f.n, e) <= f.d {
            return full_size(f.n, e);
        }
        self.last_tree_size(e, j)
    }

    // The path buckets that layout 1 sends before segment b.
    pub fn paths_before(&self, b: u64) -> u64
        requires { (layout_number self.now.f.now.layout ≡ 1) × (b ≤ lines_most) }
        ensures { result ≡ length (joined (path (plan_of self.now.f.now [])) (range 0 b)) }
    {
        // copied: behind the reference the loop takes more instructions, seven more a line of the mean wait with 2 1 1 4
        let f = *self.f;
        // a number, and not none: no path buckets are sent
        if f.copies == 0 {
            return 0;
        }
        let mut count = b;
        let mut sum = b;
        for _ in 1..f.copies {
            count = up(count, f.n);
            sum += count;
        }
        sum
    }

    // The height of a segment's tree.
    #[tactic(auto, unfolding(crate::specs::Inner::Held::plan_of))]
    fn tree_height(&self) -> usize
        ensures { result ≡ tree_height (plan_of self.now.f.now []) }
    {
        let f = self.f;
        match f.layout {
            Layout::Distributed => (f.k - f.copies) as usize,
            Layout::OneM => f.k as usize,
        }
    }

    // The place of the last segment's tree, `span` data buckets under each full one.
    #[tactic(auto, using(crate::proofs::Sequences::PathSizes::up_none, crate::proofs::Sequences::PathSizes::last_part, crate::proofs::Trees::Readiness::data_high), unfolding(crate::specs::Judging::last_place))]
    fn last_root(&self, span: u64) -> u64
        requires { (1 ≤ span) × (span ≤ span_most) }
        ensures { result ≡ last_place self.now.f.now.d span }
    {
        let f = self.f;
        // a place, and not none: the only tree
        if f.d == 0 {
            return 0;
        }
        up(f.d, span) - 1
    }

    // The figures with those of a segment's tree.
    fn with_trees(&self) -> Figures
        ensures { result ≡ sized self.now.f.now self.now.f.now.size }
    {
        let f = self.f;
        let e = self.tree_height();
        let span = power(f.n, e);
        let full = full_size(f.n, e);
        let last = self.tree_size(e, self.last_root(span));
        Figures {
            span,
            full,
            last,
            ..*f
        }
    }

    // N in layout 1, of figures with those of a segment's tree.
    fn distributed_size(&self) -> u64
        requires { (layout_number self.now.f.now.layout ≡ 1) × Trees self.now.f.now }
        ensures { result ≡ cycle_size (plan_of self.now.f.now []) }
    {
        let f = self.f;
        if f.d == 0 {
            return 1;
        }
        let count = up(f.d, f.span);
        f.d + self.paths_before(count) + (count - 1) * f.full + f.last
    }

    // N in layout 2, of figures with those of a segment's tree.
    fn one_m_size(&self) -> u64
        requires { (layout_number self.now.f.now.layout ≡ 2) × Trees self.now.f.now }
        ensures { result ≡ cycle_size (plan_of self.now.f.now []) }
    {
        let f = self.f;
        f.d + f.copies * f.last
    }

    // The figures with those of a segment's tree and with N.
    #[tactic(auto, unfolding(crate::specs::Inner::Held::plan_of, crate::specs::Inner::Held::sized))]
    pub fn with_size(&self) -> Figures
        ensures { result ≡ sized self.now.f.now (cycle_size (plan_of self.now.f.now [])) }
    {
        let next = self.with_trees();
        let fitted = Fitted { f: &next };
        let size = match next.layout {
            Layout::Distributed => fitted.distributed_size(),
            Layout::OneM => fitted.one_m_size(),
        };
        Figures { size, ..next }
    }
}

impl Cycle {
    // Its figures, whose copies is within its range.
    #[inline]
    pub fn fitted(&self) -> Fitted<'_>
        ensures { result.f.now ≡ self.now.f }
    {
        Fitted { f: &self.f }
    }
}

// Conditions 5 and 6 of figures, which look at no list; and the figures with N.
pub fn judge_figures(f: Figures) -> Result<Figures, Refusal>
    requires { Shaped f }
    ensures { result ≡ outcome (first_refusal (size_conditions (plan_of f []))) (sized f (cycle_size (plan_of f []))) }
{
    let Some(fitted) = Fitted::new(&f) else {
        return Err(Refusal::from(Reason::CopiesOut));
    };
    let sized = fitted.with_size();
    if Bucket::BUCKETS_MOST < sized.size {
        return Err(Refusal::from(Reason::CycleTooLong));
    }
    Ok(sized)
}
