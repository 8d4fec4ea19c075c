// Sizing: the dimensions of a cycle from a number of lines, before any list exists. Nothing is built.
ghost use Rattle.std.specs.Prelude.{◌≡◌, [], ◌≤◌};
ghost use Rattle.cycle.specs.Tree.{levels_most};
ghost use Rattle.cycle.specs.Size;
ghost use Rattle.cycle.specs.Size.{heard_most, dimensions};
ghost use Rattle.cycle.specs.Cycle.{cycle_size};
ghost use Rattle.cycle.specs.Inner.Held.{plan_of};
ghost use Rattle.buckets.specs.Lengths.{lines_most, buckets_most};

use super::measures::{figures_of, judge_figures, lesser, settings_fit};
use super::{BUCKET, Dimensions, Figures, Reason, Refusal, Settings};
use buckets::Line;

// The most buckets that a display hears in a tree of k levels, for a tag in c data buckets.
fn heard_most(k: u64, c: u64) -> u64
    requires { (k ≤ levels_most) × (c ≤ lines_most) }
    ensures { result ≡ heard_most k c }
{
    if c == 0 {
        return 2 + k + 1;
    }
    2 + k + c
}

// The dimensions that figures with their N have, for a tag in c data buckets.
#[tactic(auto, unfolding(crate::specs::Size::dimensions, crate::specs::Inner::Held::plan_of))]
fn dimensions_of(f: Figures, c: u64) -> Dimensions
    requires { (f.k ≤ levels_most) × (f.d ≤ lines_most) × (f.size ≤ buckets_most) × (f.size ≡ cycle_size (plan_of f [])) }
    ensures { result ≡ dimensions (plan_of f []) c }
{
    Dimensions {
        k: f.k,
        d: f.d,
        n: f.size,
        bytes: BUCKET * f.size,
        heard: heard_most(f.k, lesser(c, f.d)),
    }
}

// The dimensions of the cycle of so many lines under these settings, for a tag in c data buckets; or a refusal.
pub fn size(lines: u64, settings: Settings, c: u64) -> Result<Dimensions, Refusal>
    ensures { result ≡ Size.size settings lines c }
{
    if !settings_fit(settings) {
        return Err(Refusal::from(Reason::SettingsOut));
    }
    if Line::LINES_MOST < lines {
        return Err(Refusal::from(Reason::LengthOut));
    }
    let f = judge_figures(figures_of(settings, lines))?;
    Ok(dimensions_of(f, c))
}
