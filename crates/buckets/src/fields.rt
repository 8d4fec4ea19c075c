// What fields are read with: a number within bounds.
ghost use Rattle.std.specs.Prelude.{◌≡◌, ◌≤◌, length};
ghost use Rattle.buckets.specs.Lengths.{tag_width};
ghost use Rattle.buckets.specs.Inner.Columns.{number_within};

use columns;

// The number in the columns of part, if it is from low to high. It is compiled for each call, where the width is known.
#[inline(always)]
pub fn number_within(part: &[u8], low: u64, high: u64) -> Option<u64>
    requires { (1 ≤ length part.now) × (length part.now ≤ tag_width) }
    ensures { result ≡ number_within low high part.now }
{
    match columns::read_number(part) {
        Some(x) if low <= x && x <= high => Some(x),
        _ => None,
    }
}
