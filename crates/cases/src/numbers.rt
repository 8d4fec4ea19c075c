// A number in its columns: blanks, then digits.
ghost use Rattle.std.specs.Prelude.{◌≡◌, ◌≤◌, None, length};
ghost use Rattle.columns.specs.Lists.{pick, every};
ghost use Rattle.columns.specs.PrintedNumbers.{digit, value, read_lenient};

use columns::ten_to;

// The columns of a number.
pub const COLUMNS: usize = 12;

// The number that digits in every column spell.
fn spelled(part: &[u8]) -> Option<u64>
    requires { length part.now ≤ 12 }
    ensures { result ≡ pick (every digit part.now) (Some (value 0 part.now)) None }
{
    let mut x = 0;
    for c in part {
        if !c.is_ascii_digit() {
            return None;
        }
        x = x * ten_to(1) + u64::from(*c - b'0');
    }
    Some(x)
}

// The number in at most 12 columns: blanks, then digits, one or more.
pub fn number(part: &[u8]) -> Option<u64>
    requires { length part.now ≤ 12 }
    ensures { result ≡ read_lenient part.now }
{
    let first = part.iter().position(|c| *c != b' ')?;
    spelled(&part[first..])
}
