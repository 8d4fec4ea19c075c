// Decimal columns: document 01, "Printed numbers".
#![tactic(auto)]

ghost use Rattle.std.specs.Prelude.{not, ◌≡◌, ◌-◌, ◌^◌, ◌<◌, ◌≤◌, true, ◌&&◌, ◌||◌, [], ◌∷◌, length, take, drop, ◌==◌};
ghost use Rattle.columns.specs.Lists.{pick, put, every};
ghost use Rattle.columns.specs.Inner.Places.{place_of, leading, column_printed, column_digits};
ghost use Rattle.columns.specs.Inner.Starts.{IsUsed};
ghost use Rattle.columns.specs.PrintedNumbers.{print, blanks, all_blank, value, digit, read_number, blanks_digits, blank_zeros};

// The place of a column in its field.
#[derive(Clone, Copy, PartialEq, Eq)]
#[repr(u8)]
pub enum Place {
    First,
    Between,
    Last,
}

// The place that a number names, so that any number is answered: 1 the first, 2 the last, every other one between them.
impl From<u8> for Place {
    ghost from_gives = { λ k place. place ≡ place_of k };

    fn from(k: u8) -> Place {
        match k {
            1 => Place::First,
            2 => Place::Last,
            _ => Place::Between,
        }
    }
}

// The bytes of columns: a blank, and the first digit.
const BLANK: u8 = 32;

const ZERO: u8 = 48;

// n to the power e, by multiplying. A loop: `pow` takes an exponent of 32 bits, and the clause would have to ask for one.
pub fn power(n: u64, e: usize) -> u64
    requires { (1 ≤ n) × (n ^ e < 2 ^ 64) }
    ensures { result ≡ n ^ e }
{
    let mut x = 1;
    for _ in 0..e {
        x = x * n;
    }
    x
}

// Ten to the power e, for each power of ten that a u64 holds (document 02, C-15). Each is worked out, a rule of the project: so the
// first stands as `ten_to(1)`, and the compiler makes it a constant.
pub fn ten_to(e: usize) -> u64
    requires { e < 20 }
    ensures { result ≡ 10 ^ e }
{
    power(10, e)
}

// Blanks in every column.
pub fn print_blanks(part: &mut [u8])
    ensures { part.new ≡ blanks (length part.old) }
{
    part.fill(BLANK);
}

// x over columns that are blank: its digits, from the right.
pub fn print_digits(part: &mut [u8], x: u64)
    requires { part.old ≡ blanks (length part.old) }
    ensures { part.new ≡ print (length part.old) x }
{
    let ten = ten_to(1);
    let mut rest = x;
    for i in (0..part.len()).rev() {
        part[i] = ZERO + (rest % ten) as u8;
        rest = rest / ten;
        if rest == 0 {
            return;
        }
    }
}

// x over the blank columns of part from `at` up to `end`.
pub fn print_at(part: &mut [u8], at: usize, end: usize, x: u64)
    requires { (at ≤ end) × ((end ≤ length part.old) × (take (end - at) (drop at part.old) ≡ blanks (end - at))) }
    ensures { part.new ≡ put part.old at (print (end - at) x) }
{
    print_digits(&mut part[at..end], x);
}

// x in all the columns of part.
pub fn print_number(part: &mut [u8], x: u64)
    ensures { part.new ≡ print (length part.old) x }
{
    print_blanks(part);
    print_digits(part, x);
}

// The columns of `from`, as they are.
pub fn copy_columns(part: &mut [u8], from: &[u8])
    requires { length from.now ≡ length part.old }
    ensures { part.new ≡ from.now }
{
    part.copy_from_slice(from);
}

// Whether c may stand before a number: a blank or a leading zero. One test, by `|`: `matches!` would be no plainer.
fn is_leading(c: u8) -> bool
    ensures { result ≡ (c == 32 || c == 48) }
{
    (c == BLANK) | (c == ZERO)
}

// Leading zeros made blank. The last column stays. One loop looks and writes: to fill the columns that a search found takes `memset`
// of the C library, which the library must not need.
pub fn blank_zeros(part: &mut [u8])
    ensures { part.new ≡ blank_zeros part.old }
{
    for i in 0..part.len().saturating_sub(1) {
        if !is_leading(part[i]) {
            return;
        }
        part[i] = BLANK;
    }
}

// The columns of `from` with leading zeros made blank.
pub fn copy_blanked(part: &mut [u8], from: &[u8])
    requires { length from.now ≡ length part.old }
    ensures { part.new ≡ blank_zeros from.now }
{
    part.copy_from_slice(from);
    blank_zeros(part);
}

// Whether every column of part is blank. It looks at each of them, so that many are tested at once: with `all`, which stops at the
// first that is used, a step takes 1,744 instructions with 2 1 1 4, for 1,200 at most, and reading back 1,170, for 700 (docs/SPEED.md).
pub fn all_blank(part: &[u8]) -> bool
    ensures { result ≡ all_blank part.now }
{
    part.iter().fold(true, |blank, c| blank & (*c == BLANK))
}

// Whether every column is a digit.
fn all_digits(part: &[u8]) -> bool
    ensures { result ≡ every digit part.now }
{
    part.iter().all(|c| c.is_ascii_digit())
}

// The number that digits in every column spell.
fn spelled(part: &[u8]) -> u64
    requires { (length part.now ≤ 10) × (every digit part.now ≡ true) }
    ensures { result ≡ value 0 part.now }
{
    let mut x = 0;
    for c in part {
        x = x * ten_to(1) + u64::from(*c) - u64::from(ZERO);
    }
    x
}

// The number in columns that hold one, leading zeros or none. A digit is worth its last four bits; those of a blank are 0.
pub fn lenient_number(part: &[u8]) -> u64
    requires { (length part.now ≤ 10) × (blanks_digits part.now ≡ true) }
    ensures { result ≡ value 0 part.now }
{
    let mut x = 0;
    for c in part {
        x = x * ten_to(1) + u64::from(*c % 16);
    }
    x
}

// Whether a number may begin with c: a digit, and no 0 unless it stands alone.
fn begins_number(c: u8, alone: bool) -> bool
    ensures { result ≡ (digit c && (alone || not (c == 48))) }
{
    c.is_ascii_digit() & (alone | (c != ZERO))
}

// The number in WIDTH columns, of which the first is used: digits, the first no 0 unless it is the only one.
fn read_digits<const WIDTH: usize>(number: &[u8]) -> Option<u64>
    requires used { IsUsed number.now }
    requires width { length number.now ≡ WIDTH }
    ensures { result ≡ read_number number.now }
{
    let digits = &number[..WIDTH];
    if !begins_number(digits[0], WIDTH == 1) {
        return None;
    }
    if !all_digits(&digits[1..]) {
        return None;
    }
    Some(spelled(digits))
}

// The number in columns of which the first is used. Each width has a `read_digits` that is compiled for it: by one function for
// all widths a step takes 1,328 instructions with 2 1 1 4, for 1,200 at most, and 2,098 with 8 8 1 1, for 2,000 (docs/SPEED.md).
#[inline(always)]
fn read_used(number: &[u8]) -> Option<u64>
    requires { IsUsed number.now }
    ensures { result ≡ read_number number.now }
{
    match number.len() {
        1 => read_digits::<1>(number),
        2 => read_digits::<2>(number),
        3 => read_digits::<3>(number),
        4 => read_digits::<4>(number),
        5 => read_digits::<5>(number),
        6 => read_digits::<6>(number),
        7 => read_digits::<7>(number),
        8 => read_digits::<8>(number),
        9 => read_digits::<9>(number),
        _ => read_digits::<10>(number),
    }
}

// The number in all the columns of part: blanks, then digits to the end, the first no 0 unless it is the only one.
#[inline(always)]
pub fn read_number(part: &[u8]) -> Option<u64>
    requires { (1 ≤ length part.now) × (length part.now ≤ 10) }
    ensures { result ≡ read_number part.now }
{
    let first = part.iter().position(|c| *c != BLANK)?;
    read_used(&part[first..])
}

// Whether a column in this place may be unused: no column of its field before it is used, and it is not the last.
fn may_be_blank(place: Place, before: u8) -> bool
    ensures { result ≡ leading place before }
{
    ((before == BLANK) | (place == Place::First)) & (place != Place::Last)
}

// Whether c is well printed and the columns before it are. Behind unused columns of its field, and in the first one, c is blank
// or a digit that is no 0; in the last column, and behind a used one, it is a digit.
pub fn still_printed(still: bool, place: Place, before: u8, c: u8) -> bool
    ensures { result ≡ (still && column_printed place before c) }
{
    let leading = may_be_blank(place, before);
    let nought = leading & (c == ZERO);
    let blank = leading & (c == BLANK);
    still & ((c.is_ascii_digit() & !nought) | blank)
}

// Whether c may stand in a list line and the columns before it may. Behind unused columns of its field, and in the first one, c
// is blank or a digit; in the last column, and behind a used one, it is a digit.
pub fn still_digits(still: bool, place: Place, before: u8, c: u8) -> bool
    ensures { result ≡ (still && column_digits place before c) }
{
    still & (c.is_ascii_digit() | (may_be_blank(place, before) & (c == BLANK)))
}
