// A list line, read and written.
ghost use Rattle.std.specs.Prelude.{◌≡◌, true, ◌+◌, ◌*◌, ◌≤◌, length, take, drop};
ghost use Rattle.std.specs.Option.{option_map};
ghost use Rattle.columns.specs.Lists.{put};
ghost use Rattle.columns.specs.PrintedNumbers.{value};
ghost use Rattle.columns.specs.Inner.Places.{column_printed, column_digits, columns_by};
ghost use Rattle.buckets.specs.Lengths.{tag_width, line_columns_width, rest_width, line_length};
ghost use Rattle.buckets.specs.ListLine.{line_columns, print_line, ended_line, ended_lines, read_line};
ghost use Rattle.buckets.specs.Bucket.{spelled_line};
ghost use Rattle.buckets.specs.Inner.Columns.{read_line_columns, read_plain, blanked_columns, rest_places, line_places};

use super::fields::number_within;
use super::{BLANK, Line, NEWLINE};
use columns;
use columns::Place;
use columns::Place::{Between, First, Last};

// The places of the columns of tare, material code and weighing number in their fields. A constant would be put together anew for
// each column.
static PLACES: [Place; Line::REST] = [
    First, Between, Between, Between, Between, Last, First, Between, Between, Last, First, Between,
    Between, Between, Between, Last,
];

// The places of all columns of a line.
const LINE_PLACES: [Place; Line::COLUMNS] = [
    First, Between, Between, Between, Between, Between, Between, Between, Between, Last, First,
    Between, Between, Between, Between, Last, First, Between, Between, Last, First, Between,
    Between, Between, Between, Last,
];

// The line in the first columns of part, as a bucket has it, its tag at least low.
#[tactic(auto, unfolding(crate::specs::Inner::Columns::read_line_columns, crate::specs::Bucket::columns))]
pub fn read_columns(part: &[u8], low: u64) -> Option<Line>
    requires { line_columns_width ≤ length part.now }
    ensures { result ≡ read_line_columns low part.now }
{
    let tag = number_within(&part[Line::TAG..Line::TARE], low, Line::TAG_MOST)?;
    let tare = number_within(&part[Line::TARE..Line::CODE], 0, Line::TARE_MOST)?;
    let code = number_within(&part[Line::CODE..Line::WEIGHING], 0, Line::CODE_MOST)?;
    let weighing = number_within(&part[Line::WEIGHING..Line::COLUMNS], 0, Line::WEIGHING_MOST)?;
    Some(Line {
        tag,
        tare,
        code,
        weighing,
    })
}

// Whether tare, material code and weighing number are well printed in the columns behind the tag. Each column is looked at, so
// that all are tested at once: over indices, since the compiler unrolls a `zip` of these columns and then tests them one by one.
// With it reading back takes 740 instructions with 2 1 1 4, for 700 at most (docs/SPEED.md).
fn rest_printed(part: &[u8]) -> bool
    requires { length part.now ≡ rest_width }
    ensures { result ≡ columns_by column_printed rest_places 32 part.now }
{
    let mut still = true;
    let mut before = BLANK;
    for i in 0..Line::REST {
        still = columns::still_printed(still, PLACES[i], before, part[i]);
        before = part[i];
    }
    still
}

// The tag of the line in the first columns of part, as a bucket has it, at least low. The tare leaves its first column blank.
// Compiled into what reads lines: as a function of its own, 127 instructions more a bucket read back with 8 8 1 1.
#[inline(always)]
pub fn read_tag(part: &[u8], low: u64) -> Option<u64>
    requires { line_columns_width ≤ length part.now }
    ensures { result ≡ option_map (λ l. l.tag) (read_line_columns low part.now) }
{
    let tag = number_within(&part[Line::TAG..Line::TARE], low, Line::TAG_MOST)?;
    if part[Line::TARE] == BLANK && rest_printed(&part[Line::TARE..Line::COLUMNS]) {
        Some(tag)
    } else {
        None
    }
}

// The tag of the list line that part is, if no number of it has a leading zero.
pub fn plain_tag(part: &[u8]) -> Option<u64>
    ensures { result ≡ option_map (λ l. l.tag) (read_plain part.now) }
{
    if part.len() != Line::LENGTH || part[Line::COLUMNS] != NEWLINE {
        return None;
    }
    read_tag(part, 0)
}

// Whether the columns of a list line hold numbers, leading zeros or none. Each column is looked at, so that all are tested at
// once.
fn has_numbers(part: &[u8]) -> bool
    requires { length part.now ≡ line_columns_width }
    ensures { result ≡ columns_by column_digits line_places 32 part.now }
{
    let mut still = true;
    let mut before = BLANK;
    for (c, place) in part.iter().zip(&LINE_PLACES) {
        still = columns::still_digits(still, *place, before, *c);
        before = *c;
    }
    still
}

// The tag of the list line that part is. A tare leaves its first column blank or 0.
pub fn line_tag(part: &[u8]) -> Option<u64>
    ensures { result ≡ option_map (λ l. l.tag) (read_line part.now) }
{
    if part.len() != Line::LENGTH || part[Line::COLUMNS] != NEWLINE {
        return None;
    }
    if !has_numbers(&part[Line::TAG..Line::COLUMNS]) || b'0' < part[Line::TARE] {
        return None;
    }
    let tag = columns::lenient_number(&part[Line::TAG..Line::TARE]);
    if Line::TAG_MOST < tag {
        None
    } else {
        Some(tag)
    }
}

// The list line that part is.
pub fn read_line(part: &[u8]) -> Option<Line>
    ensures { result ≡ read_line part.now }
{
    line_tag(part)?;
    Some(spelled_line(&part[Line::TAG..Line::COLUMNS]))
}

// A line without its newline.
pub fn write_columns(part: &mut [u8], l: Line)
    requires { length part.old ≡ line_columns_width }
    ensures { part.new ≡ line_columns l }
{
    columns::print_blanks(part);
    columns::print_at(part, Line::TAG, Line::TARE, l.tag);
    columns::print_at(part, Line::TARE, Line::CODE, l.tare);
    columns::print_at(part, Line::CODE, Line::WEIGHING, l.code);
    columns::print_at(part, Line::WEIGHING, Line::COLUMNS, l.weighing);
}

pub fn write_line(part: &mut [u8], l: Line)
    requires { length part.old ≡ line_length }
    ensures { part.new ≡ print_line l }
{
    write_columns(&mut part[0..Line::COLUMNS], l);
    part[Line::COLUMNS] = NEWLINE;
}

// The columns of a list line with leading zeros made blank. Where `plain` says so, it has none.
pub fn put_columns(part: &mut [u8], line: &[u8], plain: bool)
    requires { (length part.old ≡ line_columns_width) × ((length line.now ≡ line_columns_width)
        × (plain ≡ true → blanked_columns line.now ≡ line.now)) }
    ensures { part.new ≡ blanked_columns line.now }
{
    columns::copy_columns(part, line);
    if plain {
        return;
    }
    columns::blank_zeros(&mut part[Line::TAG..Line::TARE]);
    columns::blank_zeros(&mut part[Line::TARE..Line::CODE]);
    columns::blank_zeros(&mut part[Line::CODE..Line::WEIGHING]);
    columns::blank_zeros(&mut part[Line::WEIGHING..Line::COLUMNS]);
}

// A line's columns from a place of a text on, and a newline, to a place of out.
fn copy_line(out: &mut [u8], to: usize, text: &[u8], from: usize)
    requires { (to + line_length ≤ length out.old) × (from + line_columns_width ≤ length text.now) }
    ensures { out.new ≡ put out.old to (ended_line (drop from text.now)) }
{
    let end = to + Line::COLUMNS;
    let behind = from + Line::COLUMNS;
    columns::copy_columns(&mut out[to..end], &text[from..behind]);
    out[end] = NEWLINE;
}

// Lines that stand side by side from a place of a text on, count of them, as list lines from a place of out on.
pub fn copy_lines(out: &mut [u8], to: usize, text: &[u8], from: usize, count: usize)
    requires { (to + line_length * count ≤ length out.old) × (from + line_columns_width * count ≤ length text.now) }
    ensures { out.new ≡ put out.old to (ended_lines count (drop from text.now)) }
{
    for i in 0..count {
        copy_line(out, to + Line::LENGTH * i, text, from + Line::COLUMNS * i);
    }
}

// The number that the columns of a text from a place on spell, a blank counting as 0.
fn spelled_columns(text: &[u8], at: usize, width: usize) -> u64
    requires { (at + width ≤ length text.now) × (width ≤ tag_width) }
    ensures { result ≡ value 0 (take width (drop at text.now)) }
{
    let mut x = 0;
    for c in &text[at..at + width] {
        x = x * columns::ten_to(1) + u64::from(c.saturating_sub(b'0'));
    }
    x
}

// The number that a tag's columns from a place of a text on spell. Compiled once: the header promises how much code there is.
#[inline(never)]
pub fn spelled_tag(text: &[u8], at: usize) -> u64
    requires { at + tag_width ≤ length text.now }
    ensures { result ≡ value 0 (take tag_width (drop at text.now)) }
{
    spelled_columns(text, at, Line::TAG_WIDTH)
}

// The line that a line's columns spell.
pub fn spelled_line(part: &[u8]) -> Line
    requires { length part.now ≡ line_columns_width }
    ensures { result ≡ spelled_line part.now }
{
    Line {
        tag: spelled_columns(part, Line::TAG, Line::TAG_WIDTH),
        tare: spelled_columns(part, Line::TARE, Line::TARE_WIDTH),
        code: spelled_columns(part, Line::CODE, Line::CODE_WIDTH),
        weighing: spelled_columns(part, Line::WEIGHING, Line::WEIGHING_WIDTH),
    }
}
