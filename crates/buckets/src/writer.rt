// A bucket, written: its bytes are blanked once, and its fields are written over blanks. `plain` is told of a whole list, and stands
// beside the part of it that is lent: a struct of both would be made anew for each bucket, line and tag that is cut out of it.
ghost use Rattle.std.specs.Prelude.{◌≡◌, true, [], ◌∷◌, ◌++◌, ◌+◌, ◌*◌, ◌%◌, ◌≤◌, ◌<◌, length, take, drop};
ghost use Rattle.std.specs.Prelude.{None};
ghost use Rattle.columns.specs.Lists.{joined, padded, put};
ghost use Rattle.columns.specs.PrintedNumbers.{print, blanks, blank_zeros};
ghost use Rattle.buckets.specs.Lengths.{newline, tag_width, place_width, line_length, head_width, entry_width, lines_width, bucket_end, bucket_length};
ghost use Rattle.buckets.specs.Lengths.{pairs_most, entries_most, bucket_lines_most, pairs_width};
ghost use Rattle.buckets.specs.ListLine.{line_columns, cut_lines, list_lines, misprint_from};
ghost use Rattle.buckets.specs.Bucket.{head_columns, print_pair, print_entry, print_bucket, data_body};
ghost use Rattle.buckets.specs.Inner.Columns.{PlainList};
ghost use Rattle.buckets.specs.Inner.Held.{bucket_with, index_front, entry_start, EntryBlank};

use super::lines::put_columns;
use super::{Bucket, Head, Line, NEWLINE, Pair};
use columns;

// The columns before the pairs or the lines.
fn write_head(part: &mut [u8], head: Head, follow_on: u64, letter: u8, pairs: u64, items: u64)
    requires { part.old ≡ blanks head_width }
    ensures { part.new ≡
        head_columns head.position head.to_cycle head.to_segment follow_on letter pairs items }
{
    columns::print_at(part, Bucket::POSITION, Bucket::TO_CYCLE, head.position);
    columns::print_at(part, Bucket::TO_CYCLE, Bucket::TO_SEGMENT, head.to_cycle);
    columns::print_at(part, Bucket::TO_SEGMENT, Bucket::FOLLOW_ON, head.to_segment);
    columns::print_at(part, Bucket::FOLLOW_ON, Bucket::LETTER, follow_on);
    part[Bucket::LETTER] = letter;
    columns::print_at(part, Bucket::PAIR_COUNT, Bucket::ITEM_COUNT, pairs);
    columns::print_at(part, Bucket::ITEM_COUNT, Bucket::PAIRS, items);
}

// A control pair over blank columns.
fn write_pair(part: &mut [u8], pair: Pair)
    requires { part.old ≡ blanks entry_width }
    ensures { part.new ≡ print_pair pair }
{
    if let Some(tag) = pair.tag {
        columns::print_at(part, Line::TAG, Bucket::DISTANCE, tag);
    }
    columns::print_at(part, Bucket::DISTANCE, Bucket::ENTRY, pair.distance);
}

// Control pairs over blank columns.
fn write_pairs(part: &mut [u8], pairs: &[Pair])
    requires { (part.old ≡ blanks pairs_width) × (length pairs.now ≤ pairs_most) }
    ensures { part.new ≡ padded pairs_width (joined print_pair pairs.now) }
{
    for (i, pair) in pairs.iter().enumerate() {
        let at = i * Bucket::ENTRY;
        write_pair(&mut part[at..at + Bucket::ENTRY], *pair);
    }
}

// An index bucket whose entries, `count` of them, are still blank.
pub fn start_index(part: &mut [u8], head: Head, pairs: &[Pair], count: usize)
    requires { (length part.old ≡ bucket_length) × (length pairs.now ≤ pairs_most) }
    ensures { part.new ≡ padded bucket_end (index_front head pairs.now count) ++ newline ∷ [] }
{
    columns::print_blanks(&mut part[0..Bucket::LENGTH]);
    write_head(
        &mut part[0..Bucket::PAIRS],
        head,
        0,
        Bucket::INDEX,
        pairs.len() as u64,
        count as u64,
    );
    write_pairs(&mut part[Bucket::PAIRS..Bucket::ENTRIES], pairs);
    part[Bucket::END] = NEWLINE;
}

// A tag's columns with leading zeros made blank. Where `plain` says so, it has none.
fn put_tag(part: &mut [u8], tag: &[u8], plain: bool)
    requires { (length part.old ≡ tag_width) × ((length tag.now ≡ tag_width)
        × (plain ≡ true → blank_zeros tag.now ≡ tag.now)) }
    ensures { part.new ≡ blank_zeros tag.now }
{
    if plain {
        columns::copy_columns(part, tag);
        return;
    }
    columns::copy_blanked(part, tag);
}

// Entry i of an index bucket, the columns of its distance being blank: its tag copied from a place in a text, with leading zeros
// made blank, and its distance. Where `plain` says so, the tag has none.
pub fn put_entry(part: &mut [u8], i: usize, text: &[u8], from: usize, plain: bool, distance: u64)
    requires { (length part.old ≡ bucket_length) × ((i < entries_most) × ((from + tag_width ≤ length text.now)
        × (EntryBlank part.old i
        × (plain ≡ true → blank_zeros (take tag_width (drop from text.now)) ≡ take tag_width (drop from text.now))))) }
    ensures { part.new ≡ put part.old (entry_start i) (blank_zeros (take tag_width (drop from text.now)) ++ print place_width distance) }
{
    let at = Bucket::ENTRIES + i * Bucket::ENTRY;
    let to = at + Bucket::DISTANCE;
    put_tag(
        &mut part[at..to],
        &text[from..from + Line::TAG_WIDTH],
        plain,
    );
    columns::print_at(part, to, at + Bucket::ENTRY, distance);
}

// List lines without their newlines and leading zeros; where `plain` says so, they have none.
fn write_lines(part: &mut [u8], lines: &[u8], plain: bool)
    requires { (part.old ≡ blanks lines_width) × ((length lines.now % line_length ≡ 0)
        × ((length lines.now ≤ bucket_lines_most * line_length) × ((misprint_from 0 (cut_lines lines.now) ≡ None)
        × (plain ≡ true → PlainList lines.now)))) }
    ensures { part.new ≡ padded lines_width (joined line_columns (list_lines lines.now)) }
{
    for i in 0..lines.len() / Line::LENGTH {
        let from = i * Line::LENGTH;
        let at = i * Line::COLUMNS;
        put_columns(
            &mut part[at..at + Line::COLUMNS],
            &lines[from..from + Line::COLUMNS],
            plain,
        );
    }
}

// A data bucket with the lines of a part of a list; where `plain` says so, no number of them has a leading zero.
pub fn write_data(part: &mut [u8], head: Head, follow_on: u64, lines: &[u8], plain: bool)
    requires { (length part.old ≡ bucket_length) × ((length lines.now % line_length ≡ 0)
        × ((length lines.now ≤ bucket_lines_most * line_length) × ((misprint_from 0 (cut_lines lines.now) ≡ None)
        × (plain ≡ true → PlainList lines.now)))) }
    ensures { part.new ≡ print_bucket (bucket_with head (data_body follow_on (list_lines lines.now))) }
{
    columns::print_blanks(part);
    write_head(
        &mut part[0..Bucket::PAIRS],
        head,
        follow_on,
        Bucket::DATA,
        0,
        (lines.len() / Line::LENGTH) as u64,
    );
    write_lines(&mut part[Bucket::LINES..Bucket::END], lines, plain);
    part[Bucket::END] = NEWLINE;
}
