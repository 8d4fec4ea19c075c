// List lines and buckets: document 01, "A list line" and "A bucket".
#![tactic(auto)]

ghost use Rattle.std.specs.Prelude.{◌≡◌, take};
ghost use Rattle.buckets.specs.Inner.Held.{no_items};

use arrayvec::ArrayVec;
use std::fmt;

pub mod bucket_line;
mod fields;
pub mod lines;
pub mod reader;
pub mod writer;

// A line's four numbers: tag, tare in kg, material code, weighing number.
#[derive(Clone, Copy, PartialEq, Eq)]
pub struct Line {
    pub tag: u64,
    pub tare: u64,
    pub code: u64,
    pub weighing: u64,
}

// The columns of a list line: how many its tag, tare, code and weighing number have, where each starts, where its columns end,
// and how many bytes it has; the largest number of each, and the most lines of a list.
impl Line {
    pub const TAG_WIDTH: usize = 10;

    pub const TARE_WIDTH: usize = 6;

    pub const CODE_WIDTH: usize = 4;

    pub const WEIGHING_WIDTH: usize = 6;

    pub const TAG: usize = 0;

    pub const TARE: usize = Line::TAG + Line::TAG_WIDTH;

    pub const CODE: usize = Line::TARE + Line::TARE_WIDTH;

    pub const WEIGHING: usize = Line::CODE + Line::CODE_WIDTH;

    pub const COLUMNS: usize = Line::WEIGHING + Line::WEIGHING_WIDTH;

    // those behind the tag
    pub const REST: usize = Line::COLUMNS - Line::TARE;

    pub const LENGTH: usize = Line::COLUMNS + 1;

    pub const TAG_MOST: u64 = 4294967295;

    pub const TARE_MOST: u64 = 99999;

    pub const CODE_MOST: u64 = 9999;

    pub const WEIGHING_MOST: u64 = 999999;

    pub const LINES_MOST: u64 = 40000;
}

// A bucket's columns: how many a position or distance and a count have, where the fields of its head start, where control pairs
// and lines start, where entries start, where its newline stands, and how many bytes it has; the most pairs, entries and lines
// of a bucket, and the most buckets of a cycle.
#[derive(Clone, Copy)]
pub struct Bucket;

impl Bucket {
    pub const PLACE_WIDTH: usize = 6;

    pub const COUNT_WIDTH: usize = 2;

    pub const POSITION: usize = 0;

    pub const TO_CYCLE: usize = Bucket::POSITION + Bucket::PLACE_WIDTH;

    pub const TO_SEGMENT: usize = Bucket::TO_CYCLE + Bucket::PLACE_WIDTH;

    pub const FOLLOW_ON: usize = Bucket::TO_SEGMENT + Bucket::PLACE_WIDTH;

    pub const LETTER: usize = Bucket::FOLLOW_ON + Bucket::PLACE_WIDTH;

    pub const PAIR_COUNT: usize = Bucket::LETTER + 1;

    pub const ITEM_COUNT: usize = Bucket::PAIR_COUNT + Bucket::COUNT_WIDTH;

    pub const PAIRS: usize = Bucket::ITEM_COUNT + Bucket::COUNT_WIDTH;

    // the last digit of the number of entries or of lines
    pub const ITEM_DIGIT: usize = Bucket::PAIRS - 1;

    pub const LINES: usize = Bucket::PAIRS;

    // a control pair or an entry: where its distance starts, and how many columns it has
    pub const DISTANCE: usize = Line::TAG + Line::TAG_WIDTH;

    pub const ENTRY: usize = Bucket::DISTANCE + Bucket::PLACE_WIDTH;

    pub const PAIRS_MOST: usize = 4;

    pub const ENTRIES_MOST: usize = 8;

    pub const LINES_MOST: usize = 8;

    pub const ENTRIES: usize = Bucket::PAIRS + Bucket::PAIRS_MOST * Bucket::ENTRY;

    pub const END: usize = 239;

    pub const LENGTH: usize = Bucket::END + 1;

    pub const BUCKETS_MOST: u64 = 99999;

    // the letters of the two kinds
    pub const INDEX: u8 = 73;

    pub const DATA: u8 = 68;
}

// The bytes of an unused column and of the end of a line or bucket.
const BLANK: u8 = 32;

pub const NEWLINE: u8 = 10;

// The first three numbers of a bucket; a distance is counted from it.
#[derive(Clone, Copy, PartialEq, Eq)]
pub struct Head {
    pub position: u64,
    pub to_cycle: u64,
    pub to_segment: u64,
}

// A control pair: its tag, none if blank, and its distance.
#[derive(Clone, Copy, PartialEq, Eq)]
pub struct Pair {
    pub tag: Option<u64>,
    pub distance: u64,
}

// The least pair, which fills a vector's unused places: were it all zeros, the compiler would clear `Items` by `memset`, and the
// library needs nothing of the C library but `memcpy` at most.
impl Default for Pair {
    fn default() -> Pair {
        Pair {
            tag: None,
            distance: 1,
        }
    }
}

// An index entry.
#[derive(Clone, Copy, PartialEq, Eq, Default)]
pub struct Entry {
    pub tag: u64,
    pub distance: u64,
}

// An index bucket's control pairs: `count` of them, and the least pair in the places behind them.
#[derive(Clone, Copy)]
pub struct ControlPairs {
    pub items: [Pair; Bucket::PAIRS_MOST],
    pub count: usize,
}

impl ControlPairs {
    // The pairs themselves.
    pub fn as_slice(&self) -> &[Pair]
        ensures { result.now ≡ take self.now.count self.now.items }
    {
        &self.items[..self.count.min(Bucket::PAIRS_MOST)]
    }
}

// An index bucket's entries: `count` of them, and zeros in the places behind them.
#[derive(Clone, Copy)]
pub struct IndexEntries {
    pub items: [Entry; Bucket::ENTRIES_MOST],
    pub count: usize,
}

impl IndexEntries {
    // The entries themselves.
    pub fn as_slice(&self) -> &[Entry]
        ensures { result.now ≡ take self.now.count self.now.items }
    {
        &self.items[..self.count.min(Bucket::ENTRIES_MOST)]
    }
}

// The tags of a data bucket's lines: `count` of them, and zeros in the places behind them.
#[derive(Clone, Copy)]
pub struct LineTags {
    pub items: [u64; Bucket::LINES_MOST],
    pub count: usize,
}

impl LineTags {
    // The tags themselves.
    pub fn as_slice(&self) -> &[u64]
        ensures { result.now ≡ take self.now.count self.now.items }
    {
        &self.items[..self.count.min(Bucket::LINES_MOST)]
    }
}

// What a bucket holds behind its head: an index bucket its control pairs and entries, a data bucket its follow-on and lines, of
// which the tags alone are held, since reading all numbers of each line would cost too much.
#[derive(Clone, Copy)]
pub enum Contents {
    Index {
        pairs: ControlPairs,
        entries: IndexEntries,
    },
    Data {
        follow_on: u64,
        tags: LineTags,
    },
}

// A bucket that was read. It is `Copy`, which a vector is not, so its items stand in arrays.
#[derive(Clone, Copy)]
pub struct Reading {
    pub head: Head,
    pub contents: Contents,
}

// What is read of a bucket behind its head, save its follow-on: an index bucket's control pairs and entries, or the tags of a data
// bucket's lines.
#[derive(Drop)]
pub struct Items {
    pub pairs: ArrayVec<Pair, { Bucket::PAIRS_MOST }>,
    pub entries: ArrayVec<Entry, { Bucket::ENTRIES_MOST }>,
    pub tags: ArrayVec<u64, { Bucket::LINES_MOST }>,
}

impl Items {
    // No item.
    pub fn new() -> Items
        ensures { result ≡ no_items }
    {
        Items {
            pairs: ArrayVec::new(),
            entries: ArrayVec::new(),
            tags: ArrayVec::new(),
        }
    }
}

// The kind of a bucket, a data bucket's with its follow-on.
#[derive(Clone, Copy)]
pub enum Kind {
    Index,
    Data { follow_on: u64 },
}

// A bucket that was read into items lent: all but these.
#[derive(Clone, Copy)]
pub struct Frame {
    pub head: Head,
    pub kind: Kind,
}

// The refusal of a bucket that is not 240 bytes long, or misprinted.
#[derive(Clone, Copy, PartialEq, Eq)]
pub struct Misprinted;

impl fmt::Display for Misprinted {
    fn fmt<W: fmt::Write>(&self, f: &mut fmt::Formatter<W>) -> fmt::Result {
        f.write_str("bucket not 240 bytes, or misprinted")
    }
}
