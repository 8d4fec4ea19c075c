// A bucket, read: field by field, each column once. That the items lent are empty stays a clause, since each function that takes them
// fills them.
ghost use Rattle.std.specs.Prelude.{◌≡◌, ℕ, List, [], ◌∷◌, ◌++◌, ◌*◌, ◌≤◌, ◌<◌, length, get_or, Option, Some};
ghost use Rattle.std.specs.Option.{option_map};
ghost use Rattle.buckets.specs.Lengths.{entry_width, line_columns_width, bucket_length, letter_column};
ghost use Rattle.buckets.specs.Lengths.{pairs_most, entries_most, bucket_lines_most};
ghost use Rattle.buckets.specs.Bucket.{read_bucket};
ghost use Rattle.buckets.specs.Inner.Held.{no_items, reading_of, frame, reading_with};
ghost use Rattle.buckets.specs.Inner.Arrays.{pairs_in, entries_in, tags_in, in_arrays, held_reading};
ghost use Rattle.buckets.specs.Inner.Columns.{read_entry, read_blank_pair, read_printed_pair, read_pair, read_line_tag, read_items, read_head, read_index, read_data, read_by_letter};

use super::fields::number_within;
use super::{
    Bucket, Contents, ControlPairs, Entry, Frame, Head, IndexEntries, Items, Kind, Line, LineTags,
    NEWLINE, Pair, Reading, lines,
};
use arrayvec::ArrayVec;
use columns;

// The entry in part, its tag at least low, its distance at most n.
#[tactic(auto, unfolding(crate::specs::Inner::Columns::read_entry, crate::specs::Bucket::columns))]
fn read_entry(part: &[u8], low: u64, n: u64) -> Option<Entry>
    requires { length part.now ≡ entry_width }
    ensures { result ≡ read_entry n low part.now }
{
    let tag = number_within(&part[Line::TAG..Bucket::DISTANCE], low, Line::TAG_MOST)?;
    let distance = number_within(&part[Bucket::DISTANCE..Bucket::ENTRY], 1, n)?;
    Some(Entry { tag, distance })
}

// The pair in part, whose tag is blank.
#[tactic(auto, unfolding(crate::specs::Inner::Columns::read_blank_pair, crate::specs::Bucket::columns))]
fn read_blank_pair(part: &[u8], n: u64) -> Option<Pair>
    requires { length part.now ≡ entry_width }
    ensures { result ≡ read_blank_pair n part.now }
{
    let distance = number_within(&part[Bucket::DISTANCE..Bucket::ENTRY], 1, n)?;
    Some(Pair {
        tag: None,
        distance,
    })
}

// The pair in part, whose tag is printed.
#[tactic(auto, unfolding(crate::specs::Inner::Columns::read_printed_pair))]
fn read_printed_pair(part: &[u8], n: u64) -> Option<Pair>
    requires { length part.now ≡ entry_width }
    ensures { result ≡ read_printed_pair n part.now }
{
    let entry = read_entry(part, 0, n)?;
    Some(Pair {
        tag: Some(entry.tag),
        distance: entry.distance,
    })
}

// The pair in part, with 0 or 1 before it: only the first one's tag may be blank.
#[tactic(auto, unfolding(crate::specs::Inner::Columns::read_pair, crate::specs::Bucket::columns))]
fn read_pair(part: &[u8], before: u64, n: u64) -> Option<Pair>
    requires { length part.now ≡ entry_width }
    ensures { result ≡ read_pair n before part.now }
{
    if before == 0 && columns::all_blank(&part[Line::TAG..Bucket::DISTANCE]) {
        read_blank_pair(part, n)
    } else {
        read_printed_pair(part, n)
    }
}

// A vector of items of one kind that are read of a bucket: control pairs, entries, or lines, of which the tags are held.
trait ItemVec {
    type Item;

    // the columns of one
    const WIDTH: usize;

    ghost WIDTH: { ℕ };

    ghost MOST: { ℕ };

    ghost items: { Self → List Self.Item };

    // one with a distance of at most n, by what those before it leave
    ghost reads: { ℕ → ℕ → List ℕ → Option Self.Item };

    ghost leaves: { Self.Item → ℕ };

    // Takes the item in part: what it leaves for the one behind it.
    fn take(&mut self, part: &[u8], before: u64, n: u64) -> Option<u64>
        requires { (length part.now ≡ WIDTH) × (length (items self.old) < MOST) }
        ensures left { result ≡ option_map leaves (reads n before part.now) }
        ensures held { (x : Self.Item) → Some x ≡ reads n before part.now → items self.new ≡ items self.old ++ x ∷ [] };
}

impl ItemVec for ArrayVec<Pair, { Bucket::PAIRS_MOST }> {
    type Item = Pair;

    const WIDTH: usize = Bucket::ENTRY;

    ghost WIDTH = { entry_width };

    ghost MOST = { pairs_most };

    ghost items = { λ v. v.items };

    ghost reads = { read_pair };

    ghost leaves = { λ p. 1 };

    fn take(&mut self, part: &[u8], before: u64, n: u64) -> Option<u64> {
        let pair = read_pair(part, before, n)?;
        self.push(pair);
        Some(1)
    }
}

impl ItemVec for ArrayVec<Entry, { Bucket::ENTRIES_MOST }> {
    type Item = Entry;

    const WIDTH: usize = Bucket::ENTRY;

    ghost WIDTH = { entry_width };

    ghost MOST = { entries_most };

    ghost items = { λ v. v.items };

    ghost reads = { read_entry };

    ghost leaves = { λ e. e.tag };

    fn take(&mut self, part: &[u8], before: u64, n: u64) -> Option<u64> {
        let entry = read_entry(part, before, n)?;
        self.push(entry);
        Some(entry.tag)
    }
}

impl ItemVec for ArrayVec<u64, { Bucket::LINES_MOST }> {
    type Item = u64;

    const WIDTH: usize = Line::COLUMNS;

    ghost WIDTH = { line_columns_width };

    ghost MOST = { bucket_lines_most };

    ghost items = { λ v. v.items };

    ghost reads = { λ n. read_line_tag };

    ghost leaves = { λ t. t };

    fn take(&mut self, part: &[u8], before: u64, _n: u64) -> Option<u64> {
        let tag = lines::read_tag(part, before)?;
        self.push(tag);
        Some(tag)
    }
}

// The items in part, count of them, each distance at most n, taken into `items`; the columns behind them are blank.
fn read_items<V: ItemVec>(part: &[u8], count: usize, n: u64, items: &mut V) -> Option<()>
    requires fits { (count * V.WIDTH ≤ length part.now) × (count ≤ V.MOST) }
    requires empty { V.items items.old ≡ [] }
    ensures { option_map (λ _. V.items items.new) result ≡
        read_items (V.reads n) (λ m x. V.leaves x) V.WIDTH count part.now }
{
    let used = count * V::WIDTH;
    if !columns::all_blank(&part[used..]) {
        return None;
    }
    let mut before = 0;
    for i in 0..count {
        let at = i * V::WIDTH;
        before = items.take(&part[at..at + V::WIDTH], before, n)?;
    }
    Some(())
}

// The first three numbers of a bucket.
#[tactic(auto, unfolding(crate::specs::Inner::Columns::read_head, crate::specs::Bucket::columns))]
fn read_head(part: &[u8]) -> Option<Head>
    requires { length part.now ≡ bucket_length }
    ensures { result ≡ read_head part.now }
{
    let position = number_within(
        &part[Bucket::POSITION..Bucket::TO_CYCLE],
        0,
        Bucket::BUCKETS_MOST,
    )?;
    let to_cycle = number_within(
        &part[Bucket::TO_CYCLE..Bucket::TO_SEGMENT],
        1,
        Bucket::BUCKETS_MOST - position,
    )?;
    let to_segment = number_within(&part[Bucket::TO_SEGMENT..Bucket::FOLLOW_ON], 1, to_cycle)?;
    Some(Head {
        position,
        to_cycle,
        to_segment,
    })
}

// The index bucket that part is, behind its head; its control pairs and entries are put into `items`.
#[tactic(auto, unfolding(crate::specs::Inner::Columns::read_index, crate::specs::Bucket::columns))]
fn read_index(part: &[u8], head: Head, items: &mut Items) -> Option<Kind>
    requires long { length part.now ≡ bucket_length }
    requires empty { items.old ≡ no_items }
    ensures { option_map (λ kind. reading_with items.new (frame head kind)) result ≡ option_map reading_of (read_index head part.now) }
{
    number_within(&part[Bucket::FOLLOW_ON..Bucket::LETTER], 0, 0)?;
    let pair_count = number_within(
        &part[Bucket::PAIR_COUNT..Bucket::ITEM_COUNT],
        0,
        Bucket::PAIRS_MOST as u64,
    )?;
    let entry_count = number_within(
        &part[Bucket::ITEM_COUNT..Bucket::PAIRS],
        0,
        Bucket::ENTRIES_MOST as u64,
    )?;
    read_items(
        &part[Bucket::PAIRS..Bucket::ENTRIES],
        pair_count as usize,
        head.to_cycle,
        &mut items.pairs,
    )?;
    read_items(
        &part[Bucket::ENTRIES..Bucket::END],
        entry_count as usize,
        head.to_cycle,
        &mut items.entries,
    )?;
    Some(Kind::Index)
}

// The data bucket that part is, behind its head; the tags of its lines are put into `items`.
#[tactic(auto, unfolding(crate::specs::Inner::Columns::read_data, crate::specs::Bucket::columns))]
fn read_data(part: &[u8], head: Head, items: &mut Items) -> Option<Kind>
    requires long { length part.now ≡ bucket_length }
    requires ahead { 1 ≤ head.to_cycle }
    requires empty { items.old ≡ no_items }
    ensures { option_map (λ kind. reading_with items.new (frame head kind)) result ≡ option_map reading_of (read_data head part.now) }
{
    let follow_on = number_within(
        &part[Bucket::FOLLOW_ON..Bucket::LETTER],
        0,
        head.to_cycle - 1,
    )?;
    number_within(&part[Bucket::PAIR_COUNT..Bucket::ITEM_COUNT], 0, 0)?;
    let count = number_within(
        &part[Bucket::ITEM_COUNT..Bucket::PAIRS],
        1,
        Bucket::LINES_MOST as u64,
    )?;
    read_items(
        &part[Bucket::LINES..Bucket::END],
        count as usize,
        head.to_cycle,
        &mut items.tags,
    )?;
    Some(Kind::Data { follow_on })
}

// The bucket that part is, behind its head; its items are put into those lent.
#[tactic(auto, unfolding(crate::specs::Inner::Columns::read_by_letter))]
fn read_behind(part: &[u8], head: Head, items: &mut Items) -> Option<Kind>
    requires long { length part.now ≡ bucket_length }
    requires ahead { 1 ≤ head.to_cycle }
    requires empty { items.old ≡ no_items }
    ensures { option_map (λ kind. reading_with items.new (frame head kind)) result ≡
        option_map reading_of (read_by_letter (get_or part.now letter_column 0) head part.now) }
{
    match part[Bucket::LETTER] {
        Bucket::INDEX => read_index(part, head, items),
        Bucket::DATA => read_data(part, head, items),
        _ => None,
    }
}

// The bucket that part is, its items put into those lent, of which there is none; of the lines of a data bucket the tags are held.
// Compiled once, and no item is copied: the header promises how much code there is, and a step has an aim (docs/SPEED.md).
#[inline(never)]
pub fn read_into(part: &[u8], items: &mut Items) -> Option<Frame>
    requires { items.old ≡ no_items }
    ensures { option_map (reading_with items.new) result ≡ option_map reading_of (read_bucket part.now) }
{
    if part.len() != Bucket::LENGTH || part[Bucket::END] != NEWLINE {
        return None;
    }
    let head = read_head(part)?;
    let kind = read_behind(part, head, items)?;
    Some(Frame { head, kind })
}

// Control pairs in an array.
fn pairs_in(pairs: &ArrayVec<Pair, { Bucket::PAIRS_MOST }>) -> ControlPairs
    ensures { result ≡ pairs_in pairs.now.items }
{
    let pairs = pairs.as_slice();
    let mut items = [Pair {
        tag: None,
        distance: 1,
    }; Bucket::PAIRS_MOST];
    items[..pairs.len()].copy_from_slice(pairs);
    ControlPairs {
        items,
        count: pairs.len(),
    }
}

// Entries in an array.
fn entries_in(entries: &ArrayVec<Entry, { Bucket::ENTRIES_MOST }>) -> IndexEntries
    ensures { result ≡ entries_in entries.now.items }
{
    let entries = entries.as_slice();
    let mut items = [Entry {
        tag: 0,
        distance: 0,
    }; Bucket::ENTRIES_MOST];
    items[..entries.len()].copy_from_slice(entries);
    IndexEntries {
        items,
        count: entries.len(),
    }
}

// The tags of lines in an array.
fn tags_in(tags: &ArrayVec<u64, { Bucket::LINES_MOST }>) -> LineTags
    ensures { result ≡ tags_in tags.now.items }
{
    let tags = tags.as_slice();
    let mut items = [0; Bucket::LINES_MOST];
    items[..tags.len()].copy_from_slice(tags);
    LineTags {
        items,
        count: tags.len(),
    }
}

// A frame with its items, as a reading holds them.
fn with_items(frame: Frame, items: &Items) -> Reading
    ensures { result ≡ in_arrays (reading_with items.now frame) }
{
    let contents = match frame.kind {
        Kind::Index => Contents::Index {
            pairs: pairs_in(&items.pairs),
            entries: entries_in(&items.entries),
        },
        Kind::Data { follow_on } => Contents::Data {
            follow_on,
            tags: tags_in(&items.tags),
        },
    };
    Reading {
        head: frame.head,
        contents,
    }
}

// The bucket that part is; of the lines of a data bucket the tags are held.
pub fn read_bucket(part: &[u8]) -> Option<Reading>
    ensures { result ≡ option_map held_reading (read_bucket part.now) }
{
    let mut items = Items::new();
    let frame = read_into(part, &mut items)?;
    Some(with_items(frame, &items))
}
