// Tree, layouts and cycle: document 01, "The tree", with document 02, C-11 to C-14 and C-17; judging, sizing, building, changing
// a list, reading back, and the waits of a list's tags.
//
// A list goes through these files in this order; each answers to the definition named, under specs/, and its laws are in the
// folder named, under proofs/.
//
//   judge      a list and settings judged, and the figures of their cycle: Judging.judge
//   conditions conditions 1 to 7, in order, and whether the list is known to have no leading zeros: Building.conditions. Laws:
//              Building. For each condition its function, its row and its law, as 5, copies: copies_fit, Building.copies_out,
//              refused_5
//   measures   data buckets, levels, subtrees, paths and N by arithmetic: Tree.plan, Cycle.cycle_size. Laws: Trees, Sequences
//   size       a cycle's dimensions from a number of lines, before there is a list: Size.size. Laws: Building
//   segments   the segments of a cycle and where each stands: Layouts.slots. Laws: Segmenting
//   places     where a bucket and a line stand: Layouts.slots, Cycle.first_place. Laws: Reach
//   index      what stands in an index bucket: Cycle.pairs, Cycle.entries, as bytes. Laws: Buckets, Reach
//   build      the image, segment by segment: Building.build, Cycle.image. Laws: Building
//   changes    a line that arrives in a list or is taken out of it, and the changed list's image: Changes.arrive, Changes.take_out.
//              Laws: Changing
//   waits      what each tag of a list adds to the mean wait, by the places of its buckets: Waits.waits. Laws: Waiting
//
// and an image goes back by
//
//   read_back  an image held against the cycle of its own lines, and their list: ReadingBack.read_back. Laws: ReadingBack
//
// Figures, Cycle, Accepted, Segment, Part and Source are what these files hand on; specs/Inner says what each stands for, and what is
// known of one are its ghost fields. Bounds of a function's own numbers are its clauses, since a struct of them would be made anew at
// each call; so is the room of a buffer, since a struct that held it would have to say at each write that the rest of it stays.
#![tactic(auto)]

ghost use Rattle.std.specs.Prelude.{◌≡◌, ◌≤◌, true, List};
ghost use Rattle.buckets.specs.declared.Line.{Line};
ghost use Rattle.buckets.specs.Inner.Columns.{PlainList};
ghost use Rattle.cycle.specs.Refusals.{number, refusal};
ghost use Rattle.cycle.specs.Tree.{layout_number};
ghost use Rattle.cycle.specs.Inner.HeldOnce.{held};
ghost use Rattle.cycle.specs.Inner.Held.{plan_of, Ready, AcceptedList, HoldsSegment};

pub mod build;
pub mod changes;
mod conditions;
mod index;
pub mod judge;
mod measures;
mod places;
pub mod read_back;
mod segments;
pub mod size;
pub mod waits;

use buckets::{Bucket, Line};
use std::error::Error;
use std::fmt;

// The bytes of a list line and of a bucket, counted as the figures are.
const LINE: u64 = Line::LENGTH as u64;

const BUCKET: u64 = Bucket::LENGTH as u64;

// Why a call is refused. The discriminants are the numbers of the table of refusals.
#[derive(Clone, Copy, Debug, PartialEq, Eq)]
pub enum Reason {
    SettingsOut = 1,
    LengthOut = 2,
    LineMisprinted = 3,
    TagFalls = 4,
    CopiesOut = 5,
    CycleTooLong = 6,
    BufferTooShort = 7,
    BucketMisprinted = 8,
    NotAwaited = 9,
    PastNextCycle = 10,
    ImageLengthOut = 11,
    TuneInOut = 12,
    NoListBuilds = 13,
    ListenerEnded = 14,
    NotInList = 15,
    NoPlace = 16,
    NoLine = 17,
}

// A refusal: why, and the place where, 0 where none is named.
#[derive(Clone, Copy, Debug, PartialEq, Eq)]
pub struct Refusal {
    pub reason: Reason,
    pub place: u64,
}

impl Refusal {
    // Its number in the table of refusals.
    pub fn number(self) -> u64
        ensures { result ≡ number self.reason }
    {
        self.reason as u64
    }
}

// Without a place.
impl From<Reason> for Refusal {
    ghost from_gives = { λ reason r. r ≡ refusal reason 0 };

    fn from(reason: Reason) -> Refusal {
        Refusal { reason, place: 0 }
    }
}

impl fmt::Display for Refusal {
    fn fmt<W: fmt::Write>(&self, f: &mut fmt::Formatter<W>) -> fmt::Result {
        write!(f, "refused by {}, place {}", self.number(), self.place)
    }
}

impl Error for Refusal {}

// Settings: n entries for an index bucket, p lines for a data bucket, the layout, and copies.
#[derive(Clone, Copy, Debug, PartialEq, Eq)]
pub struct Settings {
    pub n: u64,
    pub p: u64,
    pub layout: u64,
    pub copies: u64,
}

// The dimensions of a cycle: index levels, data buckets, N, the bytes of its image, and the most buckets that a display hears.
#[derive(Clone, Copy)]
pub struct Dimensions {
    pub k: u64,
    pub d: u64,
    pub n: u64,
    pub bytes: u64,
    pub heard: u64,
}

// The number of lines of a changed list, its data buckets, index levels and N.
#[derive(Clone, Copy)]
pub struct Counts {
    pub lines: u64,
    pub d: u64,
    pub k: u64,
    pub n: u64,
}

// N, the number of different tags of a list, and their waits over all tune-ins, added.
#[derive(Clone, Copy)]
pub struct WaitSum {
    pub n: u64,
    pub tags: u64,
    pub sum: u64,
}

// The layouts: 1 sends each segment's tree with the path to it, 2 the whole tree before each part of the data buckets.
#[derive(Clone, Copy, Debug, PartialEq, Eq)]
pub enum Layout {
    Distributed = 1,
    OneM = 2,
}

impl Layout {
    // The layout with a number that is within its range: the one place in which the number becomes a layout.
    fn of(number: u64) -> Layout
        requires { (1 ≤ number) × (number ≤ 2) }
        ensures { layout_number result ≡ number }
    {
        if number == 1 {
            Layout::Distributed
        } else {
            Layout::OneM
        }
    }
}

// Settings, a list's number of lines, and what follows from them. A height counts levels above the data buckets.
#[derive(Clone, Copy)]
pub struct Figures {
    pub n: u64,
    pub p: u64,
    pub layout: Layout,
    pub copies: u64,
    pub lines: u64,
    // data buckets
    pub d: u64,
    // index levels
    pub k: u64,
    // N
    pub size: u64,
    // the data buckets under a full tree of a segment
    pub span: u64,
    // the index buckets of a full tree of a segment
    pub full: u64,
    // the index buckets of the last segment's tree
    pub last: u64,
}

// The figures of a cycle that can be sent.
#[derive(Clone, Copy)]
struct Cycle {
    f: Figures,
    ghost ready: { Ready f },
}

// A list that can be sent, with the figures of its cycle; and whether it is known to have no leading zeros: no Option, since the list is
// there either way, and so in `Sender` and `Printer`, which have it from here.
#[derive(Clone, Copy)]
struct Accepted<'a> {
    list: &'a [u8],
    plain: bool,
    cycle: Cycle,
    ghost sending: { AcceptedList cycle.f list.now },
    ghost no_zeros: { plain ≡ true → PlainList list.now },
}

// A segment of the cycle: its path, its tree and its data buckets, and where they stand.
#[derive(Clone, Copy)]
pub struct Segment {
    // which one, from 0: in layout 1 also the place of its bucket B on level r + 1
    pub number: u64,
    // its first position
    pub start: u64,
    // the level on which its path begins; one past the copies where it has none
    pub top: u64,
    // the position of its tree, and the tree's height and place
    pub tree_at: u64,
    pub height: usize,
    pub root: u64,
    // the position of its data buckets, which are those from first up to but without last
    pub data_at: u64,
    pub first: u64,
    pub last: u64,
    // the position behind it
    pub end: u64,
}

// A segment with the cycle that it is one of. The cycle is lent: a part that held it would be too long to be copied without memcpy.
#[derive(Clone, Copy)]
struct Part<'a> {
    cycle: &'a Cycle,
    s: Segment,
    ghost placed: { (ls : List Line) → HoldsSegment (plan_of cycle.now.f ls) s } by { Prim.hlevel held },
}

// Where lines stand: in a list, or in the data buckets of an image.
#[derive(Clone, Copy)]
pub enum Source {
    List,
    Image,
}
