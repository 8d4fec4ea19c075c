// Changes of a list that lies in a lent buffer: a line arrives, or one is taken out; and the changed list's cycle.
ghost use Rattle.std.specs.Prelude.{◌≡◌, true, ◌+◌, ◌-◌, ◌*◌, ◌/◌, ◌%◌, ◌≤◌, length, take, drop};
ghost use Rattle.std.specs.Prelude.{None};
ghost use Rattle.columns.specs.Lists.{put};
ghost use Rattle.buckets.specs.Lengths.{line_length, lines_most, bucket_length};
ghost use Rattle.buckets.specs.ListLine.{spelled, taken, list_lines};
ghost use Rattle.buckets.specs.Inner.Columns.{read_plain, PlainList};
ghost use Rattle.cycle.specs.Refusals.{first_refusal};
ghost use Rattle.cycle.specs.Changes;
ghost use Rattle.cycle.specs.Changes.{same_numbers, list_in, places_for, line_conditions, given_conditions};
ghost use Rattle.cycle.specs.Inner.Held.{plan_in, written};
ghost use Rattle.cycle.specs.Inner.ListLines.{Told};
ghost use Rattle.cycle.specs.Inner.Changing.{first_from, tag_over, with_line, without_line, counts_held};
ghost use Rattle.cycle.specs.declared.Source.TheVariants as Source;

use super::conditions::{all_rise, first_misprint, judge_lines, judge_room};
use super::measures::{figures_of, settings_fit};
use super::{Accepted, Counts, Cycle, Figures, LINE, Reason, Refusal, Settings};
use buckets::Line;
use buckets::lines::{line_tag, plain_tag, spelled_line, spelled_tag};
use columns::{copy_columns, print_blanks};

// Whether a buffer has place for so many lines. As in the call for C, the list lies at the front of a longer buffer, so that here and
// in the changes its number of lines stands beside it.
#[tactic(auto, unfolding(crate::specs::Changes::places_for))]
fn places_for(buffer: &[u8], lines: u64) -> bool
    requires { lines ≤ lines_most + 1 }
    ensures { result ≡ places_for buffer.now lines }
{
    (LINE * lines) as usize <= buffer.len()
}

// A list and a given line held against 3 and 4: the first that holds, or whether the list is known to have no leading zeros.
fn judge_lines_given(list: &[u8], given: &[u8]) -> Result<bool, Refusal>
    requires { length list.now % line_length ≡ 0 }
    ensures { Told (line_conditions list.now (length list.now / line_length) given.now) list.now result }
{
    if line_tag(given).is_none() {
        let lines = (list.len() / Line::LENGTH) as u64;
        // lines without leading zeros, as most lists have them, are looked at with less work
        if all_rise(list, true) {
            return Err(Refusal {
                reason: Reason::LineMisprinted,
                place: lines,
            });
        }
        let place = first_misprint(list).unwrap_or(lines);
        return Err(Refusal {
            reason: Reason::LineMisprinted,
            place,
        });
    }
    judge_lines(list)
}

// Settings, the list at a buffer's front and a given line held against 1 to 4: the first that holds, or whether the list is known
// to have no leading zeros.
// Compiled once, since the header promises how much code there is.
#[inline(never)]
fn judge_given(buffer: &[u8], lines: u64, given: &[u8], settings: Settings) -> Result<bool, Refusal>
    ensures { Told (given_conditions settings buffer.now lines given.now) (list_in buffer.now lines) result }
{
    if !settings_fit(settings) {
        return Err(Refusal::from(Reason::SettingsOut));
    }
    if Line::LINES_MOST < lines {
        return Err(Refusal::from(Reason::LengthOut));
    }
    if !places_for(buffer, lines) {
        return Err(Refusal::from(Reason::LengthOut));
    }
    if given.len() != Line::LENGTH {
        return Err(Refusal::from(Reason::LengthOut));
    }
    let end = (LINE * lines) as usize;
    judge_lines_given(&buffer[..end], given)
}

// The first line whose tag is greater.
fn first_over(list: &[u8], tag: u64) -> Option<u64>
    ensures { result ≡ first_from (tag_over tag) 0 (list_lines list.now) }
{
    list.chunks_exact(Line::LENGTH)
        .position(|line| tag < spelled_tag(line, 0))
        .map(|i| i as u64)
}

// Whether a list line has these four numbers. No equality of a type: one side stands in columns.
fn has_numbers_of(part: &[u8], line: Line) -> bool
    requires { length part.now ≡ line_length }
    ensures { result ≡ same_numbers line (spelled part.now) }
{
    spelled_tag(part, Line::TAG) == line.tag
        && line == spelled_line(&part[Line::TAG..Line::COLUMNS])
}

// The first line with these four numbers.
fn first_equal(list: &[u8], line: Line) -> Option<u64>
    ensures { result ≡ first_from (same_numbers line) 0 (list_lines list.now) }
{
    list.chunks_exact(Line::LENGTH)
        .position(|part| has_numbers_of(part, line))
        .map(|i| i as u64)
}

// Moves the bytes from at up to end one line on. Byte by byte and compiled apart: towards the end, `copy_within`, and the loop where it
// is compiled into its caller, take `memmove` of the C library, which the library must not need. `close_place` moves towards the front
// and needs none.
#[inline(never)]
fn open_place(list: &mut [u8], at: usize, end: usize)
    requires { (at ≤ end) × (end + line_length ≤ length list.old) }
    ensures { list.new ≡
        put list.old (at + line_length) (take (end - at) (drop at list.old)) }
{
    for i in (at..end).rev() {
        list[i + Line::LENGTH] = list[i];
    }
}

// Moves the bytes behind the line at `at`, up to end, one line back.
fn close_place(list: &mut [u8], at: usize, end: usize)
    requires { (at + line_length ≤ end) × (end ≤ length list.old) }
    ensures { list.new ≡
        put list.old at (take (end - (at + line_length)) (drop (at + line_length) list.old)) }
{
    list.copy_within(at + Line::LENGTH..end, at);
}

// Puts a line into the list that ends at end, in front of the line at `at`. The line is cut at its known length, since a copy of any
// length takes `memmove` of the C library, which the library must not need.
fn put_line(list: &mut [u8], at: usize, end: usize, line: &[u8])
    requires { (at ≤ end) × (end + line_length ≤ length list.old) × (length line.now ≡ line_length) }
    ensures { list.new ≡ with_line list.old at end line.now }
{
    open_place(list, at, end);
    let behind = at + Line::LENGTH;
    copy_columns(&mut list[at..behind], &line[..Line::LENGTH]);
}

// Takes the line at `at` out of the list that ends at end; the last line's place becomes blank.
#[tactic(auto, using(crate::proofs::Changing::Moves::line_out))]
fn remove_line(list: &mut [u8], at: usize, end: usize)
    requires { (at + line_length ≤ end) × (end ≤ length list.old) }
    ensures { list.new ≡ without_line list.old at end }
{
    close_place(list, at, end);
    let last = end - Line::LENGTH;
    print_blanks(&mut list[last..end]);
}

// Whether a list is known to have no leading zeros with one more line. The flag goes from the judged list to the changed one.
fn plain_with(plain: bool, line: &[u8]) -> bool
    ensures { result ≡ true → (plain ≡ true) × (taken (read_plain line.now) ≡ true) }
{
    plain && plain_tag(line).is_some()
}

// What figures say of a changed list.
fn counts_of(f: Figures) -> Counts
    ensures { result ≡ counts_held f }
{
    Counts {
        lines: f.lines,
        d: f.d,
        k: f.k,
        n: f.size,
    }
}

// Writes the cycle of a changed list. Compiled once, as all that a call does once is: the header promises how much code there is.
#[inline(never)]
fn send(accepted: &Accepted<'_>, out: &mut [u8]) -> Counts
    requires { bucket_length * accepted.now.cycle.f.size ≤ length out.old }
    ensures { (result ≡ counts_held accepted.now.cycle.f) ×
        (out.new ≡ written (plan_in accepted.now.cycle.f Source.List accepted.now.list.now) out.old 0 accepted.now.cycle.f.size) }
{
    accepted.write_cycle(out);
    counts_of(accepted.cycle.f)
}

// What the two changes share is judge_given, judge_room and send; each has its own condition, search and move, so that one function
// of both would be no plainer.
//
// A line arrives in a list, and both pass 1 to 4: 16, then 5 to 7 of the changed list, or the change.
fn arrive_judged(
    buffer: &mut [u8],
    lines: u64,
    given: &[u8],
    plain: bool,
    settings: Settings,
    out: &mut [u8],
) -> Result<Counts, Refusal>
    requires { (first_refusal (given_conditions settings buffer.old lines given.now) ≡ None) ×
        (plain ≡ true → PlainList (list_in buffer.old lines)) }
    ensures { Changes.Meets (Changes.arrive settings buffer.old lines given.now (length out.old))
        result buffer.old buffer.new out.old out.new }
{
    if lines == Line::LINES_MOST {
        return Err(Refusal::from(Reason::NoPlace));
    }
    if !places_for(buffer, lines + 1) {
        return Err(Refusal::from(Reason::NoPlace));
    }
    let f = judge_room(figures_of(settings, lines + 1), out.len() as u64)?;
    let end = (LINE * lines) as usize;
    let place = first_over(&buffer[..end], spelled_tag(given, 0)).unwrap_or(lines);
    put_line(buffer, (LINE * place) as usize, end, given);
    let changed = Accepted {
        list: &buffer[..end + Line::LENGTH],
        plain: plain_with(plain, given),
        cycle: Cycle { f },
    };
    Ok(send(&changed, out))
}

// A line is taken out of a list, and both pass 1 to 4: 15, then 5 to 7 of the changed list, or the change.
fn take_out_judged(
    buffer: &mut [u8],
    lines: u64,
    given: &[u8],
    plain: bool,
    settings: Settings,
    out: &mut [u8],
) -> Result<Counts, Refusal>
    requires { (first_refusal (given_conditions settings buffer.old lines given.now) ≡ None) ×
        (plain ≡ true → PlainList (list_in buffer.old lines)) }
    ensures { Changes.Meets (Changes.take_out settings buffer.old lines given.now (length out.old))
        result buffer.old buffer.new out.old out.new }
{
    let end = (LINE * lines) as usize;
    let line = spelled_line(&given[Line::TAG..Line::COLUMNS]);
    let Some(place) = first_equal(&buffer[..end], line) else {
        return Err(Refusal::from(Reason::NotInList));
    };
    let f = judge_room(figures_of(settings, lines - 1), out.len() as u64)?;
    remove_line(buffer, (LINE * place) as usize, end);
    let changed = Accepted {
        list: &buffer[..end - Line::LENGTH],
        plain,
        cycle: Cycle { f },
    };
    Ok(send(&changed, out))
}

// A line arrives in the list at the front of a lent buffer, `lines` lines long, and the changed list's cycle is built into the
// front of another. On a refusal no byte of either is changed.
pub fn arrive(
    buffer: &mut [u8],
    lines: u64,
    given: &[u8],
    settings: Settings,
    out: &mut [u8],
) -> Result<Counts, Refusal>
    ensures { Changes.Meets (Changes.arrive settings buffer.old lines given.now (length out.old))
        result buffer.old buffer.new out.old out.new }
{
    let plain = judge_given(buffer, lines, given, settings)?;
    arrive_judged(buffer, lines, given, plain, settings, out)
}

// The first line with the given line's four numbers is taken out of the list at the front of a lent buffer, `lines` lines long,
// and the changed list's cycle is built into the front of another. On a refusal no byte of either is changed.
pub fn take_out(
    buffer: &mut [u8],
    lines: u64,
    given: &[u8],
    settings: Settings,
    out: &mut [u8],
) -> Result<Counts, Refusal>
    ensures { Changes.Meets (Changes.take_out settings buffer.old lines given.now (length out.old))
        result buffer.old buffer.new out.old out.new }
{
    let plain = judge_given(buffer, lines, given, settings)?;
    take_out_judged(buffer, lines, given, plain, settings, out)
}
