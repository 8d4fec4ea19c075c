// The conditions of building, 1 to 7, held against a list and settings; and whether the list is known to have no leading zeros.
ghost use Rattle.std.specs.Prelude.{◌≡◌, true, [], ◌∷◌, ◌%◌, length, MatchResult};
ghost use Rattle.std.specs.Prelude.{None};
ghost use Rattle.std.specs.Option.{option_map};
ghost use Rattle.buckets.specs.ListLine.{read_line, cut_lines, list_lines, misprint_from, fall_from};
ghost use Rattle.buckets.specs.Lengths.{line_length};
ghost use Rattle.buckets.specs.Inner.Columns.{read_plain, PlainList};
ghost use Rattle.columns.specs.Lists.{pick};
ghost use Rattle.cycle.specs.Cycle.{cycle_size};
ghost use Rattle.cycle.specs.Refusals.{first_refusal, outcome};
ghost use Rattle.cycle.specs.Building.{line_misprinted, tag_falls};
ghost use Rattle.cycle.specs.Judging;
ghost use Rattle.cycle.specs.Judging.{plan_conditions};
ghost use Rattle.cycle.specs.Inner.Held.{plan_of, Shaped, sized};
ghost use Rattle.cycle.specs.Inner.ListLines.{Told};

use super::measures::{figures_of, judge_figures, settings_fit};
use super::{Accepted, BUCKET, Cycle, Figures, Reason, Refusal, Settings};
use buckets::Line;
use buckets::lines::{line_tag, plain_tag, spelled_tag};

// The first misprinted line.
// Compiled once, since the header promises how much code there is.
#[inline(never)]
pub fn first_misprint(list: &[u8]) -> Option<u64>
    ensures { result ≡ misprint_from 0 (cut_lines list.now) }
{
    list.chunks_exact(Line::LENGTH)
        .position(|line| line_tag(line).is_none())
        .map(|i| i as u64)
}

// The first line whose tag falls.
fn first_fall(list: &[u8]) -> Option<u64>
    ensures { result ≡ fall_from 0 0 (list_lines list.now) }
{
    let mut last = 0;
    for (i, line) in list.chunks_exact(Line::LENGTH).enumerate() {
        let tag = spelled_tag(line, 0);
        if tag < last {
            return Some(i as u64);
        }
        last = tag;
    }
    None
}

// The tag of the list line that part is; where `plain` says so, only of a line without leading zeros. It chooses the reading, and tells
// nothing of the line; so in `all_rise`.
fn tag_read(part: &[u8], plain: bool) -> Option<u64>
    ensures { result ≡ option_map (λ l. l.tag) (pick plain (read_plain part.now) (read_line part.now)) }
{
    if plain {
        plain_tag(part)
    } else {
        line_tag(part)
    }
}

// Whether every line is well printed, without leading zeros where `plain` says so, and no tag falls, in one pass. Where it is
// not so, the place is looked for anew.
pub fn all_rise(list: &[u8], plain: bool) -> bool
    ensures { result ≡ true →
        (misprint_from 0 (cut_lines list.now) ≡ None) × (fall_from 0 0 (list_lines list.now) ≡ None)
        × (plain ≡ true → length list.now % line_length ≡ 0 → PlainList list.now) }
{
    let mut last = 0;
    for line in list.chunks_exact(Line::LENGTH) {
        let Some(tag) = tag_read(line, plain) else {
            return false;
        };
        if tag < last {
            return false;
        }
        last = tag;
    }
    true
}

// Conditions 5, 6 and 7 of figures and a buffer's room; and the figures with N.
// Compiled once, since the header promises how much code there is.
#[inline(never)]
pub fn judge_room(f: Figures, room: u64) -> Result<Figures, Refusal>
    requires { Shaped f }
    ensures { result ≡ outcome (first_refusal (plan_conditions (plan_of f []) room)) (sized f (cycle_size (plan_of f []))) }
{
    let sized = judge_figures(f)?;
    if room < BUCKET * sized.size {
        return Err(Refusal::from(Reason::BufferTooShort));
    }
    Ok(sized)
}

// A list's lines held against 3 and 4: the first that is refused, or whether they are known to have no leading zeros.
pub fn judge_lines(list: &[u8]) -> Result<bool, Refusal>
    requires { length list.now % line_length ≡ 0 }
    ensures { Told (line_misprinted list.now ∷ tag_falls list.now ∷ []) list.now result }
{
    if all_rise(list, true) {
        return Ok(true);
    }
    if all_rise(list, false) {
        return Ok(false);
    }
    if let Some(place) = first_misprint(list) {
        return Err(Refusal {
            reason: Reason::LineMisprinted,
            place,
        });
    }
    if let Some(place) = first_fall(list) {
        return Err(Refusal {
            reason: Reason::TagFalls,
            place,
        });
    }
    Ok(false)
}

// Judges a list and settings by the conditions of building, for a buffer with this room: the list as one that can be sent; or a
// refusal.
pub fn judge_list(list: &[u8], settings: Settings, room: u64) -> Result<Accepted<'_>, Refusal>
    ensures { MatchResult result
        (λ accepted. (Judging.judge settings list.now room ≡ Ok accepted.cycle.f) × (accepted.list.now ≡ list.now))
        (λ refusal. Judging.judge settings list.now room ≡ Err refusal) }
{
    if !settings_fit(settings) {
        return Err(Refusal::from(Reason::SettingsOut));
    }
    let length = list.len();
    if length % Line::LENGTH != 0 {
        return Err(Refusal::from(Reason::LengthOut));
    }
    let lines = (length / Line::LENGTH) as u64;
    // named, since a must-fail edit turns this test
    let too_many = Line::LINES_MOST < lines;
    if too_many {
        return Err(Refusal::from(Reason::LengthOut));
    }
    let plain = judge_lines(list)?;
    let f = judge_room(figures_of(settings, lines), room)?;
    Ok(Accepted {
        list,
        plain,
        cycle: Cycle { f },
    })
}
