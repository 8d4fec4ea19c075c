// The calls for C and Rust: building, sizing, a line that arrives in a list or is taken out of it, the mean wait, reading back,
// a lookup, a listener whose state is eight numbers that the caller keeps, given a bucket or told of a lost one, and the lines
// of a bucket.
// Each takes any input. A lent buffer keeps every byte that the output does not cover, and all of them on a refusal.
// The settings come as four numbers, as the C interface has them, and become `Settings` in the call.
#![tactic(auto)]

ghost use Rattle.std.specs.Prelude.{◌≡◌, ℕ, [], ◌∷◌, length};
ghost use Rattle.columns.specs.Lists.{onto, put};
ghost use Rattle.buckets.specs.Bucket.{read_bucket};
ghost use Rattle.buckets.specs.BucketLines;
ghost use Rattle.buckets.specs.BucketLines.{bucket_line};
ghost use Rattle.cycle.specs.Tree.{settings};
ghost use Rattle.cycle.specs.Building;
ghost use Rattle.cycle.specs.Changes;
ghost use Rattle.cycle.specs.ReadingBack.{read_back};
ghost use Rattle.cycle.specs.Size;
ghost use Rattle.listener.specs.Listener.{start};
ghost use Rattle.listener.specs.Lookup;
ghost use Rattle.listener.specs.Mean;
ghost use Rattle.listener.specs.State.{saved, restored};
ghost use Rattle.pansdaoh.specs.Calls.{count_answer, built_answer, read_back_answer, looked_answer, step_answer, step_from, lost_from, was_ended, state_after, line_answer, size_answer, change_answer, mean_answer};

use buckets::{Line, Misprinted, bucket_line};
use cycle::{Counts, Dimensions, Reason, Refusal, Settings, build, changes, read_back, size};
use listener::{Listener, Looked, MeanWait, Stepped, lookup, mean};

// A refusal's number (0: not refused) and place, and the number of buckets built or of lines read back.
#[repr(C)]
#[derive(Clone, Copy)]
pub struct CountAnswer {
    pub number: u64,
    pub place: u64,
    pub count: u64,
}

// A refusal's number (0: not refused) and place; how the lookup ended (1 found, 2 absent, 0 refused), its heard and elapsed,
// and the number of lines written.
#[repr(C)]
#[derive(Clone, Copy)]
pub struct LookupAnswer {
    pub number: u64,
    pub place: u64,
    pub end: u64,
    pub heard: u64,
    pub elapsed: u64,
    pub lines: u64,
}

// The answer (1 doze, 2 found, 3 absent, 4 refused), the distance to doze or the refusal's number (else 0), and which lines of
// the bucket match: the first, from 0, and how many.
#[repr(C)]
#[derive(Clone, Copy)]
pub struct StepAnswer {
    pub answer: u64,
    pub value: u64,
    pub first: u64,
    pub count: u64,
}

// A refusal's number (0: not refused) and place; whether the bucket has such a line (1, else 0), and its four numbers.
#[repr(C)]
#[derive(Clone, Copy)]
pub struct LineAnswer {
    pub number: u64,
    pub place: u64,
    pub present: u64,
    pub tag: u64,
    pub tare: u64,
    pub code: u64,
    pub weighing: u64,
}

// A refusal's number (0: not refused) and place; index levels, data buckets, N, the image's bytes, and the most buckets that a
// display hears.
#[repr(C)]
#[derive(Clone, Copy)]
pub struct SizeAnswer {
    pub number: u64,
    pub place: u64,
    pub k: u64,
    pub d: u64,
    pub n: u64,
    pub bytes: u64,
    pub heard: u64,
}

// A refusal's number (0: not refused) and place; the changed list's number of lines, its data buckets, index levels and N.
#[repr(C)]
#[derive(Clone, Copy)]
pub struct ChangeAnswer {
    pub number: u64,
    pub place: u64,
    pub lines: u64,
    pub d: u64,
    pub k: u64,
    pub n: u64,
}

// A refusal's number (0: not refused) and place; the sum of elapsed over all tune-ins and all different tags, the number of these
// hearings, and the sum divided by it, with the remainder.
#[repr(C)]
#[derive(Clone, Copy)]
pub struct MeanAnswer {
    pub number: u64,
    pub place: u64,
    pub sum: u64,
    pub divisor: u64,
    pub quotient: u64,
    pub remainder: u64,
}

// The answer of building, or of reading back, as numbers.
impl From<Result<u64, Refusal>> for CountAnswer {
    ghost from_gives = { λ told answer. answer ≡ count_answer told };

    fn from(told: Result<u64, Refusal>) -> CountAnswer {
        match told {
            Ok(count) => CountAnswer {
                number: 0,
                place: 0,
                count,
            },
            Err(refusal) => CountAnswer {
                number: refusal.number(),
                place: refusal.place,
                count: 0,
            },
        }
    }
}

// A lookup's answer as numbers.
impl From<Result<Looked, Refusal>> for LookupAnswer {
    ghost from_gives = { λ told answer. answer ≡ looked_answer told };

    fn from(told: Result<Looked, Refusal>) -> LookupAnswer {
        match told {
            Ok(
                Looked::Found {
                    heard,
                    elapsed,
                    lines,
                },
            ) => LookupAnswer {
                number: 0,
                place: 0,
                end: 1,
                heard,
                elapsed,
                lines,
            },
            Ok(Looked::Absent { heard, elapsed }) => LookupAnswer {
                number: 0,
                place: 0,
                end: 2,
                heard,
                elapsed,
                lines: 0,
            },
            Err(refusal) => LookupAnswer {
                number: refusal.number(),
                place: refusal.place,
                end: 0,
                heard: 0,
                elapsed: 0,
                lines: 0,
            },
        }
    }
}

// A step's answer as numbers.
impl From<Stepped> for StepAnswer {
    ghost from_gives = { λ stepped answer. answer ≡ step_answer stepped };

    fn from(stepped: Stepped) -> StepAnswer {
        let (answer, value) = match stepped.answer {
            listener::Answer::Doze(d) => (1, d),
            listener::Answer::Found => (2, 0),
            listener::Answer::Absent => (3, 0),
            listener::Answer::Refused(reason) => (4, reason as u64),
        };
        StepAnswer {
            answer,
            value,
            first: stepped.first,
            count: stepped.count,
        }
    }
}

// Whether a step's answer is the refusal by 14, which changes nothing. One test, by `matches!`: a `==` for answers would be no plainer.
fn was_ended(answer: listener::Answer) -> bool
    ensures { result ≡ was_ended answer }
{
    matches!(answer, listener::Answer::Refused(Reason::ListenerEnded))
}

// Hands back a step's answer as numbers, and its listener in the state, which 14 leaves as it is.
fn hand_back(state: &mut [u64; 8], r: Stepped) -> StepAnswer
    ensures { (result ≡ step_answer r) × (state.new ≡ state_after state.old r) }
{
    if !was_ended(r.answer) {
        *state = r.listener.saved();
    }
    r.into()
}

// A bucket's line as numbers.
impl From<Result<Option<Line>, Misprinted>> for LineAnswer {
    ghost from_gives = { λ told answer. answer ≡ line_answer (BucketLines.numbers told) };

    fn from(told: Result<Option<Line>, Misprinted>) -> LineAnswer {
        match told {
            Ok(Some(line)) => LineAnswer {
                number: 0,
                place: 0,
                present: 1,
                tag: line.tag,
                tare: line.tare,
                code: line.code,
                weighing: line.weighing,
            },
            // a record for C, without a refusal
            Ok(None) => no_line(0),
            Err(Misprinted) => no_line(Reason::BucketMisprinted as u64),
        }
    }
}

// No line, refused by a number or by none.
fn no_line(number: u64) -> LineAnswer
    ensures { result ≡ line_answer (number ∷ []) }
{
    LineAnswer {
        number,
        place: 0,
        present: 0,
        tag: 0,
        tare: 0,
        code: 0,
        weighing: 0,
    }
}

// Sizing's answer as numbers.
impl From<Result<Dimensions, Refusal>> for SizeAnswer {
    ghost from_gives = { λ told answer. answer ≡ size_answer told };

    fn from(told: Result<Dimensions, Refusal>) -> SizeAnswer {
        match told {
            Ok(f) => SizeAnswer {
                number: 0,
                place: 0,
                k: f.k,
                d: f.d,
                n: f.n,
                bytes: f.bytes,
                heard: f.heard,
            },
            Err(refusal) => SizeAnswer {
                number: refusal.number(),
                place: refusal.place,
                k: 0,
                d: 0,
                n: 0,
                bytes: 0,
                heard: 0,
            },
        }
    }
}

// The answer of a change as numbers.
impl From<Result<Counts, Refusal>> for ChangeAnswer {
    ghost from_gives = { λ told answer. answer ≡ change_answer told };

    fn from(told: Result<Counts, Refusal>) -> ChangeAnswer {
        match told {
            Ok(c) => ChangeAnswer {
                number: 0,
                place: 0,
                lines: c.lines,
                d: c.d,
                k: c.k,
                n: c.n,
            },
            Err(refusal) => ChangeAnswer {
                number: refusal.number(),
                place: refusal.place,
                lines: 0,
                d: 0,
                k: 0,
                n: 0,
            },
        }
    }
}

// The answer of averaging as numbers.
impl From<Result<MeanWait, Refusal>> for MeanAnswer {
    ghost from_gives = { λ told answer. answer ≡ mean_answer told };

    fn from(told: Result<MeanWait, Refusal>) -> MeanAnswer {
        match told {
            Ok(w) => MeanAnswer {
                number: 0,
                place: 0,
                sum: w.sum,
                divisor: w.divisor,
                quotient: w.quotient,
                remainder: w.remainder,
            },
            Err(refusal) => MeanAnswer {
                number: refusal.number(),
                place: refusal.place,
                sum: 0,
                divisor: 0,
                quotient: 0,
                remainder: 0,
            },
        }
    }
}

// The dimensions of the cycle of so many lines, for a tag in c data buckets.
#[unsafe(no_mangle)]
pub extern "C" fn pansdaoh_size(
    lines: u64,
    n: u64,
    p: u64,
    layout: u64,
    copies: u64,
    c: u64,
) -> SizeAnswer
    ensures { result ≡ size_answer (Size.size (settings n p layout copies) lines c) }
{
    let settings = Settings {
        n,
        p,
        layout,
        copies,
    };
    size::size(lines, settings, c).into()
}

// Builds the cycle of a list into the front of out.
#[unsafe(no_mangle)]
pub extern "C" fn pansdaoh_build(
    list: &[u8],
    n: u64,
    p: u64,
    layout: u64,
    copies: u64,
    out: &mut [u8],
) -> CountAnswer
    ensures { (result ≡
        built_answer (Building.build (settings n p layout copies) list.now (length out.old)).answer) ×
        (out.new ≡
        onto (Building.build (settings n p layout copies) list.now (length out.old)).output
        out.old) }
{
    let settings = Settings {
        n,
        p,
        layout,
        copies,
    };
    build::build(list, settings, out).into()
}

// A line arrives in the list of so many lines at the front of a buffer, and the changed list's cycle is built into the front of
// out.
#[unsafe(no_mangle)]
pub extern "C" fn pansdaoh_arrive(
    list: &mut [u8],
    lines: u64,
    line: &[u8],
    n: u64,
    p: u64,
    layout: u64,
    copies: u64,
    out: &mut [u8],
) -> ChangeAnswer
    ensures { (result ≡
        change_answer (Changes.arrive (settings n p layout copies) list.old lines line.now (length out.old)).answer) ×
        (list.new ≡
        onto (Changes.arrive (settings n p layout copies) list.old lines line.now (length out.old)).list
        list.old) ×
        (out.new ≡
        onto (Changes.arrive (settings n p layout copies) list.old lines line.now (length out.old)).cycle
        out.old) }
{
    let settings = Settings {
        n,
        p,
        layout,
        copies,
    };
    changes::arrive(list, lines, line, settings, out).into()
}

// The first line with the numbers of the one given is taken out of the list of so many lines at the front of a buffer, and the
// changed list's cycle is built into the front of out.
#[unsafe(no_mangle)]
pub extern "C" fn pansdaoh_take_out(
    list: &mut [u8],
    lines: u64,
    line: &[u8],
    n: u64,
    p: u64,
    layout: u64,
    copies: u64,
    out: &mut [u8],
) -> ChangeAnswer
    ensures { (result ≡
        change_answer (Changes.take_out (settings n p layout copies) list.old lines line.now (length out.old)).answer) ×
        (list.new ≡
        onto (Changes.take_out (settings n p layout copies) list.old lines line.now (length out.old)).list
        list.old) ×
        (out.new ≡
        onto (Changes.take_out (settings n p layout copies) list.old lines line.now (length out.old)).cycle
        out.old) }
{
    let settings = Settings {
        n,
        p,
        layout,
        copies,
    };
    changes::take_out(list, lines, line, settings, out).into()
}

// The mean wait over all tune-ins and all different tags of a list, with its remainder.
#[unsafe(no_mangle)]
pub extern "C" fn pansdaoh_mean(list: &[u8], n: u64, p: u64, layout: u64, copies: u64) -> MeanAnswer
    ensures { result ≡ mean_answer (Mean.mean (settings n p layout copies) list.now) }
{
    let settings = Settings {
        n,
        p,
        layout,
        copies,
    };
    mean::mean(list, settings).into()
}

// Reads the list that an image was built from back into the front of out.
#[unsafe(no_mangle)]
pub extern "C" fn pansdaoh_read_back(
    image: &[u8],
    n: u64,
    p: u64,
    layout: u64,
    copies: u64,
    out: &mut [u8],
) -> CountAnswer
    ensures { (result ≡ read_back_answer (read_back (settings n p layout copies) image.now (length out.old)).answer) ×
        (out.new ≡
        onto (read_back (settings n p layout copies) image.now (length out.old)).output
        out.old) }
{
    let settings = Settings {
        n,
        p,
        layout,
        copies,
    };
    read_back::read_back(image, settings, out).into()
}

// Looks a tag up in an image, tuning in at the bucket named, and writes the matching lines to the front of out.
#[unsafe(no_mangle)]
pub extern "C" fn pansdaoh_lookup(
    image: &[u8],
    tag: u64,
    tune_in: u64,
    out: &mut [u8],
) -> LookupAnswer
    ensures { (result ≡ looked_answer (Lookup.lookup image.now tag tune_in (length out.old)).answer) ×
        (out.new ≡
        put out.old 0 (Lookup.lookup image.now tag tune_in (length out.old)).output) }
{
    lookup::lookup(image, tag, tune_in, out).into()
}

// Starts a listener with a tag: it awaits its tune-in bucket.
#[unsafe(no_mangle)]
pub extern "C" fn pansdaoh_start(state: &mut [u64; 8], tag: u64)
    ensures { state.new ≡ saved (start tag) }
{
    let l = Listener::new(tag);
    *state = l.saved();
}

// Gives a listener one bucket.
#[unsafe(no_mangle)]
pub extern "C" fn pansdaoh_step(state: &mut [u64; 8], bucket: &[u8]) -> StepAnswer
    ensures { (result ≡ step_answer (step_from state.old bucket.now)) ×
        (state.new ≡ state_after state.old (step_from state.old bucket.now)) }
{
    let l = Listener::restored(*state);
    let r = l.step(bucket);
    hand_back(state, r)
}

// Tells a listener that the bucket it woke for was lost.
#[unsafe(no_mangle)]
pub extern "C" fn pansdaoh_lost(state: &mut [u64; 8]) -> StepAnswer
    ensures { (result ≡ step_answer (lost_from state.old)) ×
        (state.new ≡ state_after state.old (lost_from state.old)) }
{
    let l = Listener::restored(*state);
    let r = l.lost();
    hand_back(state, r)
}

// Line i of a bucket as its four numbers.
#[unsafe(no_mangle)]
pub extern "C" fn pansdaoh_line(bucket: &[u8], i: u64) -> LineAnswer
    ensures { result ≡ line_answer (BucketLines.numbers (bucket_line i (read_bucket bucket.now))) }
{
    bucket_line::line_of(bucket, i).into()
}

// The buckets that a listener has taken, lost ones counted.
#[unsafe(no_mangle)]
pub extern "C" fn pansdaoh_heard(state: &[u64; 8]) -> u64
    ensures { result ≡ (restored state.now).heard }
{
    let l = Listener::restored(*state);
    l.heard()
}

// The buckets gone by from a listener's first one to the last one taken or lost, both in.
#[unsafe(no_mangle)]
pub extern "C" fn pansdaoh_elapsed(state: &[u64; 8]) -> u64
    ensures { result ≡ (restored state.now).elapsed }
{
    let l = Listener::restored(*state);
    l.elapsed()
}
