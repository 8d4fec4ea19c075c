// The kinds of request, each with its call.
ghost use Rattle.std.specs.Prelude.{◌<◌, IfOk};

use super::answers::say;
use super::changes::serve_change;
use super::errors::{Stopped, StreamError};
use super::hearing::{hear, hear_marked};
use super::lent::{fill, hash};
use super::numbers::{COLUMNS, number};
use super::requests::{Head, Numbers, settings};
use cycle::Refusal;
use listener::Looked;
use std::io;
use std::io::Print;

// The calls, by the letter of their request.
#[derive(Clone, Copy, PartialEq, Eq)]
pub enum Call {
    Build,
    ReadBack,
    Lookup,
    Hear,
    HearMarked,
    Size,
    Arrive,
    TakeOut,
    Mean,
}

// The one place in which a request's letter becomes a kind.
impl TryFrom<u8> for Call {
    type Error = StreamError;

    fn try_from(letter: u8) -> Result<Self, StreamError> {
        match letter {
            b'B' => Ok(Call::Build),
            b'R' => Ok(Call::ReadBack),
            b'L' => Ok(Call::Lookup),
            b'H' => Ok(Call::Hear),
            b'Q' => Ok(Call::HearMarked),
            b'F' => Ok(Call::Size),
            b'A' => Ok(Call::Arrive),
            b'T' => Ok(Call::TakeOut),
            b'M' => Ok(Call::Mean),
            _ => Err(StreamError::UnknownLetter),
        }
    }
}

impl Call {
    // The length of the lent buffer.
    fn room(self, numbers: &Numbers) -> u64 {
        match self {
            Call::Build | Call::ReadBack | Call::Arrive | Call::TakeOut => numbers[4],
            Call::Lookup => numbers[2],
            Call::Hear | Call::HearMarked | Call::Size | Call::Mean => 0,
        }
    }
}

// A request with its lent buffer.
#[derive(Drop)]
pub struct Request<'a> {
    pub numbers: &'a Numbers,
    pub body: &'a mut [u8],
    pub lent: &'a mut [u8],
}

// The answer of building, or of reading back, and the lent buffer's hash after it.
fn say_count(rt: &impl Print, answer: Result<u64, Refusal>, after: u64) -> io::Result<()> {
    match answer {
        Ok(count) => say(rt, &[0, 0, count, after]),
        Err(refusal) => say(rt, &[refusal.number(), refusal.place, 0, after]),
    }
}

// B: building.
fn build(rt: &impl Print, request: Request<'_>) -> io::Result<()> {
    let Request {
        numbers,
        body,
        lent,
    } = request;
    let built = cycle::build::build(body, settings(numbers), lent);
    say_count(rt, built, hash(lent))
}

// R: reading back.
fn read_back(rt: &impl Print, request: Request<'_>) -> io::Result<()> {
    let Request {
        numbers,
        body,
        lent,
    } = request;
    let restored = cycle::read_back::read_back(body, settings(numbers), lent);
    say_count(rt, restored, hash(lent))
}

// L: a lookup.
fn lookup(rt: &impl Print, request: Request<'_>) -> io::Result<()> {
    let Request {
        numbers,
        body,
        lent,
    } = request;
    let looked = listener::lookup::lookup(body, numbers[0], numbers[1], lent);
    let after = hash(lent);
    match looked {
        Ok(
            Looked::Found {
                heard,
                elapsed,
                lines,
            },
        ) => say(rt, &[0, 0, 1, heard, elapsed, lines, after]),
        Ok(Looked::Absent { heard, elapsed }) => say(rt, &[0, 0, 2, heard, elapsed, 0, after]),
        Err(refusal) => say(rt, &[refusal.number(), refusal.place, 0, 0, 0, 0, after]),
    }
}

// The bytes of a bucket of H or Q.
fn bucket_size(numbers: &Numbers) -> Result<usize, StreamError>
    ensures { IfOk result (λ n. 0 < n) }
{
    match numbers[1] as usize {
        0 => Err(StreamError::EmptyBucket),
        size => Ok(size),
    }
}

// H: one listener, given the body's buckets.
fn hearing(rt: &impl Print, request: Request<'_>) -> Result<(), Stopped> {
    let Request { numbers, body, .. } = request;
    hear(rt, numbers[0], bucket_size(numbers)?, body)?;
    Ok(())
}

// Q: the same with lost buckets.
fn hearing_marked(rt: &impl Print, request: Request<'_>) -> Result<(), Stopped> {
    let Request { numbers, body, .. } = request;
    hear_marked(rt, numbers[0], bucket_size(numbers)?, body)
}

// The body of F: C in its columns.
fn most_buckets(body: &[u8]) -> Result<u64, StreamError> {
    if body.len() != COLUMNS {
        return Err(StreamError::LengthOfSize);
    }
    number(body).ok_or(StreamError::SizeWithoutNumber)
}

// F: the dimensions of a cycle.
fn size(rt: &impl Print, numbers: &Numbers, c: u64) -> io::Result<()> {
    match cycle::size::size(numbers[4], settings(numbers), c) {
        Ok(f) => say(rt, &[0, 0, f.k, f.d, f.n, f.bytes, f.heard]),
        Err(refusal) => say(rt, &[refusal.number(), refusal.place, 0, 0, 0, 0, 0]),
    }
}

// M: the mean wait.
fn mean(rt: &impl Print, request: Request<'_>) -> io::Result<()> {
    let Request { numbers, body, .. } = request;
    match listener::mean::mean(body, settings(numbers)) {
        Ok(w) => say(rt, &[0, 0, w.sum, w.divisor, w.quotient, w.remainder]),
        Err(refusal) => say(rt, &[refusal.number(), refusal.place, 0, 0, 0, 0]),
    }
}

// Makes a request's call, with a lent buffer of its length, and says the answer.
pub fn answer(
    rt: &impl Print,
    head: &Head,
    body: &mut [u8],
    lent: &mut [u8],
) -> Result<(), Stopped> {
    let call = Call::try_from(head.letter)?;
    let numbers = &head.numbers;
    let room = call.room(numbers) as usize;
    if lent.len() < room {
        return Err(StreamError::LentOverLimit.into());
    }
    let lent = &mut lent[..room];
    fill(lent);
    let request = Request {
        numbers,
        body,
        lent,
    };
    match call {
        Call::Build => build(rt, request)?,
        Call::ReadBack => read_back(rt, request)?,
        Call::Lookup => lookup(rt, request)?,
        Call::Hear => hearing(rt, request)?,
        Call::HearMarked => hearing_marked(rt, request)?,
        Call::Size => size(rt, numbers, most_buckets(request.body)?)?,
        Call::Arrive | Call::TakeOut => serve_change(rt, call, request)?,
        Call::Mean => mean(rt, request)?,
    }
    Ok(())
}
