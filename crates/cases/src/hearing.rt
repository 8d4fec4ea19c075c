// H and Q: one listener, given bucket after bucket; in Q some may be lost.
ghost use Rattle.std.specs.Prelude.{◌≡◌, ◌<◌, take, drop};

use super::answers::say;
use super::errors::{Stopped, StreamError};
use listener::{Answer, Listener};
use std::io;
use std::io::Print;

// An answer's number (1 doze, 2 found, 3 absent, 4 refused), and its distance or refusal number, else 0.
fn figures(answer: Answer) -> (u64, u64) {
    match answer {
        Answer::Doze(distance) => (1, distance),
        Answer::Found => (2, 0),
        Answer::Absent => (3, 0),
        Answer::Refused(reason) => (4, reason as u64),
    }
}

// Gives the listener a bucket, or a lost one where there is none, and says its answer, with the counts of the listener that is
// handed back.
fn hand_in(rt: &impl Print, current: Listener, bucket: Option<&[u8]>) -> io::Result<Listener> {
    let stepped = match bucket {
        Some(bytes) => current.step(bytes),
        None => current.lost(),
    };
    let (kind, figure) = figures(stepped.answer);
    let next = stepped.listener;
    say(
        rt,
        &[
            kind,
            figure,
            stepped.first,
            stepped.count,
            next.heard(),
            next.elapsed(),
        ],
    )?;
    Ok(next)
}

// A listener started with tag, given the buckets of body in turn, each of size bytes; the last one may be shorter.
pub fn hear(rt: &impl Print, tag: u64, size: usize, body: &[u8]) -> io::Result<()>
    requires { 0 < size }
{
    let mut current = Listener::new(tag);
    for bucket in body.chunks(size) {
        current = hand_in(rt, current, Some(bucket))?;
    }
    Ok(())
}

// The letter in front of a bucket: whether its bytes follow, or it is lost.
enum Mark {
    Bytes,
    Lost,
}

// The one place in which a bucket's letter becomes a kind.
impl TryFrom<u8> for Mark {
    type Error = StreamError;

    fn try_from(letter: u8) -> Result<Self, StreamError> {
        match letter {
            b'B' => Ok(Mark::Bytes),
            b'X' => Ok(Mark::Lost),
            _ => Err(StreamError::UnknownMark),
        }
    }
}

// The bucket in front of what is left, of size bytes or, at the end, of fewer; and what is behind it.
fn cut_bucket(left: &[u8], size: usize) -> (&[u8], &[u8])
    ensures bucket { result.0.now ≡ take size left.now }
    ensures behind { result.1.now ≡ drop size left.now }
{
    left.split_at(size.min(left.len()))
}

// A listener started with tag, given the buckets of body in turn, each behind its letter. It ends by what is left: a letter X has no
// bucket behind it, so the parts have no one length.
pub fn hear_marked(rt: &impl Print, tag: u64, size: usize, body: &[u8]) -> Result<(), Stopped> {
    let mut current = Listener::new(tag);
    let mut rest = body;
    while let Some((letter, behind)) = rest.split_first() {
        let (bucket, next) = match Mark::try_from(*letter)? {
            Mark::Bytes => {
                let (bytes, next) = cut_bucket(behind, size);
                (Some(bytes), next)
            }
            Mark::Lost => (None, behind),
        };
        current = hand_in(rt, current, bucket)?;
        rest = next;
    }
    Ok(())
}
