// Answers request streams: a request read from standard input makes one of the public calls, and its answer goes to standard output.
// What is wrong with a stream is said in one line that begins `error`, and the program stops there.
#![tactic(auto)]

mod answers;
mod calls;
mod changes;
mod errors;
mod hearing;
mod lent;
mod numbers;
mod requests;

use errors::Stopped;
use requests::Head;
use std::io;
use std::io::{Print, Read};

// The longest body of a request, and the longest lent buffer.
const LIMIT: usize = 2400000;

// The requests of a stream in turn. A proved loop has to end: this one ends at a number of requests that no stream has.
fn serve<R: Read>(
    input: &mut R,
    rt: &impl Print,
    body: &mut [u8],
    lent: &mut [u8],
) -> Result<(), Stopped> {
    for _ in 0..u64::MAX {
        let Some(head) = Head::read(input)? else {
            break;
        };
        let size = head.read_body(input, body)?;
        calls::answer(rt, &head, &mut body[..size], lent)?;
    }
    Ok(())
}

fn main(rt: HostRuntime) -> io::Result<()> {
    let mut body = [0u8; LIMIT];
    let mut lent = [0u8; LIMIT];
    match serve(&mut rt.reader(), &rt, &mut body, &mut lent) {
        Ok(()) => Ok(()),
        Err(Stopped::Stream(wrong)) => println!(rt; "error: {wrong}"),
        Err(Stopped::Io(failed)) => Err(failed),
    }
}
