// Reading a stream in parts of a known length.
#![tactic(auto)]

ghost use Rattle.std.specs.Prelude.{◌<◌, ◌≤◌, ℕ, length, take, IfOk, OnErr};
ghost use Rattle.std.specs.Io.KnownBytes.{Consumes, IsAtEnd};

use std::io;
use std::io::Read;

// Reads until buf is full or the stream ends. Returns how many bytes were read: they stand at the front of buf, in their order, and
// are fewer than buf holds only where the stream ended. Of the bytes behind them std's `read` says nothing.
// A loop: std's `read_exact` tells no count where the stream ends, and `read_to_end` wants the heap.
pub fn read_full<R: Read>(input: &mut R, buf: &mut [u8]) -> io::Result<usize>
    ensures count { IfOk result (λ n. n ≤ length buf.new) }
    ensures bytes { IfOk result (λ n. Consumes (R.remaining input.old) (R.remaining input.new) (take n buf.new)) }
    ensures none_lost { OnErr result ((n : ℕ) × (n ≤ length buf.new) × Consumes (R.remaining input.old) (R.remaining input.new) (take n buf.new)) }
    ensures end { IfOk result (λ n. n < length buf.new → IsAtEnd (R.remaining input.new)) }
{
    let mut done = 0;
    while done < buf.len() {
        let got = input.read(&mut buf[done..])?;
        if got == 0 {
            break;
        }
        done += got;
    }
    Ok(done)
}
