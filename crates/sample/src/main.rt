// The sample yard's table (document 01): reads a list from standard input, builds its cycle with n 2, p 1, layout 1, r 1,
// and prints for tag 5 each tune-in, heard, elapsed and lines, each in 6 columns. A refusal is said in one line.
#![tactic(auto)]

ghost use Rattle.std.specs.Prelude.{◌≡◌, ◌≤◌, length, take};

use cycle::Settings;
use listener::{Listener, Looked};
use std::io;
use std::io::Print;
use streams::read_full;

const TAG: u64 = 5;

// The most bytes of a list, and of an image.
const LIST: usize = 4096;

const IMAGE: usize = 65536;

// How many bytes an image of count buckets takes at the front of the buffer that it was built in.
fn image_length(image: &[u8], count: u64) -> usize
    ensures { (result ≤ length image.now) × (result ≡ length (take result image.now)) }
{
    let length = (count as usize).saturating_mul(Listener::BUCKET);
    length.min(image.len())
}

// The settings: n 2, p 1, layout 1, r 1.
const SETTINGS: Settings = Settings {
    n: 2,
    p: 1,
    layout: 1,
    copies: 1,
};

// A row of the table. Its four numbers are no settings.
fn say_row(rt: &impl Print, tune_in: u64, heard: u64, elapsed: u64, lines: u64) -> io::Result<()> {
    println!(rt; "{tune_in:>6}{heard:>6}{elapsed:>6}{lines:>6}")
}

// The row of one tune-in.
fn say_lookup(rt: &impl Print, image: &[u8], tune_in: u64) -> io::Result<()> {
    let mut out = [0u8; LIST];
    match listener::lookup::lookup(image, TAG, tune_in, &mut out) {
        Ok(
            Looked::Found {
                heard,
                elapsed,
                lines,
            },
        ) => say_row(rt, tune_in, heard, elapsed, lines),
        Ok(Looked::Absent { heard, elapsed }) => say_row(rt, tune_in, heard, elapsed, 0),
        Err(refusal) => println!(rt; "{refusal}"),
    }
}

// The rows of every tune-in.
fn say_table(rt: &impl Print, image: &[u8], count: u64) -> io::Result<()> {
    for tune_in in 0..count {
        say_lookup(rt, image, tune_in)?;
    }
    Ok(())
}

fn main(rt: HostRuntime) -> io::Result<()> {
    let mut list = [0u8; LIST];
    let length = read_full(&mut rt.reader(), &mut list)?;
    let mut image = [0u8; IMAGE];
    match cycle::build::build(&list[..length], SETTINGS, &mut image) {
        Ok(count) => {
            let end = image_length(&image, count);
            say_table(&rt, &image[..end], count)
        }
        Err(refusal) => println!(rt; "{refusal}"),
    }
}
