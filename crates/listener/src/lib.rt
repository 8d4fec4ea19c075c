// The listener, the lookup and the mean wait: document 01, "The listener", with document 02, C-12, C-16 and C-17.
#![tactic(auto)]

mod choose;
mod hearing;
mod image;
pub mod lookup;
pub mod mean;
pub mod run;
mod state;
mod step;

use cycle::Reason;
pub use image::Image;

// What a listener awaits: its tune-in bucket, an index bucket, either kind, a data bucket, or nothing any more.
#[derive(Clone, Copy)]
pub enum Phase {
    TuneIn,
    Index,
    Either,
    Data,
    Ended,
}

// A listener's state. It is made by starting it with a tag, and handed on from step to step.
#[derive(Clone, Copy)]
pub struct Listener {
    // the tag listened for
    tag: u64,
    // what is awaited
    phase: Phase,
    // the position awaited; 0 is that of a cycle's start
    due: u64,
    // the N of the last bucket taken, which is awaited within its cycle
    cycle: u64,
    // the cycle starts passed since tune-in, that behind a lost bucket if one was lost
    passed: u64,
    // the buckets that go by up to the next one taken, that one counted
    doze: u64,
    // buckets taken, lost ones counted
    heard: u64,
    // buckets gone by from the first one to the last one, both in
    elapsed: u64,
}

// A listener's answer to one bucket: doze by a distance, found, absent, refused for a reason, which has its number. No Option or
// Result: these four are the form that the yard's contract names.
#[derive(Clone, Copy)]
pub enum Answer {
    Doze(u64),
    Found,
    Absent,
    Refused(Reason),
}

// What a step hands back: the next listener, the answer, and which lines of the bucket match.
#[derive(Clone, Copy)]
pub struct Stepped {
    pub listener: Listener,
    pub answer: Answer,
    pub first: u64,
    pub count: u64,
}

// How a run of a listener over an image ends: found with the listener and the number of lines got, or absent with the listener.
#[derive(Clone, Copy)]
pub enum Ending {
    Found(Listener, u64),
    Absent(Listener),
}

// What a lookup answers: found or absent, with heard and elapsed.
#[derive(Clone, Copy)]
pub enum Looked {
    Found {
        heard: u64,
        elapsed: u64,
        lines: u64,
    },
    Absent {
        heard: u64,
        elapsed: u64,
    },
}

// A mean wait: the sum of elapsed, the number of hearings added, and the sum divided by it, with the remainder.
#[derive(Clone, Copy)]
pub struct MeanWait {
    pub sum: u64,
    pub divisor: u64,
    pub quotient: u64,
    pub remainder: u64,
}
