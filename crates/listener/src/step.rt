// A listener's start, its step and its lost bucket: document 01, "The listener", with document 02, C-12 and C-16.
ghost use Rattle.std.specs.Prelude.{◌≡◌, List, ℕ, ◌+◌, ◌≤◌, length};
ghost use Rattle.std.specs.Option.{option_map};
ghost use Rattle.buckets.specs.Lengths.{buckets_most, bucket_lines_most};
ghost use Rattle.buckets.specs.Bucket.{Body, index_body, data_body, read_bucket};
ghost use Rattle.buckets.specs.Inner.Held.{bucket_with, reading_of, reading_with};
ghost use Rattle.listener.specs.Listener.{start, is_ended, is_index, stopped, ended, stepped, refused, refused_ended};
ghost use Rattle.listener.specs.Listener.{heard_with, elapsed_with, due_at, awaited, due_with, passed_with, dozing, dozes, decided, index_choice, data_choice};
ghost use Rattle.listener.specs.Listener.{heed, heed_read, step, starts_over, lost, step_numbers};
ghost use Rattle.listener.specs.declared.Answer.TheVariants.{Doze};
ghost use Rattle.listener.specs.Inner.OnReading.{is_tune_in, SoundHead, Near, WasRead, tagged_lines};

use super::{Answer, Listener, Phase, Stepped, choose};
use buckets::{Bucket, Entry, Frame, Head, Items, Kind, Line, Pair, reader};
use cycle::Reason;

// Where a listener's counts stop.
const COUNT_MOST: u64 = 4294967295;

// A count with some more, stopped where it would pass the largest.
#[tactic(auto, unfolding(crate::specs::Listener::stopped))]
fn count_on(count: u64, more: u64) -> u64
    ensures { result ≡ stopped (count + more) }
{
    count.saturating_add(more).min(COUNT_MOST)
}

// Whether the tune-in bucket is awaited. One test, by `matches!`: a `==` for phases would be no plainer.
fn is_tune_in(phase: Phase) -> bool
    ensures { result ≡ is_tune_in phase }
{
    matches!(phase, Phase::TuneIn)
}

// Whether nothing is awaited any more. One test, as above.
fn is_ended(phase: Phase) -> bool
    ensures { result ≡ is_ended phase }
{
    matches!(phase, Phase::Ended)
}

impl Listener {
    // A bucket's bytes; where the lines of a data bucket start, and the columns of each; a list line's bytes.
    pub const BUCKET: usize = Bucket::LENGTH;

    pub const LINES: usize = Bucket::LINES;

    pub const COLUMNS: usize = Line::COLUMNS;

    pub const LINE: usize = Line::LENGTH;

    // A listener that waits for its tune-in bucket.
    #[tactic(auto, unfolding(crate::specs::Listener::start))]
    pub fn new(tag: u64) -> Listener
        ensures { result ≡ start tag }
    {
        Listener {
            tag,
            phase: Phase::TuneIn,
            due: 0,
            cycle: 0,
            passed: 0,
            doze: 1,
            heard: 0,
            elapsed: 0,
        }
    }

    // The buckets taken, lost ones counted.
    pub fn heard(self) -> u64
        ensures { result ≡ self.heard }
    {
        self.heard
    }

    // The buckets gone by from the first one to the last one taken or lost, both in.
    pub fn elapsed(self) -> u64
        ensures { result ≡ self.elapsed }
    {
        self.elapsed
    }

    // Both counts with the bucket at hand.
    #[tactic(auto, unfolding(crate::specs::Listener::heard_with))]
    fn heard_with(self) -> u64
        ensures { result ≡ heard_with self }
    {
        count_on(self.heard, 1)
    }

    #[tactic(auto, unfolding(crate::specs::Listener::elapsed_with))]
    fn elapsed_with(self) -> u64
        ensures { result ≡ elapsed_with self }
    {
        count_on(self.elapsed, self.doze)
    }

    // The ended listener with these counts.
    #[tactic(auto, unfolding(crate::specs::Listener::ended))]
    fn ended(self, heard: u64, elapsed: u64) -> Listener
        ensures { result ≡ ended self heard elapsed }
    {
        Listener {
            phase: Phase::Ended,
            heard,
            elapsed,
            ..self
        }
    }

    // The refusal by 8, 9 or 10: the bucket is not counted.
    #[tactic(auto, unfolding(crate::specs::Listener::refused, crate::specs::Listener::stepped))]
    fn refused(self, reason: Reason) -> Stepped
        ensures { result ≡ refused self reason }
    {
        Stepped {
            listener: self.ended(self.heard, self.elapsed),
            answer: Answer::Refused(reason),
            first: 0,
            count: 0,
        }
    }

    // Found or absent, at the bucket at hand.
    #[tactic(auto, unfolding(crate::specs::Listener::stepped))]
    fn end_by(self, answer: Answer, first: u64, count: u64) -> Stepped
        ensures { result ≡ stepped (ended self (heard_with self) (elapsed_with self)) answer first count }
    {
        Stepped {
            listener: self.ended(self.heard_with(), self.elapsed_with()),
            answer,
            first,
            count,
        }
    }
}

// A listener at a well printed bucket, which has this head.
#[derive(Clone, Copy)]
struct At {
    listener: Listener,
    head: Head,
    ghost sound: { SoundHead head },
}

impl At {
    // Doze by d to the bucket at position `due`, awaiting one of the kind named, with the cycle starts passed by then.
    #[tactic(auto, unfolding(buckets::specs::Inner::Held::bucket_with, buckets::specs::Bucket::cycle_length, crate::specs::Listener::stepped, crate::specs::Listener::dozing))]
    fn dozing(self, due: u64, passed: u64, d: u64, awaits: Phase, first: u64, count: u64) -> Stepped
        ensures { (body : Body) → due_with (bucket_with self.head body) d ≡ due →
            passed_with self.listener (bucket_with self.head body) d ≡ passed →
            result ≡ stepped (dozing self.listener (bucket_with self.head body) d awaits) (Doze d) first count }
    {
        let listener = Listener {
            tag: self.listener.tag,
            phase: awaits,
            due,
            cycle: self.head.position + self.head.to_cycle,
            passed,
            doze: d,
            heard: self.listener.heard_with(),
            elapsed: self.listener.elapsed_with(),
        };
        Stepped {
            listener,
            answer: Answer::Doze(d),
            first,
            count,
        }
    }

    // Doze by d, awaiting a bucket of the kind named: in this cycle, or the next cycle's first unless a start was passed before.
    fn doze_by(self, d: u64, awaits: Phase, first: u64, count: u64) -> Stepped
        requires { d ≤ buckets_most }
        ensures { (body : Body) → result ≡ decided self.listener (bucket_with self.head body) (dozes d awaits first count) }
    {
        if d < self.head.to_cycle {
            return self.dozing(
                self.head.position + d,
                self.listener.passed,
                d,
                awaits,
                first,
                count,
            );
        }
        if 1 <= self.listener.passed {
            return self.listener.refused(Reason::PastNextCycle);
        }
        self.dozing(0, self.listener.passed + 1, d, awaits, first, count)
    }

    // Whether the position is the one awaited, and N too where no cycle starts there.
    #[tactic(auto, unfolding(buckets::specs::Inner::Held::bucket_with, buckets::specs::Bucket::cycle_length))]
    fn due_at(self) -> bool
        ensures { (body : Body) → result ≡ due_at self.listener (bucket_with self.head body) }
    {
        self.head.position == self.listener.due
            && (self.listener.due == 0
                || self.head.position + self.head.to_cycle == self.listener.cycle)
    }

    // Whether a bucket with this head, of index or data, is as awaited.
    #[tactic(auto, unfolding(buckets::specs::Inner::Held::bucket_with, crate::specs::Listener::awaited))]
    fn awaits(self, index: bool) -> bool
        ensures { (body : Body) → is_index body ≡ index → result ≡ awaited self.listener (bucket_with self.head body) }
    {
        match self.listener.phase {
            Phase::TuneIn => true,
            Phase::Index => index && self.due_at(),
            Phase::Either => self.due_at(),
            Phase::Data => !index && self.due_at(),
            Phase::Ended => false,
        }
    }

    // An index bucket: the first pair, else a later pair, else an entry, else absent.
    fn index_step(self, pairs: &[Pair], entries: &[Entry]) -> Stepped
        requires { Near pairs.now entries.now }
        ensures { result ≡
            decided self.listener (bucket_with self.head (index_body pairs.now entries.now))
            (index_choice self.listener.tag pairs.now entries.now) }
    {
        if let Some(first) = choose::first_pair(self.listener.tag, pairs) {
            return self.doze_by(first, Phase::Index, 0, 0);
        }
        if let Some(later) = choose::pair_below(self.listener.tag, pairs) {
            return self.doze_by(later, Phase::Index, 0, 0);
        }
        match choose::entry_from(self.listener.tag, entries) {
            Some(distance) => self.doze_by(distance, Phase::Either, 0, 0),
            None => self.listener.end_by(Answer::Absent, 0, 0),
        }
    }

    // A data bucket: the lines of our tag, and whether the next data bucket may have more.
    fn data_step(self, follow_on: u64, tags: &[u64]) -> Stepped
        requires { (follow_on ≤ buckets_most) × (length tags.now ≤ bucket_lines_most) }
        ensures { result ≡
            decided self.listener (bucket_with self.head (data_body follow_on (tagged_lines tags.now)))
            (data_choice self.listener.tag follow_on (tagged_lines tags.now)) }
    {
        let matching = choose::lines_matching(self.listener.tag, tags);
        if matching == 0 {
            return self.listener.end_by(Answer::Absent, 0, 0);
        }
        let first = choose::lines_before(self.listener.tag, tags);
        if follow_on == 0 || tags[tags.len() - 1] != self.listener.tag {
            return self.listener.end_by(Answer::Found, first, matching);
        }
        self.doze_by(follow_on, Phase::Data, first, matching)
    }

    // An index bucket that was read: 9, the tune-in, or its choice.
    fn take_index(self, pairs: &[Pair], entries: &[Entry]) -> Stepped
        requires { Near pairs.now entries.now }
        ensures { result ≡ heed self.listener (bucket_with self.head (index_body pairs.now entries.now)) }
    {
        if !self.awaits(true) {
            return self.listener.refused(Reason::NotAwaited);
        }
        if is_tune_in(self.listener.phase) {
            return self.doze_by(self.head.to_segment, Phase::Index, 0, 0);
        }
        self.index_step(pairs, entries)
    }

    // A data bucket that was read: 9, the tune-in, or its choice.
    fn take_data(self, follow_on: u64, tags: &[u64]) -> Stepped
        requires { (follow_on ≤ buckets_most) × (length tags.now ≤ bucket_lines_most) }
        ensures { result ≡ heed self.listener (bucket_with self.head (data_body follow_on (tagged_lines tags.now))) }
    {
        if !self.awaits(false) {
            return self.listener.refused(Reason::NotAwaited);
        }
        if is_tune_in(self.listener.phase) {
            return self.doze_by(self.head.to_segment, Phase::Index, 0, 0);
        }
        self.data_step(follow_on, tags)
    }
}

impl Listener {
    // What was read, with its items: 8, or the bucket of its kind.
    fn take_reading(self, frame: Option<Frame>, items: &Items) -> Stepped
        requires { WasRead (option_map (reading_with items.now) frame) }
        ensures { (bytes : List ℕ) →
            option_map (reading_with items.now) frame ≡ option_map reading_of (read_bucket bytes) →
            result ≡ heed_read self (read_bucket bytes) }
    {
        let Some(frame) = frame else {
            return self.refused(Reason::BucketMisprinted);
        };
        let at = At {
            listener: self,
            head: frame.head,
        };
        match frame.kind {
            Kind::Index => at.take_index(items.pairs.as_slice(), items.entries.as_slice()),
            Kind::Data { follow_on } => at.take_data(follow_on, items.tags.as_slice()),
        }
    }

    // The refusal by 14, which changes nothing.
    #[tactic(auto, unfolding(crate::specs::Listener::refused_ended, crate::specs::Listener::stepped))]
    fn refused_ended(self) -> Stepped
        ensures { result ≡ refused_ended self }
    {
        Stepped {
            listener: self,
            answer: Answer::Refused(Reason::ListenerEnded),
            first: 0,
            count: 0,
        }
    }

    // The answer to one bucket, and the next listener.
    pub fn step(self, bucket: &[u8]) -> Stepped
        ensures { (result.listener ≡ (step self bucket.now).listener) ×
            (step_numbers result ≡ step_numbers (step self bucket.now)) }
    {
        if is_ended(self.phase) {
            return self.refused_ended();
        }
        let mut items = Items::new();
        let frame = reader::read_into(bucket, &mut items);
        self.take_reading(frame, &items)
    }

    // The listener that starts over with the next bucket as its tune-in, its counts running on.
    #[tactic(auto, unfolding(crate::specs::Listener::starts_over, crate::specs::Listener::counting, crate::specs::Listener::start))]
    fn starts_over(self) -> Listener
        ensures { result ≡ starts_over self }
    {
        let fresh = Listener::new(self.tag);
        Listener {
            heard: self.heard_with(),
            elapsed: self.elapsed_with(),
            ..fresh
        }
    }

    // The answer to a bucket that the radio lost, and the next listener.
    pub fn lost(self) -> Stepped
        ensures { (result.listener ≡ (lost self).listener) × (step_numbers result ≡ step_numbers (lost self)) }
    {
        if is_ended(self.phase) {
            return self.refused_ended();
        }
        Stepped {
            listener: self.starts_over(),
            answer: Answer::Doze(1),
            first: 0,
            count: 0,
        }
    }
}
