// The waits of a list's tags: elapsed over all tune-ins, added, by the places of each tag's buckets. No cycle is built.
ghost use Rattle.std.specs.Prelude.{◌≡◌, [], ◌≤◌, ◌<◌};
ghost use Rattle.buckets.specs.ListLine.{list_lines};
ghost use Rattle.cycle.specs.Waits;
ghost use Rattle.cycle.specs.Waits.{waits_between, wait_sum};
ghost use Rattle.cycle.specs.Inner.Held.{plan_of, tag_at};
ghost use Rattle.cycle.specs.declared.Source.TheVariants as Source;

use super::conditions::judge_list;
use super::{Accepted, BUCKET, Cycle, LINE, Reason, Refusal, Settings, WaitSum};
use buckets::Bucket;
use buckets::lines::spelled_tag;

// A buffer for the longest cycle, for which 7 does not hold.
const ROOM_MOST: u64 = BUCKET * Bucket::BUCKETS_MOST;

impl Cycle {
    // Elapsed over all tune-ins, added, for a tag whose lines lie in data buckets first to last.
    #[tactic(auto, unfolding(crate::specs::Waits::waits_between, crate::specs::Inner::Held::plan_of))]
    fn waits_between(&self, first: u64, last: u64) -> u64
        requires { (first ≤ last) × (last < self.now.f.d) }
        ensures { result ≡ waits_between (plan_of self.now.f []) first last }
    {
        let size = self.f.size;
        let start = self.segment_start(first);
        let end = self.data_place(last) + 1;
        size * end + size * (size - start) - size * (size - 1) / 2
    }
}

impl Accepted<'_> {
    // The tag of line i.
    #[tactic(auto, unfolding(crate::specs::Inner::Held::tag_at))]
    fn tag_of(&self, i: u64) -> u64
        requires { i < self.now.cycle.f.lines }
        ensures { result ≡ tag_at self.now.cycle.f Source.List self.now.list.now i }
    {
        spelled_tag(self.list, (LINE * i) as usize)
    }

    // The different tags of the list, which has a line, and their waits, in one pass: a tag's lines stand together.
    fn add_waits(&self) -> WaitSum
        requires { 1 ≤ self.now.cycle.f.lines }
        ensures { result ≡ wait_sum (plan_of self.now.cycle.f (list_lines self.now.list.now)) }
    {
        let f = &self.cycle.f;
        let mut tag = self.tag_of(0);
        let mut first = 0;
        let mut tags = 1;
        let mut sum = 0;
        for i in 1..f.lines {
            let next = self.tag_of(i);
            // named, since a must-fail edit turns this test
            let other = next != tag;
            if other {
                sum += self.cycle.waits_between(first, (i - 1) / f.p);
                tags += 1;
                tag = next;
                first = i / f.p;
            }
        }
        sum += self.cycle.waits_between(first, (f.lines - 1) / f.p);
        WaitSum {
            n: f.size,
            tags,
            sum,
        }
    }
}

// The waits of a list's tags over all tune-ins, added, with N and the number of different tags; or a refusal.
pub fn waits(list: &[u8], settings: Settings) -> Result<WaitSum, Refusal>
    ensures { result ≡ Waits.waits settings list.now }
{
    let accepted = judge_list(list, settings, ROOM_MOST)?;
    if accepted.cycle.f.lines == 0 {
        return Err(Refusal::from(Reason::NoLine));
    }
    Ok(accepted.add_waits())
}
