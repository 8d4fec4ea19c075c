// The mean wait: document 02, C-17. The sum of elapsed over all tune-ins and all different tags of a list, and its division.
ghost use Rattle.std.specs.Prelude.{◌≡◌, ◌*◌, ◌≤◌};
ghost use Rattle.buckets.specs.Lengths.{lines_most, buckets_most};
ghost use Rattle.listener.specs.Mean;
ghost use Rattle.listener.specs.Mean.{divided};

use super::MeanWait;
use cycle::waits::waits;
use cycle::{Refusal, Settings, WaitSum};

// The sum divided by N × T.
fn average(w: WaitSum) -> MeanWait
    requires { (1 ≤ w.n) × (w.n ≤ buckets_most) × (1 ≤ w.tags) × (w.tags ≤ lines_most) }
    ensures { result ≡ divided w.sum (w.n * w.tags) }
{
    let divisor = w.n * w.tags;
    MeanWait {
        sum: w.sum,
        divisor,
        quotient: w.sum / divisor,
        remainder: w.sum % divisor,
    }
}

// The mean wait over all tune-ins and all different tags of the list, with its remainder; or a refusal.
pub fn mean(list: &[u8], settings: Settings) -> Result<MeanWait, Refusal>
    ensures { result ≡ Mean.mean settings list.now }
{
    Ok(average(waits(list, settings)?))
}
