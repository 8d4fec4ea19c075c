// A lent image as a run takes it.
ghost use Rattle.std.specs.Prelude.{◌≡◌, ◌*◌, ◌/◌, ◌≤◌, ◌<◌, length, None, Some, MatchResult};
ghost use Rattle.buckets.specs.Lengths.{bucket_length, buckets_most};
ghost use Rattle.cycle.specs.Refusals.{first_refusal};
ghost use Rattle.cycle.specs.Cycle.{bucket_at};
ghost use Rattle.listener.specs.Lookup.{tune_in_conditions};

use super::Listener;
use buckets::Bucket;
use cycle::{Reason, Refusal};

// An image that a run can hear: 1 to 99,999 whole buckets.
#[derive(Clone, Copy)]
pub struct Image<'a> {
    bytes: &'a [u8],
    // its number of buckets
    pub count: u64,
    ghost few: { count ≤ buckets_most },
    ghost within: { bucket_length * count ≤ length bytes.now },
}

impl<'a> Image<'a> {
    // The image that these bytes are, if they are whole buckets and bucket t, where a run tunes in, is one of them.
    pub fn tuned_in(bytes: &'a [u8], t: u64) -> Result<Self, Refusal>
        ensures { MatchResult result
            (λ image. (first_refusal (tune_in_conditions bytes.now t) ≡ None) × (image.bytes.now ≡ bytes.now)
            × (image.count ≡ length bytes.now / bucket_length) × (t < image.count))
            (λ refused. first_refusal (tune_in_conditions bytes.now t) ≡ Some refused) }
    {
        let count = (bytes.len() / Listener::BUCKET) as u64;
        if bytes.len() % Listener::BUCKET != 0 || count < 1 || Bucket::BUCKETS_MOST < count {
            return Err(Reason::ImageLengthOut.into());
        }
        if count <= t {
            return Err(Reason::TuneInOut.into());
        }
        Ok(Image { bytes, count })
    }

    // Bucket x.
    pub fn bucket(&self, x: u64) -> &'a [u8]
        requires { x < self.now.count }
        ensures bytes { result.now ≡ bucket_at self.now.bytes.now x }
        ensures whole { length result.now ≡ bucket_length }
    {
        let at = Listener::BUCKET * x as usize;
        &self.bytes[at..at + Listener::BUCKET]
    }
}
