// A run of the listener over a lent image, without a buffer: document 01, "The listener".
ghost use Rattle.std.specs.Prelude.{◌≡◌};
ghost use Rattle.listener.specs.Lookup.{run_over, as_ending};

use super::{Ending, Image};
use cycle::Refusal;

// How the run of a listener started with the tag ends that tunes in at bucket t.
pub fn run(image: &[u8], tag: u64, t: u64) -> Result<Ending, Refusal>
    ensures { result ≡ as_ending (run_over image.now tag t) }
{
    let ran = Image::tuned_in(image, t)?.hear_to_end(tag, t)?;
    Ok(ran.ending)
}
