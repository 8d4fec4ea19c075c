// Judging: a list and settings held against the conditions of building, and the figures of their cycle. Nothing is written.
ghost use Rattle.std.specs.Prelude.{◌≡◌};
ghost use Rattle.cycle.specs.Judging;

use super::conditions::judge_list;
use super::{Figures, Refusal, Settings};

// Judges a list and settings by the conditions of building, for a buffer with this room: the figures of the cycle, or a refusal.
pub fn judge(list: &[u8], settings: Settings, room: u64) -> Result<Figures, Refusal>
    ensures { result ≡ Judging.judge settings list.now room }
{
    Ok(judge_list(list, settings, room)?.cycle.f)
}
