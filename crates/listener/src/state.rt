// A listener's state as eight numbers, for callers that cannot hold the state itself.
ghost use Rattle.std.specs.Prelude.{◌≡◌};
ghost use Rattle.listener.specs.State.{phase_number, phase_of, saved, restored};

use super::{Listener, Phase};

// What is awaited, as a number.
impl From<Phase> for u64 {
    ghost from_gives = { λ phase x. x ≡ phase_number phase };

    fn from(phase: Phase) -> u64 {
        phase as u64
    }
}

// What is awaited, by its number; any other number is that of an ended listener.
impl From<u64> for Phase {
    ghost from_gives = { λ x phase. phase ≡ phase_of x };

    #[tactic(auto, unfolding(crate::specs::State::phase_of))]
    fn from(x: u64) -> Phase {
        match x {
            0 => Phase::TuneIn,
            1 => Phase::Index,
            2 => Phase::Either,
            3 => Phase::Data,
            _ => Phase::Ended,
        }
    }
}

impl Listener {
    // Tag, what is awaited, due, cycle, passed, doze, heard and elapsed.
    #[tactic(auto, unfolding(crate::specs::State::saved))]
    pub fn saved(self) -> [u64; 8]
        ensures { result ≡ saved self }
    {
        [
            self.tag,
            u64::from(self.phase),
            self.due,
            self.cycle,
            self.passed,
            self.doze,
            self.heard,
            self.elapsed,
        ]
    }

    // The listener of a saved state. Any content is taken.
    #[tactic(auto, unfolding(crate::specs::State::restored))]
    pub fn restored(a: [u64; 8]) -> Listener
        ensures { result ≡ restored a }
    {
        let [tag, phase, due, cycle, passed, doze, heard, elapsed] = a;
        Listener {
            tag,
            phase: Phase::from(phase),
            due,
            cycle,
            passed,
            doze,
            heard,
            elapsed,
        }
    }
}
