// Why a dialogue stops before its end.

ghost use Rattle.std.specs.Prelude.{◌≡◌};

use linear_term::Memory;

/// Why a dialogue stops before its end.
#[derive(Clone, Copy, Debug, PartialEq, Eq)]
pub enum Stop {
    /// The source failed.
    Source,
    /// The sink failed.
    Sink,
    Memory,
}

impl From<Memory> for Stop {
    ghost use Rattle.job_dialogue.specs.declared.stops.Stop.{Stop};

    ghost from_gives = { λ _ e. e ≡ Stop.Memory };

    fn from(_error: Memory) -> Stop {
        Stop::Memory
    }
}
