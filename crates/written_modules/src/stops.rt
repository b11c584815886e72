//! Why a statement takes no records.
ghost use Rattle.std.specs.Prelude.{◌≡◌};
ghost use Rattle.written_modules.specs.declared.stops.Stop.TheVariants.{NoMemory};

use report_types::Why;
use std::alloc::AllocError;

/// Why a statement, or a test of it, gives no answer.
#[derive(Debug, Drop)]
pub enum Stop {
    /// The statement is refused for this.
    Refused(Why),
    /// Memory ran out.
    NoMemory,
}

impl From<AllocError> for Stop {
    ghost from_gives = { λ _ stop. stop ≡ NoMemory };

    fn from(_none: AllocError) -> Stop {
        Stop::NoMemory
    }
}
