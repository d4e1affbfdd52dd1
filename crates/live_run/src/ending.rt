//! Why a conversation stops.

ghost use Rattle.std.specs.Prelude.{◌≡◌};
ghost use Rattle.live_run.specs.declared.ending.Stop.TheVariants.{OutOfMemory};
ghost use Rattle.live_run.specs.Endings.{stop_status};

use std::alloc::AllocError;

/// Why a conversation stopped before its input had ended.
#[derive(Clone, Copy, Debug, PartialEq, Eq, Drop)]
pub enum Stop {
    /// A read failed.
    ReadFault,
    /// A write failed.
    WriteFault,
    /// Memory ran out, or a number of 64 bits is used up.
    OutOfMemory,
}

impl From<bwe_specs::OutOfMemory> for Stop {
    ghost from_gives = { λ _ stop. stop ≡ OutOfMemory };

    fn from(_: bwe_specs::OutOfMemory) -> Stop {
        Stop::OutOfMemory
    }
}

impl From<AllocError> for Stop {
    ghost from_gives = { λ _ stop. stop ≡ OutOfMemory };

    fn from(_: AllocError) -> Stop {
        Stop::OutOfMemory
    }
}

// The exit status of a conversation that stopped.
pub(crate) fn status_of(stop: Stop) -> u8
    ensures { result ≡ stop_status stop }
{
    match stop {
        Stop::ReadFault => 4,
        Stop::WriteFault => 5,
        Stop::OutOfMemory => 6,
    }
}
