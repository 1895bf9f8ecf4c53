ghost use Rattle.std.specs.Prelude.{◌≡◌, ℕ, ◌≤◌, ◌<◌, ◌^◌, List, Option, IsErrOf, OnOk};
ghost use Rattle.mono_io.specs.Faults.{Rose, appended, PutsPart};

use std::alloc::AllocError;
use thiserror::Error;

/// Why a put didn't put its whole piece.
#[derive(Clone, Copy, Debug, PartialEq, Eq, Error)]
pub enum SinkFault {
    /// A part of the piece, or all of it, wasn't taken.
    #[error("not put")]
    Failed,
    /// There is no memory for the piece.
    #[error("out of memory")]
    Memory,
}

impl From<AllocError> for SinkFault {
    ghost use Rattle.std.specs.Prelude.{◌≡◌};
    ghost use Rattle.mono_io.specs.declared.sink.SinkFault.TheVariants.{Memory};

    ghost from_gives = { λ _ e. e ≡ Memory };

    fn from(_e: AllocError) -> SinkFault {
        SinkFault::Memory
    }
}

/// Where bytes are put.
pub trait Sink {
    // The bytes put so far, where the sink tells them.
    ghost told: { Self → Option (List ℕ) };

    // How many faults there were.
    ghost faults: { Self → ℕ };

    /// Puts the whole piece behind the bytes put so far. A sink that tells its bytes goes on to tell them, whatever it
    /// answers, and one that doesn't goes on not to.
    fn put(&mut self, piece: &[u8]) -> Result<(), SinkFault>
        ensures ok { OnOk result (told self.new ≡ appended (told self.old) piece.now) }
        ensures failed { IsErrOf result SinkFault.Failed →
            Rose (faults self.old) (faults self.new) × PutsPart (told self.old) (told self.new) piece.now }
        ensures memory { IsErrOf result SinkFault.Memory →
            (told self.new ≡ told self.old) × (faults self.new ≡ faults self.old) }

        // The count is one of 64 bits that never falls.
        ensures counts { faults self.old ≤ faults self.new }
        ensures bounded { faults self.new < 2 ^ 64 };
}
