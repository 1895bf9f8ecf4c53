ghost use Rattle.std.specs.Prelude.{◌≡◌, ℕ, ◌≤◌, ◌<◌, ◌^◌, List, Option, IfOk, IsErrOf, vec_len};
ghost use Rattle.mono_io.specs.Faults.{Rose, IsTold, IsTooLong};

use std::alloc::{AllocError, Global};
use thiserror::Error;

/// Why a fetch gave no bytes.
#[derive(Clone, Copy, Debug, PartialEq, Eq, Error)]
pub enum ShelfFault {
    /// There are more bytes than the limit allows.
    #[error("more bytes than the limit")]
    TooLong,
    /// There are no bytes under the name, or they can't be read.
    #[error("not fetched")]
    Failed,
    /// There is no memory for the bytes.
    #[error("out of memory")]
    Memory,
}

impl From<AllocError> for ShelfFault {
    ghost use Rattle.std.specs.Prelude.{◌≡◌};
    ghost use Rattle.mono_io.specs.declared.shelf.ShelfFault.TheVariants.{Memory};

    ghost from_gives = { λ _ e. e ≡ Memory };

    fn from(_e: AllocError) -> ShelfFault {
        ShelfFault::Memory
    }
}

/// Bytes by name.
pub trait Shelf {
    // The bytes under a name, where the shelf tells them.
    ghost told: { Self → List ℕ → Option (List ℕ) };

    // How many faults there were.
    ghost faults: { Self → ℕ };

    /// Gives the bytes under a name. `TooLong` and `Memory` are no faults of the shelf.
    fn fetch(&mut self, alloc: Global, name: &str, limit: u64) -> Result<Vec<u8>, ShelfFault>
        requires { limit < 2 ^ 32 }

        // The bytes under the name, which are never more than the limit.
        ensures ok { IfOk result (λ bytes. IsTold (told self.old name.now) bytes.items) }
        ensures within { IfOk result (λ bytes. vec_len bytes ≤ limit) }

        // When each error comes.
        ensures too_long { IsErrOf result ShelfFault.TooLong →
            IsTooLong (told self.old name.now) limit × (faults self.new ≡ faults self.old) }
        ensures failed { IsErrOf result ShelfFault.Failed → Rose (faults self.old) (faults self.new) }
        ensures memory { IsErrOf result ShelfFault.Memory → faults self.new ≡ faults self.old }

        // What is told stays, and the count is one of 64 bits that never falls.
        ensures same { (n : List ℕ) → told self.new n ≡ told self.old n }
        ensures counts { faults self.old ≤ faults self.new }
        ensures bounded { faults self.new < 2 ^ 64 };
}
