ghost use Rattle.std.specs.Prelude.{◌≡◌, ◌*◌, suc, replicate, IfOk};

use std::alloc::{AllocError, Global};
use std::marker::Model;

/// How deep a line stands: four spaces for each block. Contracts see the number of blocks.
#[derive(Drop)]
pub struct Indent {
    spaces: Vec<u8>,
}

impl Model for Indent {
    ghost use Rattle.std.specs.Prelude.{◌≡◌, ◌*◌, ◌/◌, ℕ, length, replicate};

    ghost Value = { ℕ };

    ghost view = { λ i. length i.spaces.items / 4 };

    ghost invariant = { λ i. i.spaces.items ≡ replicate (4 * (length i.spaces.items / 4)) 32 };
}

impl Indent {
    /// Outside all blocks.
    pub fn new(alloc: Global) -> Indent
        ensures { result ≡ 0 }
    {
        Indent {
            spaces: Vec::new(alloc),
        }
    }

    /// One block deeper.
    pub fn deeper(&self, alloc: Global) -> Result<Indent, AllocError>
        ensures { IfOk result (λ deeper. deeper ≡ suc self.now) }
    {
        let mut spaces = Vec::new(alloc);
        spaces.extend_from_slice(self.spaces.as_slice())?;
        spaces.extend_from_slice(b"    ")?;
        Ok(Indent { spaces })
    }

    /// Its spaces.
    pub fn as_slice(&self) -> &[u8]
        ensures { result.now ≡ replicate (4 * self.now) 32 }
    {
        self.spaces.as_slice()
    }
}
