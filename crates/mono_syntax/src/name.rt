ghost use Rattle.std.specs.Prelude.{◌≡◌, IfOk};

use mono_list::Shared;
use sqlite_items::Items;
use std::alloc::{AllocError, Global};
use std::marker::Model;

/// A text, as its bytes: a name of the script or the inside of a string literal. Owners share it and nobody changes it.
#[derive(Drop)]
pub struct Name {
    bytes: Shared<Items<u8>>,
}

impl Model for Name {
    ghost use Rattle.std.specs.Prelude.{List, ℕ};

    ghost Value = { List ℕ };

    ghost view = { λ n. n.bytes };
}

impl Name {
    /// The text of these bytes.
    pub fn new(alloc: Global, bytes: &[u8]) -> Result<Name, AllocError>
        ensures { IfOk result (λ name. name ≡ bytes.now) }
    {
        let items = Items::from_slice(alloc, bytes)?;
        let bytes = Shared::new(alloc, items)?;
        Ok(Name { bytes })
    }

    /// The bytes.
    pub fn as_slice(&self) -> &[u8]
        ensures { result.now ≡ self.now }
    {
        self.bytes.get().as_slice()
    }

    /// One more owner of the same text.
    pub fn share(&self) -> Result<Name, AllocError>
        ensures { IfOk result (λ name. name ≡ self.now) }
    {
        let bytes = self.bytes.share()?;
        Ok(Name { bytes })
    }
}
