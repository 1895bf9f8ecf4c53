ghost use Rattle.std.specs.Prelude.{◌≡◌, []};

use crate::shelf::{Shelf, ShelfFault};
use crate::sink::{Sink, SinkFault};
use std::alloc::Global;
use std::marker::Model;

/// The same bytes under every name. No fetch fails. A contract sees the shelf as its bytes.
#[derive(Drop)]
pub struct SureShelf {
    bytes: Vec<u8>,
}

impl Model for SureShelf {
    ghost use Rattle.std.specs.Prelude.{List, ℕ};

    ghost Value = { List ℕ };

    ghost view = { λ s. s.bytes.items };
}

impl SureShelf {
    /// A shelf that gives these bytes.
    pub fn new(bytes: Vec<u8>) -> SureShelf
        ensures { result ≡ bytes.items }
    {
        SureShelf { bytes }
    }
}

impl Shelf for SureShelf {
    ghost use Rattle.std.specs.Prelude.{Some};

    ghost told = { λ s name. Some s };

    ghost faults = { λ s. 0 };

    fn fetch(&mut self, alloc: Global, name: &str, limit: u64) -> Result<Vec<u8>, ShelfFault> {
        if self.bytes.len() as u64 > limit {
            return Err(ShelfFault::TooLong);
        }
        let bytes = Vec::from_slice(alloc, self.bytes.as_slice())?;
        Ok(bytes)
    }
}

/// Bytes in memory. No put fails. A contract sees the sink as the bytes put so far.
#[derive(Drop)]
pub struct SureSink {
    bytes: Vec<u8>,
}

impl Model for SureSink {
    ghost use Rattle.std.specs.Prelude.{List, ℕ};

    ghost Value = { List ℕ };

    ghost view = { λ s. s.bytes.items };
}

impl SureSink {
    /// A sink that holds no bytes yet.
    pub fn new(alloc: Global) -> SureSink
        ensures { result ≡ [] }
    {
        SureSink {
            bytes: Vec::new(alloc),
        }
    }

    /// The bytes put so far.
    pub fn bytes(&self) -> &[u8]
        ensures { result.now ≡ self.now }
    {
        self.bytes.as_slice()
    }
}

impl Sink for SureSink {
    ghost use Rattle.std.specs.Prelude.{Some};

    ghost told = { λ s. Some s };

    ghost faults = { λ s. 0 };

    fn put(&mut self, piece: &[u8]) -> Result<(), SinkFault> {
        self.bytes.extend_from_slice(piece)?;
        Ok(())
    }
}
