//! Where a script comes from and where output goes. A shelf is asked for the bytes under a name, and a sink is given
//! pieces of bytes. A contract says which bytes, where the shelf or the sink tells them, and that each fault raises a
//! count that never falls.
#![tactic(auto)]

mod mem;
mod outside;
mod shelf;
mod sink;
mod sure;

pub use mem::{MemShelf, MemSink};
pub use outside::{FileShelf, StdSink};
pub use shelf::{Shelf, ShelfFault};
pub use sink::{Sink, SinkFault};
pub use sure::{SureShelf, SureSink};

#[cfg(test)]
mod tests;
