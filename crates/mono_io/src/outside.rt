ghost use Rattle.std.specs.Prelude.{◌≡◌, ◌≤◌, ◌<◌, ◌^◌, IfOk, vec_len};

use crate::shelf::{Shelf, ShelfFault};
use crate::sink::{Sink, SinkFault};
use std::alloc::Global;
use std::fs;
use std::io::{Read, Write};
use std::marker::Model;
use std::rt::Files;

/// The files of the system. It tells nothing of what they hold: what a file gives is trusted. A contract sees the shelf as
/// its count of faults.
#[derive(Drop)]
pub struct FileShelf<'a, R: Files> {
    rt: &'a R,
    faults: u64,
}

impl<'a, R: Files> Model for FileShelf<'a, R> {
    ghost use Rattle.std.specs.Prelude.{ℕ, ◌<◌, ◌^◌};

    ghost Value = { ℕ };

    ghost view = { λ s. s.faults };

    ghost invariant = { λ s. s.faults < 2 ^ 64 };
}

impl<'a, R: Files> FileShelf<'a, R> {
    /// A shelf over the files that the runtime opens.
    pub fn new(rt: &'a R) -> FileShelf<'a, R>
        ensures { result ≡ 0 }
    {
        FileShelf { rt, faults: 0 }
    }
}

impl<'a, R: Files> Shelf for FileShelf<'a, R> {
    ghost use Rattle.std.specs.Prelude.{None};

    ghost told = { λ _ _. None };

    ghost faults = { λ count. count };

    fn fetch(&mut self, alloc: Global, name: &str, limit: u64) -> Result<Vec<u8>, ShelfFault> {
        let found = match fs::open(self.rt, name) {
            Ok(mut file) => read_within(alloc, &mut file, limit),
            Err(_) => Err(ShelfFault::Failed),
        };
        if matches!(&found, Err(ShelfFault::Failed)) {
            self.faults = self.faults.saturating_add(1);
        }
        found
    }
}

/// The most bytes that one read asks for.
const BLOCK: usize = 4096;

/// Reads to the end, or until `limit + 1` bytes are there.
fn read_within<R: Read>(alloc: Global, file: &mut R, limit: u64) -> Result<Vec<u8>, ShelfFault>
    requires { limit < 2 ^ 32 }
    ensures { IfOk result (λ bytes. vec_len bytes ≤ limit) }
{
    let mut bytes = Vec::new(alloc);
    let mut block = [0u8; BLOCK];
    while bytes.len() as u64 <= limit {
        let room = limit + 1 - bytes.len() as u64;
        let wanted = room.min(BLOCK as u64) as usize;
        let Ok(count) = file.read(&mut block[..wanted]) else {
            return Err(ShelfFault::Failed);
        };
        if count == 0 {
            return Ok(bytes);
        }
        bytes.extend_from_slice(&block[..count])?;
    }
    Err(ShelfFault::TooLong)
}

/// A writer of the outside, flushed at each put. It tells nothing of what the writer does with the bytes: that is trusted.
/// A contract sees the sink as its count of faults.
#[derive(Drop)]
pub struct StdSink<W: Write + Drop> {
    writer: W,
    faults: u64,
}

impl<W: Write + Drop> Model for StdSink<W> {
    ghost use Rattle.std.specs.Prelude.{ℕ, ◌<◌, ◌^◌};

    ghost Value = { ℕ };

    ghost view = { λ s. s.faults };

    ghost invariant = { λ s. s.faults < 2 ^ 64 };
}

impl<W: Write + Drop> StdSink<W> {
    /// A sink over the writer.
    pub fn new(writer: W) -> StdSink<W>
        ensures { result ≡ 0 }
    {
        StdSink { writer, faults: 0 }
    }
}

impl<W: Write + Drop> Sink for StdSink<W> {
    ghost use Rattle.std.specs.Prelude.{None};

    ghost told = { λ _. None };

    ghost faults = { λ count. count };

    fn put(&mut self, piece: &[u8]) -> Result<(), SinkFault> {
        if written(&mut self.writer, piece) {
            Ok(())
        } else {
            self.faults = self.faults.saturating_add(1);
            Err(SinkFault::Failed)
        }
    }
}

/// Writes the whole piece and flushes. A write that takes nothing of a piece that isn't empty ends it, as an error does.
fn written<W: Write>(writer: &mut W, piece: &[u8]) -> bool {
    let mut rest = piece;
    while !rest.is_empty() {
        let count = writer.write(rest).unwrap_or(0);
        if count == 0 {
            return false;
        }
        rest = &rest[count..];
    }
    writer.flush().is_ok()
}
