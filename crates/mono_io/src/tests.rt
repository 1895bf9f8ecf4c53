use super::*;
use std::fs;
use std::test::Fail;

/// Of two entries of a name the first counts, and the call numbered 1 fails.
#[test]
fn mem_shelf(rt: HostRuntime) -> Result<(), Fail> {
    let alloc = rt.alloc();
    let mut files = Vec::new(alloc);
    for bytes in [b"xyz".as_slice(), b"other".as_slice()] {
        files.push((
            String::from_str(alloc, "a")?,
            Vec::from_slice(alloc, bytes)?,
        ))?;
    }
    let mut shelf = MemShelf::new(files, vec![in alloc; 1]?);
    let bytes = shelf.fetch(alloc, "a", 3)?;
    assert_eq!(rt; bytes.as_slice(), b"xyz".as_slice());
    assert_eq!(rt; shelf.fetch(alloc, "a", 3).err(), Some(ShelfFault::Failed));
    Ok(())
}

/// The put numbered 1 puts the first half of its piece.
#[test]
fn mem_sink(rt: HostRuntime) -> Result<(), Fail> {
    let alloc = rt.alloc();
    let mut sink = MemSink::new(alloc, vec![in alloc; 1]?);
    sink.put(b"ab")?;
    assert_eq!(rt; sink.put(b"cdefg").err(), Some(SinkFault::Failed));
    assert_eq!(rt; sink.bytes(), b"abcd".as_slice());
    Ok(())
}

/// What a sink was given, a shelf gives.
#[test]
fn sure(rt: HostRuntime) -> Result<(), Fail> {
    let alloc = rt.alloc();
    let mut sink = SureSink::new(alloc);
    sink.put(b"xyz")?;
    let mut shelf = SureShelf::new(Vec::from_slice(alloc, sink.bytes())?);
    let bytes = shelf.fetch(alloc, "any", 3)?;
    assert_eq!(rt; bytes.as_slice(), b"xyz".as_slice());
    Ok(())
}

/// What a sink writes into a file, a shelf fetches from it, up to the limit; a folder isn't read.
#[test]
fn outside(rt: HostRuntime) -> Result<(), Fail> {
    let alloc = rt.alloc();
    let mut sink = StdSink::new(fs::create(&rt, "mono_io_test.txt")?);
    sink.put(b"print(1)\n")?;
    let mut shelf = FileShelf::new(&rt);
    let bytes = shelf.fetch(alloc, "mono_io_test.txt", 9)?;
    assert_eq!(rt; bytes.as_slice(), b"print(1)\n".as_slice());
    assert_eq!(rt;
        shelf.fetch(alloc, "mono_io_test.txt", 8).err(),
        Some(ShelfFault::TooLong)
    );
    assert_eq!(rt; shelf.fetch(alloc, ".", 8).err(), Some(ShelfFault::Failed));
    fs::remove_file(&rt, "mono_io_test.txt")?;
    Ok(())
}
