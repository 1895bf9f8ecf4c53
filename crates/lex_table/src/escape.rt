use std::alloc::{AllocError, Global};

/// The bytes that a line stands for: `\n`, `\r` and `\t` as usual, `\f` a form feed, `\b` a byte order mark, `\!` the
/// byte FF, and any other character behind a backslash itself.
pub fn unescaped(alloc: Global, line: &[u8]) -> Result<Vec<u8>, AllocError> {
    let mut bytes = Vec::new(alloc);
    let mut escaped = false;
    for byte in line {
        if escaped {
            push_escape(&mut bytes, *byte)?;
            escaped = false;
        } else if *byte == b'\\' {
            escaped = true;
        } else {
            bytes.push(*byte)?;
        }
    }
    Ok(bytes)
}

fn push_escape(bytes: &mut Vec<u8>, byte: u8) -> Result<(), AllocError> {
    match byte {
        b'n' => bytes.push(b'\n')?,
        b'r' => bytes.push(b'\r')?,
        b't' => bytes.push(b'\t')?,
        b'f' => bytes.push(0x0c)?,
        b'!' => bytes.push(0xff)?,
        b'b' => {
            bytes.push(0xef)?;
            bytes.push(0xbb)?;
            bytes.push(0xbf)?;
        }
        _ => bytes.push(byte)?,
    }
    Ok(())
}
