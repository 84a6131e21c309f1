use ninja_text::{NinjaError, read, write};
use std::alloc::Global;
use std::io;
use std::io::Write;

fn write_again(alloc: Global, bytes: &[u8], out: &mut impl Write) -> io::Result<()> {
    if bytes.len() >= 1 << 32 {
        return out.write_all(b"too long\n");
    }
    match read(alloc, bytes) {
        Ok(file) => match write(alloc, &file) {
            Ok(text) => out.write_all(text.as_slice()),
            Err(error) => writeln!(out, "{error}"),
        },
        Err(NinjaError::BadLine(line)) => writeln!(out, "line {line} is refused"),
        Err(NinjaError::OutOfMemory) => out.write_all(b"out of memory\n"),
    }
}

/// Writes the texts between form feeds again.
pub fn write_all_again(alloc: Global, bytes: &[u8], out: &mut impl Write) -> io::Result<()> {
    for text in bytes.split(|byte| *byte == b'\x0c') {
        write_again(alloc, text, out)?;
    }
    Ok(())
}
