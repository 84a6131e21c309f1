//! Tries the writer and the reader of text for Ninja, by the words of the command line, one after another.
//!
//! `sample` writes a file with hard paths and values. `again` reads the texts of standard input, which form
//! feeds separate, and writes each again, or the line that is refused. The scripts `tools/ninja_agrees.sh`
//! and `tools/ninja_reads.sh` show the answers to the real Ninja.
#![tactic(auto)]

mod again;
mod sample;

use again::write_all_again;
use sample::sample_text;
use std::alloc::Global;
use std::io::{Read, Write};
use std::{env, io};

fn write_sample(alloc: Global, out: &mut impl Write) -> io::Result<()> {
    let Ok(text) = sample_text(alloc) else {
        return Err(io::ErrorKind::OutOfMemory.into());
    };
    out.write_all(text.as_slice())
}

fn main(rt: HostRuntime) -> io::Result<()> {
    for word in env::args(&rt)?.skip(1) {
        match word.as_str() {
            "sample" => write_sample(rt.alloc(), &mut io::writer(&rt))?,
            "again" => {
                let mut bytes = Vec::new(rt.alloc());
                rt.reader().read_to_end(&mut bytes)?;
                write_all_again(rt.alloc(), bytes.as_slice(), &mut io::writer(&rt))?;
            }
            _ => return Err(io::ErrorKind::InvalidInput.into()),
        }
    }
    Ok(())
}
