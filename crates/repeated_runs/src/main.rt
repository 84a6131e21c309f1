//! Runs the passes over one tree as many times as it is asked to, and frees each time what was made.
//!
//! Its two words are a number of modules and a number of workers. Each line of standard input asks for one run, which
//! loads the tree anew: `generate`, `graph`, or `replay` along the journal of a run. Behind each run its line flows
//! out, with the size of what was made. `tools/steady_memory.py` asks for a hundred, and looks at the memory between.
#![tactic(auto)]

mod job;
mod size;
mod tree;

use job::run;
use size::Size;
use std::rt::Env;
use std::{env, io};

// The numbers of modules and of workers, as the words say.
fn read_size(rt: &(impl Env + AllocGlobal)) -> io::Result<Option<Size>> {
    let mut numbers = Vec::new(rt.alloc());
    for word in env::args(rt)?.skip(1) {
        numbers.push(word.as_str().parse::<u32>().unwrap_or(1))?;
    }
    match numbers.as_slice() {
        [modules, workers] => Ok(Some(Size::nearest(*modules, *workers))),
        _ => Ok(None),
    }
}

fn main(rt: HostRuntime) -> io::Result<()> {
    let Some(size) = read_size(&rt)? else {
        return Err(io::ErrorKind::InvalidInput.into());
    };
    for line in rt.lines(rt.alloc()) {
        let line = line?;
        match run(&rt, rt.alloc(), line.as_str(), &size) {
            Ok(made) => println!(rt; "{line} {made}")?,
            Err(_) => return Err(io::ErrorKind::Other.into()),
        }
    }
    Ok(())
}
