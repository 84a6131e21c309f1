ghost use Rattle.std.specs.Prelude.{◌≡◌, []};
ghost use Rattle.std.specs.Thread.{IsSync};
ghost use Rattle.ninja_write.specs.Inside.{Prints};

use crate::output::{Output, WriteError, put_all};
use crate::part::Part;
use std::alloc::Global;
use std::thread::{Threads, join};

fn print(alloc: Global, before: &str, part: &Part<'_>) -> Result<Output, WriteError>
    ensures { Prints part.now.statements.now before.now result }
{
    let mut output = Output::new(alloc);
    output.make_room(part.room);
    output.put(before)?;
    put_all(&mut output, part.statements)?;
    Ok(output)
}

/// A text, and that of a part behind it. The caller prints the first statements of the part where they belong. Each
/// other worker prints more of them into a text of its own, which the caller then puts behind those before it.
#[cycle(parts)]
pub fn print_behind<R: Threads + Sync>(
    rt: &R,
    alloc: Global,
    before: &str,
    part: &Part<'_>,
    workers: u32,
) -> Result<Output, WriteError>
    ensures { Prints part.now.statements.now before.now result }
{
    if workers < 2 {
        return print(alloc, before, part);
    }
    let (front, back) = part.cut(workers);
    let others = workers - 1;
    let last = move || -> Result<Output, WriteError>
        ensures { Prints back.entry.statements.now [] result }
    { print(alloc, "", &back) };
    let first = move || -> Result<Output, WriteError>
        requires { IsSync R.row }
        ensures { Prints front.entry.statements.now before.entry.now result }
    { print_behind(rt, alloc, before, &front, others) };
    let (last, first) = join(rt, last, first);
    let mut output = first?;
    output.append(last?)?;
    Ok(output)
}
