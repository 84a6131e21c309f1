ghost use Rattle.std.specs.Prelude.{◌≡◌, IfOk};

use crate::Statement;
use bp_faults::{OutOfMemory, Payload, Seq, Text};
use std::alloc::Global;

fn copy_variables(
    alloc: Global,
    variables: &[(Text, Text)],
) -> Result<Seq<(Text, Text)>, OutOfMemory>
    ensures { IfOk result (λ copies. copies ≡ variables.now) }
{
    let mut copies = Vec::new(alloc);
    for (key, value) in variables {
        copies.push((key.copy(alloc)?, value.copy(alloc)?))?;
    }
    Ok(Seq::new(copies))
}

impl Payload for Statement {
    fn copy(&self, alloc: Global) -> Result<Self, OutOfMemory> {
        Ok(Statement {
            outs: self.outs.copy(alloc)?,
            rule: self.rule.copy(alloc)?,
            ins: self.ins.copy(alloc)?,
            implicit: self.implicit.copy(alloc)?,
            order_only: self.order_only.copy(alloc)?,
            vars: copy_variables(alloc, self.vars.as_slice())?,
        })
    }
}
