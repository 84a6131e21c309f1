//! Records that outlive what they were made of.

use bp_faults::{NodeId, OutOfMemory, Text};
use bp_props::Props;
use module_rules::Record;
use std::alloc::Global;
use std::process::Abort;
use std::sync::Arc;
use std::test::Fail;

/// Properties with a flag, a level and a link line of one node.
fn sample(alloc: Global) -> Result<Props, OutOfMemory> {
    let mut props = Props::empty(alloc);
    let flag = Text::from_str(alloc, "-Wall")?;
    props.base.cflags.push(alloc, flag)?;
    props.level = 29;
    props.line.push(NodeId(3))?;
    Ok(props)
}

/// The record that some properties lend, kept beyond them.
fn kept_of_lent(alloc: Global) -> Result<Record<'static>, OutOfMemory> {
    let props = sample(alloc)?;
    let lent = Record::lent(alloc, &props)?;
    lent.with_pic(alloc)?.kept(alloc)
}

/// A record of properties that others hold too, kept.
fn kept_of_shared(alloc: Global) -> Result<Record<'static>, OutOfMemory> {
    let props = Arc::new(alloc, sample(alloc)?)?;
    let shared = Record::shared(alloc, props.clone()?)?;
    shared.at_level(alloc, 30)?.kept(alloc)
}

/// How many flags a record has, whether one more stands behind them, its level, and how long its link line is.
fn read(record: &Record<'_>) -> (usize, bool, u32, usize) {
    let (flags, pic) = record.cflags();
    (flags.len(), pic, record.level(), record.line().len())
}

#[test]
fn records_are_kept(rt: HostRuntime) -> Result<(), Fail> {
    let alloc = rt.alloc();
    assert_eq!(rt; read(&kept_of_lent(alloc)?), (1, true, 29, 1));
    assert_eq!(rt; read(&kept_of_shared(alloc)?), (1, false, 30, 1));
    Ok(())
}
