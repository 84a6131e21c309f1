use bp_faults::{NodeId, OutOfMemory, Path, Payload, Place, Same, Seq, Text};
use bp_props::{Given, GroupId, GroupProps, Listed, Module, ModuleKind, Props};
use std::alloc::{AllocError, Global};
use std::test::Fail;

fn place(line: u32) -> Place {
    Place {
        file: 1,
        line,
        col: 1,
    }
}

fn flags(alloc: Global, word: &str, line: u32) -> Result<Listed<Text>, OutOfMemory> {
    let mut flags = Seq::new(Vec::new(alloc));
    flags.push(Text::from_str(alloc, word)?)?;
    Listed::new(alloc, flags, Some(place(line)))
}

fn group(alloc: Global, word: &str, line: u32) -> Result<GroupProps, OutOfMemory> {
    let mut group = GroupProps::empty(alloc);
    group.cflags = flags(alloc, word, line)?;
    group.enabled = Some(Given {
        value: line == 1,
        at: place(line),
    });
    Ok(group)
}

/// A record with a name, flags, a level, the group `static` and one more, all of a line.
fn record(alloc: Global, word: &str, line: u32, id: GroupId) -> Result<Props, OutOfMemory> {
    let mut props = Props::empty(alloc);
    props.name = Some(Given {
        value: Text::from_str(alloc, word)?,
        at: place(line),
    });
    props.base = group(alloc, word, line)?;
    props.min_sdk_version = Some(Given {
        value: line,
        at: place(line),
    });
    props
        .groups
        .insert(GroupId::Static, group(alloc, word, line)?)?;
    props.groups.insert(id, group(alloc, word, line)?)?;
    Ok(props)
}

/// The flags of a group, and the line that says whether it is enabled.
fn show_group(out: &mut String, group: &GroupProps, alloc: Global) -> Result<(), AllocError> {
    for flag in group.cflags.items() {
        out.push_str(flag.as_str())?;
        out.push_str(" ")?;
    }
    let line = group.enabled.map(|enabled| enabled.at.line).unwrap_or(0);
    out.push_str(format!(in alloc; "{line}")?.as_str())
}

/// The line of the name, that of the level, the record's own fields, and the groups in their order.
fn shown(alloc: Global, props: &Props) -> Result<String, AllocError> {
    let name = props.name.as_ref().map(|name| name.at.line).unwrap_or(0);
    let level = props.min_sdk_version.map(|level| level.value).unwrap_or(0);
    let mut out = format!(in alloc; "{name} {level} | ")?;
    show_group(&mut out, &props.base, alloc)?;
    for pair in props.groups.as_slice() {
        let id = pair.0;
        out.push_str(format!(in alloc; " | {id:?} ")?.as_str())?;
        show_group(&mut out, &pair.1, alloc)?;
    }
    Ok(out)
}

/// The record that is merged into: all of the first line, and a group of vendors.
fn first(alloc: Global) -> Result<Props, OutOfMemory> {
    record(alloc, "a", 1, GroupId::Vendor)
}

/// The record that is merged: all of the second line, and a group of an architecture.
fn second(alloc: Global) -> Result<Props, OutOfMemory> {
    record(alloc, "b", 2, GroupId::ArchArm)
}

fn followed(alloc: Global) -> Result<Props, OutOfMemory> {
    let mut props = first(alloc)?;
    props.follow(alloc, &second(alloc)?)?;
    Ok(props)
}

fn overlaid(alloc: Global) -> Result<Props, OutOfMemory> {
    let mut props = first(alloc)?.copy(alloc)?;
    props.over(alloc, &second(alloc)?)?;
    Ok(props)
}

fn appended(alloc: Global) -> Result<Props, OutOfMemory> {
    let mut props = first(alloc)?.copy(alloc)?;
    props.append(alloc, &second(alloc)?.base)?;
    Ok(props)
}

fn restricted(alloc: Global) -> Result<Props, OutOfMemory> {
    let mut props = overlaid(alloc)?.copy(alloc)?;
    props.restrict(ModuleKind::Filegroup);
    Ok(props)
}

#[test]
fn a_record_follows_another(rt: HostRuntime) -> Result<(), Fail> {
    assert_eq!(rt;
        shown(rt.alloc(), &followed(rt.alloc())?)?.as_str(),
        "1 1 | a b 1 | ArchArm b 2 | Vendor a 1 | Static a b 1"
    );
    Ok(())
}

#[test]
fn a_record_is_laid_over_another(rt: HostRuntime) -> Result<(), Fail> {
    let over = overlaid(rt.alloc())?;
    assert_eq!(rt;
        shown(rt.alloc(), &over)?.as_str(),
        "2 2 | a b 2 | ArchArm b 2 | Vendor a 1 | Static a b 2"
    );
    let has = (
        over.group(GroupId::Vendor).is_some(),
        over.group(GroupId::Host).is_some(),
    );
    assert_eq!(rt; has, (true, false));
    Ok(())
}

#[test]
fn a_group_is_appended(rt: HostRuntime) -> Result<(), Fail> {
    assert_eq!(rt;
        shown(rt.alloc(), &appended(rt.alloc())?)?.as_str(),
        "1 1 | a b 2 | Vendor a 1 | Static a 1"
    );
    Ok(())
}

#[test]
fn a_record_is_restricted_to_a_kind(rt: HostRuntime) -> Result<(), Fail> {
    assert_eq!(rt;
        shown(rt.alloc(), &restricted(rt.alloc())?)?.as_str(),
        "2 0 | 2"
    );
    Ok(())
}

/// A thousand defaults, each with a group, take one step for each item.
#[test]
fn many_records_follow(rt: HostRuntime) -> Result<(), Fail> {
    let alloc = rt.alloc();
    let mut props = Props::empty(alloc);
    let other = record(alloc, "b", 2, GroupId::ArchArm)?;
    for _ in 0..1_000 {
        props.follow(alloc, &other)?;
    }
    let items = props
        .group(GroupId::ArchArm)
        .map(|group| group.cflags.items().len());
    assert_eq!(rt; items, Some(1_000));
    Ok(())
}

fn module(alloc: Global, props: &Props) -> Result<Module, OutOfMemory> {
    Ok(Module {
        name: Text::from_str(alloc, "a")?,
        kind: ModuleKind::Library,
        dir: Path::root(alloc),
        at: place(1),
        props: props.copy(alloc)?,
    })
}

/// A copy is the same, and one more library is a difference.
#[test]
fn records_are_compared(rt: HostRuntime) -> Result<(), Fail> {
    let alloc = rt.alloc();
    let record = first(alloc)?;
    let mut other = record.copy(alloc)?;
    let same = module(alloc, &record)?.same(&module(alloc, &other)?);
    assert!(rt; same);
    other.slibs.push(NodeId(3))?;
    let same = module(alloc, &record)?.same(&module(alloc, &other)?);
    assert!(rt; !same);
    Ok(())
}
