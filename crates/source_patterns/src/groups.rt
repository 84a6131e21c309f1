ghost use Rattle.std.specs.Prelude.{◌≡◌, ◌<◌, IfSome, Ok, length, set};
ghost use Rattle.std.specs.List.{HoldsAt};
ghost use Rattle.bp_faults.specs.Phases.{Then};
ghost use Rattle.source_patterns.specs.Answers.{ExpandGives, ExpandCause};
ghost use Rattle.source_patterns.specs.Expansion.{KeyedGroupMeans, GroupMeans, GroupsMean};
ghost use Rattle.source_patterns.specs.Walked.{GroupWalks, WalksIn};

use crate::ExpandError;
use crate::items::expanded;
use crate::patterns::has_pattern;
use bp_faults::{Path, Payload, Seq};
use bp_props::{GroupProps, Groups};
use path_patterns::Directories;
use std::alloc::Global;

/// Expands the sources of a group.
pub fn expand_group<D: Directories>(
    alloc: Global,
    dirs: &mut D,
    dir: &Path,
    group: &mut GroupProps,
) -> Result<(), ExpandError>
    requires ready { D.IsReady dirs.old }
    ensures gives { IfSome (D.held dirs.old) (λ held. ExpandGives (λ done. group.new)
        (GroupMeans held dir.now group.old) (GroupWalks held dir.now group.old) result) }
    ensures held { D.held dirs.new ≡ D.held dirs.old }
    ensures cause { ExpandCause (D.faults dirs.old) (D.faults dirs.new) result }
    ensures kept { D.kept dirs.new ≡ D.kept dirs.old }
    ensures ready { D.IsReady dirs.new }
{
    if !has_pattern(dir, group.srcs.items()) {
        return Ok(());
    }
    let items = expanded(alloc, dirs, dir, group.srcs.items())?;
    group.srcs.put_items(alloc, Seq::new(items))?;
    Ok(())
}

/// Expands the group at an index. One without patterns isn't copied.
fn expand_at<D: Directories>(
    alloc: Global,
    dirs: &mut D,
    dir: &Path,
    groups: &mut Groups,
    index: usize,
) -> Result<(), ExpandError>
    requires within { index < length groups.old }
    requires ready { D.IsReady dirs.old }
    ensures gives { IfSome (D.held dirs.old) (λ held. HoldsAt (λ e. ExpandGives (λ done. groups.new)
        (Then (KeyedGroupMeans held dir.now e) (λ more o. Ok (set groups.old index more) ≡ o))
        (GroupWalks held dir.now e.1) result) groups.old index) }
    ensures size { length groups.new ≡ length groups.old }
    ensures held { D.held dirs.new ≡ D.held dirs.old }
    ensures cause { ExpandCause (D.faults dirs.old) (D.faults dirs.new) result }
    ensures kept { D.kept dirs.new ≡ D.kept dirs.old }
    ensures ready { D.IsReady dirs.new }
{
    let group = &groups.as_slice()[index].1;
    if !has_pattern(dir, group.srcs.items()) {
        return Ok(());
    }
    let mut more = group.copy(alloc)?;
    expand_group(alloc, dirs, dir, &mut more)?;
    groups.replace_at(index, more);
    Ok(())
}

/// Expands the groups, one after another.
pub fn expand_groups<D: Directories>(
    alloc: Global,
    dirs: &mut D,
    dir: &Path,
    groups: &mut Groups,
) -> Result<(), ExpandError>
    requires ready { D.IsReady dirs.old }
    ensures gives { IfSome (D.held dirs.old) (λ held. ExpandGives (λ done. groups.new)
        (GroupsMean held dir.now groups.old)
        (WalksIn (KeyedGroupMeans held dir.now) (λ e. GroupWalks held dir.now e.1) groups.old) result) }
    ensures held { D.held dirs.new ≡ D.held dirs.old }
    ensures cause { ExpandCause (D.faults dirs.old) (D.faults dirs.new) result }
    ensures kept { D.kept dirs.new ≡ D.kept dirs.old }
    ensures ready { D.IsReady dirs.new }
{
    for index in 0..groups.as_slice().len() {
        expand_at(alloc, dirs, dir, groups, index)?;
    }
    Ok(())
}
