ghost use Rattle.std.specs.Prelude.{◌≡◌, ◌++◌, ◌∷◌, [], IfSome, IfOk, Ok, true, Vec, length};
ghost use Rattle.source_patterns.specs.Answers.{ExpandGives, ExpandCause};
ghost use Rattle.source_patterns.specs.Items.{items_within, ItemMeans, PatternMeans, ItemsMean};
ghost use Rattle.source_patterns.specs.Patterns.{is_pattern, WalksFor};
ghost use Rattle.source_patterns.specs.Walked.{ItemsWalk};

use crate::ExpandError;
use crate::given::{Given, with_matches};
use crate::matches::{matches_of, too_many};
use crate::patterns::is_pattern;
use bp_faults::limits::MOST_LIST_ITEMS;
use bp_faults::{Path, Payload, Place};
use bp_props::Source;
use path_patterns::Directories;
use std::alloc::Global;

/// The items, unless they and so many more are too many.
fn within(alloc: Global, left: usize, at: Place, items: Given) -> Result<Given, ExpandError>
    ensures { ExpandGives (λ more. more) (λ o. items_within left at items ≡ o) (λ walked. ⊥) result }
{
    if items.len().saturating_add(left) > MOST_LIST_ITEMS {
        return Err(ExpandError::Bad(too_many(alloc, at, "list")?));
    }
    Ok(items)
}

/// The items and the matches of a pattern, behind which so many more stand.
fn with_pattern<D: Directories>(
    alloc: Global,
    dirs: &mut D,
    dir: &Path,
    items: Given,
    left: usize,
    source: &Source,
) -> Result<Given, ExpandError>
    requires pattern { is_pattern dir.now source.now ≡ true }
    requires ready { D.IsReady dirs.old }
    ensures gives { IfSome (D.held dirs.old) (λ held. ExpandGives (λ more. more)
        (PatternMeans held dir.now items left source.now) (WalksFor dir.now source.now) result) }
    ensures held { D.held dirs.new ≡ D.held dirs.old }
    ensures cause { ExpandCause (D.faults dirs.old) (D.faults dirs.new) result }
    ensures kept { D.kept dirs.new ≡ D.kept dirs.old }
    ensures ready { D.IsReady dirs.new }
{
    let found = matches_of(alloc, dirs, dir, source)?;
    let more = with_matches(items, source.item.at, found)?;
    within(alloc, left, source.item.at, more)
}

/// The items and what comes of a source behind them.
fn with_item<D: Directories>(
    alloc: Global,
    dirs: &mut D,
    dir: &Path,
    items: Given,
    left: usize,
    source: &Source,
) -> Result<Given, ExpandError>
    requires ready { D.IsReady dirs.old }
    ensures gives { IfSome (D.held dirs.old) (λ held. ExpandGives (λ more. more)
        (ItemMeans held dir.now items left source.now) (WalksFor dir.now source.now) result) }
    ensures held { D.held dirs.new ≡ D.held dirs.old }
    ensures cause { ExpandCause (D.faults dirs.old) (D.faults dirs.new) result }
    ensures kept { D.kept dirs.new ≡ D.kept dirs.old }
    ensures ready { D.IsReady dirs.new }
{
    if is_pattern(dir, source) {
        return with_pattern(alloc, dirs, dir, items, left, source);
    }
    Ok(items.with(source.copy(alloc)?)?)
}

/// What comes of the sources of a list.
pub fn expanded<D: Directories>(
    alloc: Global,
    dirs: &mut D,
    dir: &Path,
    sources: &[Source],
) -> Result<Vec<Source>, ExpandError>
    requires ready { D.IsReady dirs.old }
    ensures gives { IfSome (D.held dirs.old) (λ held. ExpandGives (λ items. items.items)
        (ItemsMean held dir.now [] sources.now) (ItemsWalk held dir.now [] sources.now) result) }
    ensures held { D.held dirs.new ≡ D.held dirs.old }
    ensures cause { ExpandCause (D.faults dirs.old) (D.faults dirs.new) result }
    ensures kept { D.kept dirs.new ≡ D.kept dirs.old }
    ensures ready { D.IsReady dirs.new }
{
    let mut items = Given::empty(alloc);
    let mut left = sources.len();
    'sources: for source in sources {
        left -= 1;
        items = with_item(alloc, dirs, dir, items, left, source)?;
    }
    Ok(items.into_vec())
}
