ghost use Rattle.std.specs.Prelude.{◌≡◌, [], ◌∷◌, ◌++◌, IfOk, length};
ghost use Rattle.source_patterns.specs.Items.{has_path, match_at, with_match, with_matches};

use bp_faults::{Item, OutOfMemory, Payload, Place, Text};
use bp_props::Source;
use std::alloc::Global;
use std::collections::BTreeSet;
use std::marker::Model;

/// The items of a list so far, with a set of their paths. Contracts see it as the list of the items.
#[derive(Drop)]
pub struct Given {
    alloc: Global,
    items: Vec<Source>,
    paths: BTreeSet<Text>,
}

impl Model for Given {
    ghost use Rattle.std.specs.Prelude.{List};
    ghost use Rattle.bp_props.specs.declared.source.Source.{Source};
    ghost use Rattle.source_patterns.specs.Known.{KnowsPaths};

    ghost Value = { List Source };

    ghost view = { λ g. g.items.items };

    ghost invariant = { λ g. KnowsPaths g.paths.keys g.items.items };
}

impl Given {
    /// No items. It takes no memory.
    pub fn empty(alloc: Global) -> Given
        ensures { result ≡ [] }
    {
        Given {
            alloc,
            items: Vec::new(alloc),
            paths: BTreeSet::new(alloc),
        }
    }

    /// How many items there are.
    pub fn len(&self) -> usize
        ensures { result ≡ length self.now }
    {
        self.items.len()
    }

    /// The items. It takes no memory.
    pub fn into_vec(self) -> Vec<Source>
        ensures { result.items ≡ self }
    {
        self.items
    }

    /// Whether some item is this path.
    fn has_path(&self, path: &Text) -> bool
        ensures { result ≡ has_path self.now path.now }
    {
        self.paths.contains(path)
    }

    /// One more item.
    pub fn with(self, source: Source) -> Result<Given, OutOfMemory>
        ensures { IfOk result (λ more. more ≡ self ++ source ∷ []) }
    {
        let Given {
            alloc,
            mut items,
            mut paths,
        } = self;
        if !source.names_module() {
            paths.insert(source.item.text.copy(alloc)?)?;
        }
        items.push(source)?;
        Ok(Given {
            alloc,
            items,
            paths,
        })
    }

    /// A match, unless some item is its path.
    fn with_match(self, at: Place, path: Text) -> Result<Given, OutOfMemory>
        ensures { IfOk result (λ more. more ≡ with_match self at path) }
    {
        if self.has_path(&path) {
            return Ok(self);
        }
        self.with(Source {
            named: false,
            item: Item { text: path, at },
        })
    }
}

/// All matches in turn.
pub fn with_matches(items: Given, at: Place, found: Vec<Text>) -> Result<Given, OutOfMemory>
    ensures { IfOk result (λ more. more ≡ with_matches items at found.items) }
{
    let mut items = items;
    for path in found {
        items = items.with_match(at, path)?;
    }
    Ok(items)
}
