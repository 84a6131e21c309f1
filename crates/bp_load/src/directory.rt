ghost use Rattle.std.specs.Prelude.{◌≡◌, IfOk, List, ℕ};
ghost use Rattle.bp_load.specs.Directories.{directories, is_above};

use bp_faults::{OutOfMemory, Path, Text};
use std::alloc::Global;
use std::cmp::Ordering;
use std::marker::Model;

/// A directory by its components. Contracts see the list of them. Directories compare component by
/// component, a proper prefix first.
#[derive(Debug, Drop)]
pub struct Directory {
    components: Vec<Text>,
}

impl Model for Directory {
    ghost use Rattle.std.specs.Prelude.{List, ℕ};

    ghost Value = { List (List ℕ) };

    ghost view = { λ d. d.components.items };
}

impl Directory {
    ghost use Rattle.bp_load.specs.Directories.{directories, is_above};

    /// The directory of a file.
    pub fn of(alloc: Global, file: &Path) -> Result<Directory, OutOfMemory>
        ensures { IfOk result (λ directory. directory ≡ directories file.now) }
    {
        let mut components = Vec::new(alloc);
        for part in file.as_str().split('/') {
            components.push(Text::from_str(alloc, part)?)?;
        }
        components.pop();
        Ok(Directory { components })
    }

    /// Whether it is above another directory, or the same.
    pub fn is_above(&self, other: &Directory) -> bool
        ensures { result ≡ is_above self.now other.now }
    {
        other
            .components
            .as_slice()
            .starts_with(self.components.as_slice())
    }
}

impl PartialEq for Directory {
    ghost use Rattle.std.specs.Str.{bytes_eq};
    ghost use Rattle.std.specs.Cmp.{partial_equiv_from_equiv};
    ghost use Rattle.std.specs.Cmp.Lexicographic.{pointwise, lists_equiv, nat_list_eq_equiv};

    ghost eq = { pointwise bytes_eq };

    ghost laws = { partial_equiv_from_equiv (lists_equiv nat_list_eq_equiv) };

    fn eq(&self, other: &Directory) -> bool {
        self.components.as_slice() == other.components.as_slice()
    }
}

impl Eq for Directory {
    ghost use Rattle.std.specs.Cmp.Lexicographic.{lists_equiv, nat_list_eq_equiv};

    ghost laws = { lists_equiv nat_list_eq_equiv };
}

impl PartialOrd for Directory {
    ghost use Rattle.std.specs.Prelude.{Some};
    ghost use Rattle.std.specs.Ordering.{nat_cmp};
    ghost use Rattle.std.specs.Cmp.Lexicographic.{slice_cmp, slice_partial_cmp, lists_po, texts_po};

    ghost partial_cmp = { slice_partial_cmp (λ x y. Some (slice_cmp nat_cmp x y)) };

    ghost laws = { lists_po texts_po };

    fn partial_cmp(&self, other: &Directory) -> Option<Ordering> {
        self.components.partial_cmp(&other.components)
    }
}

impl Ord for Directory {
    ghost use Rattle.bp_load.specs.Directories.{directory_cmp};
    ghost use Rattle.std.specs.Ordering.{nat_cmp};
    ghost use Rattle.std.specs.Cmp.Lexicographic.{slice_cmp, nat_list_cmp_total, lists_total, lists_agrees, lists_ties};
    ghost use Rattle.std.specs.Cmp.Lexicographic.{texts_ties};
    ghost use Rattle.std.proofs.Common.{refl};

    ghost cmp = { directory_cmp };

    ghost total = { lists_total nat_list_cmp_total };

    ghost matches_partial_cmp = { λ x y. lists_agrees (λ _ _. refl) x y };

    ghost matches_eq = { λ x y. lists_ties (slice_cmp nat_cmp) texts_ties x y };

    fn cmp(&self, other: &Directory) -> Ordering {
        self.components.cmp(&other.components)
    }
}
