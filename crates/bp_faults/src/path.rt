ghost use Rattle.std.specs.Prelude.{◌≡◌, ◌==◌, [], IfOk, IfSome, IsTrue, IsSome, ◌↔◌};
ghost use Rattle.std.specs.List.{list_all, slice_split};
ghost use Rattle.bp_faults.specs.Paths.{is_component, is_normal};

use crate::{OutOfMemory, Text};
use std::alloc::Global;
use std::cmp::Ordering;
use std::hash::{Hash, Hasher};
use std::marker::Model;

/// A path in normal form. Contracts see it as the list of its bytes.
///
/// Its components are joined by `/`, and none of them is empty, `.` or `..`. The root directory is
/// the empty path.
#[derive(Debug, Drop)]
pub struct Path {
    text: Text,
}

impl Model for Path {
    ghost use Rattle.std.specs.Prelude.{List, ℕ, IsTrue};
    ghost use Rattle.bp_faults.specs.Paths.{is_normal};

    ghost Value = { List ℕ };

    ghost view = { λ p. p.text };

    ghost invariant = { λ p. IsTrue (is_normal p.text) };
}

fn is_component_text(component: &str) -> bool
    ensures { result ≡ is_component component.now }
{
    !matches!(component, "" | "." | "..")
}

fn has_only_components(text: &str) -> bool
    ensures { result ≡ list_all is_component (slice_split (λ c. c == 47) text.now) }
{
    text.split('/')
        .all(|component| is_component_text(component))
}

fn is_normal_text(text: &str) -> bool
    ensures { result ≡ is_normal text.now }
{
    match text {
        "" => true,
        _ => has_only_components(text),
    }
}

impl Path {
    ghost use Rattle.bp_faults.specs.Paths.{is_normal};

    /// The path of a text, where it is in normal form.
    pub fn new(text: Text) -> Option<Path>
        ensures normal { IsSome result ↔ IsTrue (is_normal text) }
        ensures same { IfSome result (λ path. path ≡ text) }
    {
        if is_normal_text(text.as_str()) {
            Some(Path { text })
        } else {
            None
        }
    }

    /// The root directory. It takes no memory.
    pub fn root(alloc: Global) -> Path
        ensures { result ≡ [] }
    {
        Path {
            text: Text::new(String::new(alloc)),
        }
    }

    /// The path as a text.
    pub fn as_text(&self) -> &Text
        ensures same { result.now ≡ self.now }
        ensures normal { IsTrue (is_normal self.now) }
    {
        &self.text
    }

    /// The path as a slice.
    pub fn as_str(&self) -> &str
        ensures { result.now ≡ self.now }
    {
        self.text.as_str()
    }

    /// The path's text. It takes no memory.
    pub fn into_text(self) -> Text
        ensures same { result ≡ self }
        ensures normal { IsTrue (is_normal self) }
    {
        self.text
    }

    /// The same path in memory of its own.
    pub fn copy(&self, alloc: Global) -> Result<Path, OutOfMemory>
        ensures { IfOk result (λ copy. copy ≡ self.now) }
    {
        Ok(Path {
            text: self.text.copy(alloc)?,
        })
    }
}

impl PartialEq for Path {
    ghost use Rattle.std.specs.Str.{bytes_eq};
    ghost use Rattle.std.specs.Cmp.{partial_equiv_from_equiv};
    ghost use Rattle.std.specs.Cmp.Lexicographic.{nat_list_eq_equiv};

    ghost eq = { bytes_eq };

    ghost laws = { partial_equiv_from_equiv nat_list_eq_equiv };

    fn eq(&self, other: &Path) -> bool {
        self.text == other.text
    }
}

impl Eq for Path {
    ghost use Rattle.std.specs.Cmp.Lexicographic.{nat_list_eq_equiv};

    ghost laws = { nat_list_eq_equiv };
}

impl PartialOrd for Path {
    ghost use Rattle.std.specs.Prelude.{Some};
    ghost use Rattle.std.specs.Ordering.{nat_cmp};
    ghost use Rattle.std.specs.Cmp.Lexicographic.{slice_cmp, texts_po};

    ghost partial_cmp = { λ x y. Some (slice_cmp nat_cmp x y) };

    ghost laws = { texts_po };

    fn partial_cmp(&self, other: &Path) -> Option<Ordering> {
        Some(self.cmp(other))
    }
}

/// Paths compare by their bytes. File order, which goes by components, is another.
impl Ord for Path {
    ghost use Rattle.std.proofs.Common.{rules};
    ghost use Rattle.std.specs.Ordering.{nat_cmp};
    ghost use Rattle.std.specs.Cmp.Lexicographic.{slice_cmp, nat_list_cmp_total, texts_ties};

    ghost cmp = { slice_cmp nat_cmp };

    ghost total = { nat_list_cmp_total };

    ghost matches_partial_cmp = { Prim.search rules };

    ghost matches_eq = { texts_ties };

    fn cmp(&self, other: &Path) -> Ordering {
        self.text.cmp(&other.text)
    }
}

impl Hash for Path {
    ghost use Rattle.std.proofs.Common.{rules};
    ghost use Rattle.std.specs.Hash as fed;
    ghost use Rattle.std.specs.Cmp.Rules.{hashing};

    ghost hash_input = { fed.str };

    ghost respects_eq = { Prim.search (hashing, rules) };

    fn hash<H: Hasher>(&self, state: &mut H) {
        self.text.hash(state);
    }
}
