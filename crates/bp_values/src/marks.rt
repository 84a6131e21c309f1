ghost use Rattle.std.specs.Prelude.{◌≡◌, ℕ, List, Bool, true, false, not, ◌||◌, map, IfOk, OnOk, IsTrue};
ghost use Rattle.std.specs.Str.{bytes_eq};
ghost use Rattle.bp_parser.specs.Trees.{tree_of, entry_of, definition_of, trees_then, terms_then, entries_then};
ghost use Rattle.bp_parser.specs.Trees.{no_tree, no_term, no_entry, term_of};
ghost use Rattle.bp_values.specs.Inside.{is_noted, is_extended_or, has_noted, noted_items, noted_terms, noted_entries};

use bp_faults::{OutOfMemory, Place};
use bp_names::NameSet;
use bp_parser::{Def, EntryExpr, Expr};
use std::alloc::Global;

/// The names that a file extends, and those of them to which it has referred so far. That it refers to
/// others makes no difference, so nothing is kept of these.
#[derive(Drop)]
pub struct Marks<'a> {
    extended: NameSet<'a>,
    met: NameSet<'a>,
}

impl<'a> Marks<'a> {
    /// The marks before the first of a file's definitions.
    pub fn of(alloc: Global, defs: &'a [Def]) -> Result<Marks<'a>, OutOfMemory>
        ensures { IfOk result (λ marks. (q : List ℕ)
            → is_noted marks q ≡ not (is_extended_or false q (map definition_of defs.now))) }
    {
        let mut extended = NameSet::new(alloc);
        'defs: for def in defs {
            if let Def::Extend { name, .. } = def {
                extended.learn(name.as_str())?;
            }
        }
        Ok(Marks {
            extended,
            met: NameSet::new(alloc),
        })
    }

    /// Whether the file has referred to a name, or never extends it.
    pub fn has(&self, name: &str) -> bool
        ensures { result ≡ is_noted self.now name.now }
    {
        !self.extended.knows(name) || self.met.knows(name)
    }

    /// Whether the file extends no name.
    fn are_idle(&self) -> bool
        ensures { IsTrue result → (q : List ℕ) → is_noted self.now q ≡ true }
    {
        self.extended.len() == 0
    }

    /// The file refers to a name.
    fn note(&mut self, name: &'a str) -> Result<(), OutOfMemory>
        ensures { OnOk result ((q : List ℕ) → is_noted self.new q ≡ (is_noted self.old q || bytes_eq q name.now)) }
    {
        if self.extended.knows(name) {
            self.met.learn(name)?;
        }
        Ok(())
    }
}

/// Notes the names in an expression, to which the file refers from then on.
pub fn mark<'a>(used: &mut Marks<'a>, expr: &'a Expr) -> Result<(), OutOfMemory>
    ensures { OnOk result ((q : List ℕ) → is_noted used.new q ≡ has_noted (is_noted used.old q) q (tree_of expr.now)) }
{
    if used.are_idle() {
        return Ok(());
    }
    note_names(used, expr)
}

/// Notes the names in the values of entries.
pub fn mark_entries<'a>(used: &mut Marks<'a>, entries: &'a [EntryExpr]) -> Result<(), OutOfMemory>
    ensures { OnOk result ((q : List ℕ) → is_noted used.new q
        ≡ noted_entries (is_noted used.old q) q (entries_then (map entry_of entries.now) no_entry)) }
{
    if used.are_idle() {
        return Ok(());
    }
    note_entries(used, entries)
}

#[cycle(marks)]
fn note_names<'a>(used: &mut Marks<'a>, expr: &'a Expr) -> Result<(), OutOfMemory>
    ensures { OnOk result ((q : List ℕ) → is_noted used.new q ≡ has_noted (is_noted used.old q) q (tree_of expr.now)) }
{
    match expr {
        Expr::Name(_, name) => used.note(name.as_str()),
        Expr::List(_, items) => note_items(used, items.as_slice()),
        Expr::Map(literal) => note_entries(used, literal.entries.as_slice()),
        Expr::Sum(first, terms) => {
            note_names(used, first)?;
            note_terms(used, terms.as_slice())
        }
        _ => Ok(()),
    }
}

#[cycle(marks)]
fn note_items<'a>(used: &mut Marks<'a>, items: &'a [Expr]) -> Result<(), OutOfMemory>
    ensures { OnOk result ((q : List ℕ) → is_noted used.new q
        ≡ noted_items (is_noted used.old q) q (trees_then (map tree_of items.now) no_tree)) }
{
    'items: for item in items {
        note_names(used, item)?;
    }
    Ok(())
}

#[cycle(marks)]
fn note_terms<'a>(used: &mut Marks<'a>, terms: &'a [(Place, Expr)]) -> Result<(), OutOfMemory>
    ensures { OnOk result ((q : List ℕ) → is_noted used.new q
        ≡ noted_terms (is_noted used.old q) q (terms_then (map term_of terms.now) no_term)) }
{
    'terms: for (_, term) in terms {
        note_names(used, term)?;
    }
    Ok(())
}

#[cycle(marks)]
fn note_entries<'a>(used: &mut Marks<'a>, entries: &'a [EntryExpr]) -> Result<(), OutOfMemory>
    ensures { OnOk result ((q : List ℕ) → is_noted used.new q
        ≡ noted_entries (is_noted used.old q) q (entries_then (map entry_of entries.now) no_entry)) }
{
    'entries: for entry in entries {
        note_names(used, &entry.value)?;
    }
    Ok(())
}
