ghost use Rattle.std.specs.Prelude.{◌≡◌, List, ℕ, IfOk, OnOk, OnErr, [], ◌++◌, string_bytes};
ghost use Rattle.bp_faults.specs.Texts.{form_bytes};

use crate::OutOfMemory;
use arrayvec::ArrayString;
use std::alloc::Global;
use std::cmp::Ordering;
use std::hash::{Hash, Hasher};
use std::marker::Model;

/// The most bytes that a short text has.
const SHORT: usize = 16;

/// Where the bytes of a text are: those of a short one in the value itself.
#[derive(Debug, Drop)]
enum Form {
    Short(Global, ArrayString<SHORT>),
    Long(String),
}

/// A text in UTF-8. Contracts see it as the list of its bytes.
///
/// One of at most 16 bytes takes no memory beside its own, unless `new` makes it, which keeps its string.
#[derive(Debug)]
pub struct Text {
    form: Form,
}

impl Drop for Text {
    fn drop(self) {
        let Self { form: _form } = self;
    }
}

impl Model for Text {
    ghost Value = { List ℕ };

    ghost view = { λ t. form_bytes t.form };
}

/// Two texts in one string.
fn joined(alloc: Global, first: &str, second: &str) -> Result<String, OutOfMemory>
    ensures { IfOk result (λ both. string_bytes both ≡ first.now ++ second.now) }
{
    let mut both = String::with_capacity(alloc, first.len().saturating_add(second.len()))?;
    both.push_str(first)?;
    both.push_str(second)?;
    Ok(both)
}

impl Text {
    /// The text of a string. It takes no memory.
    pub fn new(text: String) -> Text
        ensures { result ≡ string_bytes text }
    {
        Text {
            form: Form::Long(text),
        }
    }

    /// The text of a string. The memory of a short one is given back.
    pub fn compact(alloc: Global, text: String) -> Text
        ensures { result ≡ string_bytes text }
    {
        let form = match ArrayString::from(text.as_str()) {
            Ok(short) => Form::Short(alloc, short),
            Err(_) => Form::Long(text),
        };
        Text { form }
    }

    /// An empty text, to which so many bytes can be put without any further memory.
    pub fn with_room(alloc: Global, room: usize) -> Result<Text, OutOfMemory>
        ensures { IfOk result (λ text. text ≡ []) }
    {
        let form = if room <= SHORT {
            Form::Short(alloc, ArrayString::new())
        } else {
            Form::Long(String::with_capacity(alloc, room)?)
        };
        Ok(Text { form })
    }

    /// The text as a slice.
    pub fn as_str(&self) -> &str
        ensures { result.now ≡ self.now }
    {
        match &self.form {
            Form::Short(_, text) => text.as_str(),
            Form::Long(text) => text.as_str(),
        }
    }

    /// The text of a slice.
    pub fn from_str(alloc: Global, text: &str) -> Result<Text, OutOfMemory>
        ensures { IfOk result (λ copy. copy ≡ text.now) }
    {
        let form = match ArrayString::from(text) {
            Ok(short) => Form::Short(alloc, short),
            Err(_) => Form::Long(String::from_str(alloc, text)?),
        };
        Ok(Text { form })
    }

    /// Puts a slice at the end.
    pub fn push_str(&mut self, more: &str) -> Result<(), OutOfMemory>
        ensures ok { OnOk result (self.new ≡ self.old ++ more.now) }
        ensures err { OnErr result (self.new ≡ self.old) }
    {
        let long = match &mut self.form {
            Form::Short(alloc, text) => {
                if text.try_push_str(more).is_ok() {
                    return Ok(());
                }
                joined(*alloc, text.as_str(), more)?
            }
            Form::Long(text) => {
                text.push_str(more)?;
                return Ok(());
            }
        };
        self.form = Form::Long(long);
        Ok(())
    }

    /// The same text in memory of its own.
    pub fn copy(&self, alloc: Global) -> Result<Text, OutOfMemory>
        ensures { IfOk result (λ copy. copy ≡ self.now) }
    {
        Text::from_str(alloc, self.as_str())
    }
}

impl PartialEq for Text {
    ghost use Rattle.std.specs.Str.{bytes_eq};
    ghost use Rattle.std.specs.Cmp.{partial_equiv_from_equiv};
    ghost use Rattle.std.specs.Cmp.Lexicographic.{nat_list_eq_equiv};

    ghost eq = { bytes_eq };

    ghost laws = { partial_equiv_from_equiv nat_list_eq_equiv };

    fn eq(&self, other: &Text) -> bool {
        self.as_str() == other.as_str()
    }
}

impl Eq for Text {
    ghost use Rattle.std.specs.Cmp.Lexicographic.{nat_list_eq_equiv};

    ghost laws = { nat_list_eq_equiv };
}

impl PartialOrd for Text {
    ghost use Rattle.std.specs.Prelude.{Some};
    ghost use Rattle.std.specs.Ordering.{nat_cmp};
    ghost use Rattle.std.specs.Cmp.Lexicographic.{slice_cmp, texts_po};

    ghost partial_cmp = { λ x y. Some (slice_cmp nat_cmp x y) };

    ghost laws = { texts_po };

    fn partial_cmp(&self, other: &Text) -> Option<Ordering> {
        Some(self.cmp(other))
    }
}

impl Ord for Text {
    ghost use Rattle.std.proofs.Common.{rules};
    ghost use Rattle.std.specs.Ordering.{nat_cmp};
    ghost use Rattle.std.specs.Cmp.Lexicographic.{slice_cmp, nat_list_cmp_total, texts_ties};

    ghost cmp = { slice_cmp nat_cmp };

    ghost total = { nat_list_cmp_total };

    ghost matches_partial_cmp = { Prim.search rules };

    ghost matches_eq = { texts_ties };

    fn cmp(&self, other: &Text) -> Ordering {
        self.as_str().cmp(other.as_str())
    }
}

impl Hash for Text {
    ghost use Rattle.std.proofs.Common.{rules};
    ghost use Rattle.std.specs.Hash as fed;
    ghost use Rattle.std.specs.Cmp.Rules.{hashing};

    ghost hash_input = { fed.str };

    ghost respects_eq = { Prim.search (hashing, rules) };

    fn hash<H: Hasher>(&self, state: &mut H) {
        self.as_str().hash(state);
    }
}
