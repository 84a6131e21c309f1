ghost use Rattle.std.specs.Prelude.{◌≡◌, ◌&&◌, nat_lt, map, IsTrue, IfOk, option_map};
ghost use Rattle.std.specs.Str.{bytes_eq};
ghost use Rattle.property_tables.specs.Inside.{first_rank, wanted_in, is_wanted, offered_of};
ghost use Rattle.property_tables.specs.Tables.{property_of, names_ascend, property_named};

use crate::Row;
use crate::offer::{Offer, Wanted};
use bp_faults::{OutOfMemory, Text};
use std::alloc::Global;
use std::marker::Model;

/// Those of some rows, sorted by name, that are wanted. Contracts see them as the list of their properties.
#[derive(Drop)]
pub struct PropTable {
    rows: &'static [Offer],
    wanted: Wanted,
}

impl Model for PropTable {
    ghost use Rattle.std.specs.Prelude.{List, map, IsTrue};
    ghost use Rattle.property_tables.specs.Inside.{wanted_in};
    ghost use Rattle.property_tables.specs.Tables.{Property, property_of, names_ascend};

    ghost Value = { List Property };

    ghost view = { λ t. wanted_in t.wanted t.rows.now };

    ghost invariant = { λ t. IsTrue (names_ascend (map (λ o. property_of o.row) t.rows.now)) };
}

/// Whether a row's name begins with a lower byte than the name that is wanted, or is empty where that isn't.
fn begins_lower(own: &str, name: &str) -> bool
    ensures { result ≡ nat_lt (first_rank own.now) (first_rank name.now) }
{
    own.as_bytes().first() < name.as_bytes().first()
}

/// Whether a row has the name, and is wanted.
fn is_meant(offer: &Offer, name: &str, wanted: Wanted) -> bool
    ensures { result ≡ (bytes_eq offer.now.row.name.now name.now && is_wanted wanted (offered_of offer.now)) }
{
    offer.row.name == name && wanted.wants(offer)
}

fn row_of(found: Option<&Offer>) -> Option<Row>
    ensures { result ≡ option_map (λ offer. offer.now.row) found.entry }
{
    match found {
        Some(offer) => Some(offer.row),
        None => None,
    }
}

fn names_of(alloc: Global, rows: &[Offer], wanted: Wanted) -> Result<Vec<Text>, OutOfMemory>
    ensures { IfOk result (λ names. names.items ≡ map (λ p. p.name) (wanted_in wanted rows.now)) }
{
    let mut names = Vec::new(alloc);
    for offer in rows {
        if wanted.wants(offer) {
            names.push(Text::from_str(alloc, offer.row.name)?)?;
        }
    }
    Ok(names)
}

impl PropTable {
    /// The table of these rows.
    pub(crate) fn of(rows: &'static [Offer], wanted: Wanted) -> PropTable
        requires { IsTrue (names_ascend (map (λ o. property_of o.row) rows.now)) }
        ensures { result ≡ wanted_in wanted rows.now }
    {
        PropTable { rows, wanted }
    }

    /// The row of a name, where the table has one. It takes no memory.
    pub fn row(&self, name: &Text) -> Option<Row>
        ensures { option_map property_of result ≡ property_named self.now name.now }
    {
        let name = name.as_str();
        // Names ascend, so no row in front of this place begins as the name does.
        let start = self
            .rows
            .partition_point(|offer| begins_lower(offer.row.name, name));
        let rest = &self.rows[start..];
        let wanted = self.wanted;
        row_of(rest.iter().find(|offer| is_meant(offer, name, wanted)))
    }

    /// The names of the properties, in their order.
    pub fn names(&self, alloc: Global) -> Result<Vec<Text>, OutOfMemory>
        ensures { IfOk result (λ names. names.items ≡ map (λ p. p.name) self.now) }
    {
        names_of(alloc, self.rows, self.wanted)
    }
}
