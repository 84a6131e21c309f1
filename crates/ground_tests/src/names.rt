use crate::rows::check_row;
use bp_faults::{Item, OutOfMemory, Place, Text};
use bp_names::{NameSet, NameTable};
use std::alloc::Global;
use std::test::Fail;

/// Names with their numbers, in the order in which they are learnt, each with the first number of its name.
const LEARNT: &[(&str, u32, u32)] = &[
    ("b", 0, 0),
    ("a", 1, 1),
    ("b", 2, 0),
    ("", 3, 3),
    ("ab", 4, 4),
    ("a", 5, 1),
];

/// Names with their first numbers, if they were learnt.
const KNOWN: &[(&str, Option<u32>)] = &[
    ("a", Some(1)),
    ("ab", Some(4)),
    ("", Some(3)),
    ("c", None),
];

// The names that the set takes for new, or for known, when they aren't.
fn wrongly_learnt(alloc: Global, set: &mut NameSet<'static>) -> Result<String, OutOfMemory> {
    let mut wrong = String::new(alloc);
    for (name, number, first) in LEARNT {
        let found = set.learn(*name)?;
        check_row(&mut wrong, (*name, *number), found, number == first)?;
    }
    Ok(wrong)
}

// The names that the set knows though they weren't learnt, or doesn't know.
fn wrongly_known(alloc: Global, set: &NameSet<'static>) -> Result<String, OutOfMemory> {
    let mut wrong = String::new(alloc);
    for (name, first) in KNOWN {
        check_row(&mut wrong, *name, set.knows(*name), first.is_some())?;
    }
    Ok(wrong)
}

#[test]
fn a_set_knows_the_names_that_it_learnt(rt: HostRuntime) -> Result<(), Fail> {
    let mut set = NameSet::new(rt.alloc());
    let wrong = wrongly_learnt(rt.alloc(), &mut set)?;
    assert!(rt; wrong.is_empty(), "{wrong}");
    let wrong = wrongly_known(rt.alloc(), &set)?;
    assert!(rt; wrong.is_empty(), "{wrong}");
    assert_eq!(rt; set.len(), 4);
    Ok(())
}

// The names that the table gives another first number when it learns them.
fn wrongly_numbered(alloc: Global, table: &mut NameTable<'static>) -> Result<String, OutOfMemory> {
    let mut wrong = String::new(alloc);
    for (name, number, first) in LEARNT {
        let found = table.learn(*name, *number)?.unwrap_or(*number);
        check_row(&mut wrong, (*name, *number), found, *first)?;
    }
    Ok(wrong)
}

// The names that the table has with another number, or wrongly has or lacks.
fn wrongly_found(alloc: Global, table: &NameTable<'static>) -> Result<String, OutOfMemory> {
    let mut wrong = String::new(alloc);
    for (name, first) in KNOWN {
        check_row(&mut wrong, *name, table.number_of(*name), *first)?;
    }
    Ok(wrong)
}

#[test]
fn a_table_has_the_first_numbers_of_names(rt: HostRuntime) -> Result<(), Fail> {
    let mut table = NameTable::new(rt.alloc());
    let wrong = wrongly_numbered(rt.alloc(), &mut table)?;
    assert!(rt; wrong.is_empty(), "{wrong}");
    let wrong = wrongly_found(rt.alloc(), &table)?;
    assert!(rt; wrong.is_empty(), "{wrong}");
    assert_eq!(rt; table.len(), 4);
    Ok(())
}

/// The texts `b`, `a` and `b`.
fn three_texts(alloc: Global) -> Result<Vec<Text>, OutOfMemory> {
    let b = Text::from_str(alloc, "b")?;
    let mut texts = Vec::new(alloc);
    texts.push(b.copy(alloc)?)?;
    texts.push(Text::from_str(alloc, "a")?)?;
    texts.push(b)?;
    Ok(texts)
}

/// The numbers of `b` and `a` in a table of three texts.
fn numbers_in(alloc: Global, texts: &[Text]) -> Result<(Option<u32>, Option<u32>), OutOfMemory> {
    if texts.len() != 3 {
        return Ok((None, None));
    }
    let numbers = NameTable::of(alloc, texts)?;
    Ok((numbers.number_of("b"), numbers.number_of("a")))
}

#[test]
fn a_table_of_texts_has_their_first_places(rt: HostRuntime) -> Result<(), Fail> {
    let texts = three_texts(rt.alloc())?;
    assert_eq!(rt;
        numbers_in(rt.alloc(), texts.as_slice())?,
        (Some(0), Some(1))
    );
    Ok(())
}

/// One item.
fn one_item(alloc: Global, word: &str) -> Result<Vec<Item>, OutOfMemory> {
    let mut items = Vec::new(alloc);
    items.push(Item {
        text: Text::from_str(alloc, word)?,
        at: Place::start(1),
    })?;
    Ok(items)
}

/// The number of `b` in a table of one item, and how many names that has.
fn number_in(alloc: Global, items: &[Item]) -> Result<(Option<u32>, usize), OutOfMemory> {
    if items.len() != 1 {
        return Ok((None, 0));
    }
    let numbers = NameTable::of(alloc, items)?;
    Ok((numbers.number_of("b"), numbers.len()))
}

#[test]
fn a_table_of_items_has_their_names(rt: HostRuntime) -> Result<(), Fail> {
    let items = one_item(rt.alloc(), "b")?;
    assert_eq!(rt; number_in(rt.alloc(), items.as_slice())?, (Some(0), 1));
    Ok(())
}
