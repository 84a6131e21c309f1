ghost use Rattle.std.specs.Prelude.{◌≡◌, ◌≤◌, length, IfOk, IfSome, option_map, map};
ghost use Rattle.std.specs.Str.Lines.{lines};
ghost use Rattle.std.specs.FinMap.{get};
ghost use Rattle.std.specs.Option.{option_copied};
ghost use Rattle.fault_view.specs.View.{Softly, bytes_within, text_within, AreFileNames, AreAllNames, AreModules};

use crate::excerpt::as_text;
use crate::module_names::module_names as names_of_text;
use bp_faults::limits::{LARGEST_FILE, LARGEST_LIST_FILE};
use bp_faults::{OutOfMemory, Text};
use bp_ports::{ReadError, Store};
use std::alloc::{AllocError, Global};

/// What a file holds, where it can be read and is no larger than the limit.
pub fn source<S: Store>(
    alloc: Global,
    store: &mut S,
    path: &Text,
    limit: u64,
) -> Result<Option<Vec<u8>>, OutOfMemory>
    ensures files { S.files store.new ≡ S.files store.old }
    ensures reads { S.read_faults store.old ≤ S.read_faults store.new }
    ensures exact { IfOk result (λ held. Softly (S.files store.old) (S.read_faults store.old) (S.read_faults store.new)
        (λ files. option_map (λ bytes. bytes.items) held ≡ bytes_within limit (get files path.now))) }
    ensures bound { IfOk result (λ held. IfSome held (λ bytes. length bytes.items ≤ limit)) }
{
    match store.read(alloc, path, limit) {
        Ok(bytes) => Ok(Some(bytes)),
        Err(ReadError::OutOfMemory) => Err(OutOfMemory),
        Err(_) => Ok(None),
    }
}

// The text that a file holds.
fn text<S: Store>(
    alloc: Global,
    store: &mut S,
    path: &Text,
    limit: u64,
) -> Result<Option<Text>, OutOfMemory>
    ensures files { S.files store.new ≡ S.files store.old }
    ensures reads { S.read_faults store.old ≤ S.read_faults store.new }
    ensures exact { IfOk result (λ held. Softly (S.files store.old) (S.read_faults store.old) (S.read_faults store.new)
        (λ files. held ≡ text_within limit (get files path.now))) }
    ensures bound { IfOk result (λ held. IfSome held (λ text. length text ≤ limit)) }
{
    let Some(bytes) = source(alloc, store, path, limit)? else {
        return Ok(None);
    };
    match as_text(&bytes) {
        Some(text) => Ok(Some(Text::from_str(alloc, text)?)),
        None => Ok(None),
    }
}

// The names of the modules of a file.
fn file_names<S: Store>(alloc: Global, store: &mut S, path: &Text) -> Result<Vec<Text>, OutOfMemory>
    ensures files { S.files store.new ≡ S.files store.old }
    ensures reads { S.read_faults store.old ≤ S.read_faults store.new }
    ensures exact { IfOk result (λ names. Softly (S.files store.old) (S.read_faults store.old) (S.read_faults store.new)
        (λ files. AreFileNames files path.now names.items)) }
{
    match text(alloc, store, path, LARGEST_FILE)? {
        Some(text) => names_of_text(alloc, text.as_str()),
        None => Ok(Vec::new(alloc)),
    }
}

// The names of the modules of some files, one file after another.
fn all_names<S: Store>(
    alloc: Global,
    store: &mut S,
    paths: &[&str],
) -> Result<Vec<Text>, OutOfMemory>
    ensures files { S.files store.new ≡ S.files store.old }
    ensures reads { S.read_faults store.old ≤ S.read_faults store.new }
    ensures exact { IfOk result (λ names. Softly (S.files store.old) (S.read_faults store.old) (S.read_faults store.new)
        (λ files. AreAllNames files (map (λ path. path.now) paths.now) names.items)) }
{
    let mut names = Vec::new(alloc);
    for path in paths {
        let path = Text::from_str(alloc, path)?;
        let mut more = file_names(alloc, store, &path)?;
        names.append(&mut more)?;
    }
    Ok(names)
}

fn lines_of(alloc: Global, text: &str) -> Result<Vec<&str>, AllocError>
    ensures { IfOk result (λ paths. map (λ path. path.now) paths.items ≡ lines text.now) }
{
    text.lines().collect(alloc)
}

/// The names of the modules of all files of a list, or where there is none, of one file.
pub fn module_names<S: Store>(
    alloc: Global,
    store: &mut S,
    list: Option<&Text>,
    path: &Text,
) -> Result<Vec<Text>, OutOfMemory>
    ensures files { S.files store.new ≡ S.files store.old }
    ensures reads { S.read_faults store.old ≤ S.read_faults store.new }
    ensures exact { IfOk result (λ names. Softly (S.files store.old) (S.read_faults store.old) (S.read_faults store.new)
        (λ files. AreModules (option_copied list.entry) files path.now names.items)) }
{
    let Some(list) = list else {
        return file_names(alloc, store, path);
    };
    match text(alloc, store, list, LARGEST_LIST_FILE)? {
        Some(text) => {
            let paths = lines_of(alloc, text.as_str())?;
            all_names(alloc, store, &paths)
        }
        None => Ok(Vec::new(alloc)),
    }
}
