ghost use Rattle.std.specs.Prelude.{◌≡◌, ◌==◌, IfOk, OnOk, codes, not};
ghost use Rattle.std.specs.Str.{bytes_eq};
ghost use Rattle.std.specs.List.{list_any};
ghost use Rattle.bp_faults.specs.Characters.{is_control};
ghost use Rattle.property_values.specs.Paths.{is_barred, is_absolute, is_refused as refused, parts, components};
ghost use Rattle.property_values.specs.Paths.{path_below};
ghost use Rattle.property_values.specs.Inside.{path_and, behind};
ghost use Rattle.bp_faults.specs.Paths.{is_component as component};
ghost use Rattle.property_values.specs.Fits.{is_empty};

use bp_faults::{OutOfMemory, Path, Text, is_barred_in_paths, is_control};
use std::alloc::Global;

/// Whether a text holds a control character.
pub(crate) fn has_control(text: &str) -> bool
    ensures { result ≡ list_any is_control text.now }
{
    text.as_bytes()
        .iter()
        .any(|byte| is_control(char::from(*byte)))
}

fn is_barred_byte(byte: u8) -> bool
    ensures { result ≡ is_barred byte }
{
    is_barred_in_paths(char::from(byte)) || byte == b'*'
}

fn has_barred(text: &str) -> bool
    ensures { result ≡ list_any is_barred text.now }
{
    text.as_bytes().iter().any(|byte| is_barred_byte(*byte))
}

fn starts_at_root(text: &str) -> bool
    ensures { result ≡ is_absolute text.now }
{
    text.starts_with('/')
}

fn goes_up(text: &str) -> bool
    ensures { result ≡ list_any (λ part. bytes_eq part (codes "..")) (parts text.now) }
{
    text.split('/').any(|part| part == "..")
}

/// Whether a path item is refused.
pub(crate) fn is_refused(text: &str) -> bool
    ensures { result ≡ refused text.now }
{
    starts_at_root(text) || goes_up(text) || has_barred(text)
}

fn is_component(part: &str) -> bool
    ensures { result ≡ component part.now }
{
    !matches!(part, "" | "." | "..")
}

fn put_behind(path: &mut Text, component: &str) -> Result<(), OutOfMemory>
    ensures { OnOk result (path.new ≡ behind path.old component.now) }
{
    if !path.as_str().is_empty() {
        path.push_str("/")?;
    }
    path.push_str(component)
}

fn put_part(path: &mut Text, part: &str) -> Result<(), OutOfMemory>
    ensures { OnOk result (path.new ≡ path_and path.old part.now) }
{
    if is_component(part) {
        put_behind(path, part)
    } else {
        Ok(())
    }
}

// A copy of a directory's path, with room for an item behind it.
fn with_room(alloc: Global, dir: &Text, item: &str) -> Result<Text, OutOfMemory>
    ensures { IfOk result (λ copy. copy ≡ dir.now) }
{
    let dir = dir.as_str();
    let mut copy = Text::with_room(alloc, dir.len() + 1 + item.len())?;
    copy.push_str(dir)?;
    Ok(copy)
}

/// The path of an item below a directory.
pub(crate) fn path_below(alloc: Global, dir: &Path, item: &str) -> Result<Text, OutOfMemory>
    ensures { IfOk result (λ path. path ≡ path_below dir.now item.now) }
{
    let mut path = with_room(alloc, dir.as_text(), item)?;
    for part in item.split('/') {
        put_part(&mut path, part)?;
    }
    Ok(path)
}

/// The directory of an item below another. The path of an item is in normal form.
#[tactic(auto, using(crate::proofs::Joined::normal_placed))]
pub(crate) fn dir_below(alloc: Global, dir: &Path, item: &str) -> Result<Path, OutOfMemory>
    ensures { IfOk result (λ path. path ≡ path_below dir.now item.now) }
{
    let path = path_below(alloc, dir, item)?;
    Ok(Path::new(path).unwrap_or(Path::root(alloc)))
}

/// Whether a path item has a component.
pub(crate) fn has_component(item: &str) -> bool
    ensures { result ≡ not (is_empty (components item.now)) }
{
    item.split('/').any(|part| is_component(part))
}
