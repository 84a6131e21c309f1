ghost use Rattle.std.specs.Prelude.{◌≡◌, ◌≤◌, List, length, IfOk};
ghost use Rattle.bp_faults.specs.Answers.{Tells};
ghost use Rattle.bp_faults.specs.declared.limits.TheConstants.{LARGEST_FILE};
ghost use Rattle.bp_parser.specs.Trees.{tree_view};
ghost use Rattle.bp_load.specs.Directories.{directory_of};
ghost use Rattle.bp_load.specs.Texts.{AsText};
ghost use Rattle.bp_load.specs.Halves.{CanParse, TellsTrees};
ghost use Rattle.bp_load.specs.Trees.{placed_of, placed_file, SourceTextMeans, SourceFileMeans};

use crate::LoadError;
use crate::directory::Directory;
use crate::not_utf8::not_utf8;
use bp_faults::{OutOfMemory, Path, Text};
use bp_lexer::tokens;
use bp_parser::{Def, FileTree, parse};
use std::alloc::Global;
use std::hash::{DefaultHasher, Hasher};

/// A file as it is parsed: its directory, by components and as a path, its tree, how many bytes it has, and a number
/// that is made of them all where it sets a name, and else 0.
#[derive(Drop)]
pub struct Parsed {
    pub directory: Directory,
    pub dir: Path,
    pub tree: FileTree,
    pub bytes: usize,
    pub sum: u64,
}

/// The directory of a file, as a path.
fn dir_of(alloc: Global, file: &Path) -> Result<Path, OutOfMemory>
    ensures { IfOk result (λ dir. dir ≡ directory_of file.now) }
{
    let path = file.as_text().as_str();
    match path.rfind('/') {
        Some(end) => {
            let dir = Text::from_str(alloc, &path[..end])?;
            Ok(Path::new(dir).unwrap_or(Path::root(alloc)))
        }
        None => Ok(Path::root(alloc)),
    }
}

/// The tree of a text.
fn tree_of(alloc: Global, text: &str, number: u32) -> Result<FileTree, LoadError>
    requires { length text.now ≤ LARGEST_FILE }
    ensures { Tells tree_view (SourceTextMeans number text.now) result }
{
    let tokens = tokens(alloc, text, number)?;
    parse(alloc, text, tokens.as_slice())
}

/// The tree of the bytes of a file, which must be UTF-8.
fn tree_of_bytes(alloc: Global, bytes: &[u8], number: u32) -> Result<FileTree, LoadError>
    requires { length bytes.now ≤ LARGEST_FILE }
    ensures { Tells tree_view (AsText number bytes.now (SourceTextMeans number bytes.now)) result }
{
    match str::from_utf8(bytes) {
        Ok(text) => tree_of(alloc, text, number),
        Err(error) => Err(LoadError::Bad(not_utf8(alloc, bytes, error.valid_up_to(), number))),
    }
}

/// How many definitions of a file are modules. The others set names.
pub fn count_modules(tree: &FileTree) -> usize {
    tree.defs
        .iter()
        .filter(|def| matches!(def, Def::Module { .. }))
        .count()
}

/// A number that is made of all bytes of a file.
fn sum_of(bytes: &[u8]) -> u64 {
    let mut hasher = DefaultHasher::new();
    hasher.write(bytes);
    hasher.finish()
}

/// A file, parsed.
fn parse_file(alloc: Global, file: &(Path, Vec<u8>), number: u32) -> Result<Parsed, LoadError>
    requires { length file.now.1.items ≤ LARGEST_FILE }
    ensures { Tells placed_of (SourceFileMeans number (file.now.0, file.now.1.items)) result }
{
    let tree = tree_of_bytes(alloc, file.1.as_slice(), number)?;
    let sum = if count_modules(&tree) < tree.defs.len() {
        sum_of(file.1.as_slice())
    } else {
        0
    };
    Ok(Parsed {
        directory: Directory::of(alloc, &file.0)?,
        dir: dir_of(alloc, &file.0)?,
        tree,
        bytes: file.1.len(),
        sum,
    })
}

/// Files parsed one after another. The first has the number.
pub fn all_parsed(
    alloc: Global,
    files: &[(Path, Vec<u8>)],
    number: u32,
) -> Result<Vec<Parsed>, LoadError>
    requires { CanParse number files.now }
    ensures { TellsTrees number files.now result }
{
    let mut all = Vec::new(alloc);
    let mut next = number;
    'files: for file in files {
        all.push(parse_file(alloc, file, next)?)?;
        next += 1;
    }
    Ok(all)
}
