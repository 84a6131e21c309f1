ghost use Rattle.std.specs.Prelude.{◌≡◌};
ghost use Rattle.std.specs.List.{list_any};
ghost use Rattle.source_patterns.specs.Patterns.{tail_behind, tail_below, tail_of, is_pattern};

use bp_faults::Path;
use bp_props::Source;
use path_patterns::has_star;

/// What a text has behind another; nothing where it doesn't begin with that.
fn tail_behind<'a>(first: &str, text: &'a str) -> &'a str
    ensures { result.now ≡ tail_behind first.now text.now }
{
    match text.strip_prefix(first) {
        Some(rest) => rest,
        None => "",
    }
}

/// What a path has behind a directory; nothing where it doesn't lie below it.
fn tail_below<'a>(dir: &str, path: &'a str) -> &'a str
    ensures { result.now ≡ tail_below dir.now path.now }
{
    if dir.is_empty() {
        return path;
    }
    tail_behind("/", tail_behind(dir, path))
}

/// The components of a source behind the directory.
pub fn tail_of<'a>(dir: &Path, source: &'a Source) -> &'a str
    ensures { result.now ≡ tail_of dir.now source.now }
{
    tail_below(dir.as_str(), source.item.text.as_str())
}

/// Whether a source is a pattern.
pub fn is_pattern(dir: &Path, source: &Source) -> bool
    ensures { result ≡ is_pattern dir.now source.now }
{
    !source.names_module() && has_star(tail_of(dir, source))
}

/// Whether some source is a pattern.
pub fn has_pattern(dir: &Path, sources: &[Source]) -> bool
    ensures { result ≡ list_any (is_pattern dir.now) sources.now }
{
    for source in sources {
        if is_pattern(dir, source) {
            return true;
        }
    }
    false
}
