ghost use Rattle.std.specs.Prelude.{◌≡◌};
ghost use Rattle.command_words.specs.Values.{mutator_number};

/// The names of the mutators, in the order in which they run.
pub const MUTATORS: [&str; 11] = [
    "defaults_deps",
    "defaults",
    "arch",
    "image",
    "link",
    "deps",
    "plugins",
    "per_src",
    "sanitize",
    "sdk",
    "info",
];

/// The number of the mutator of a name, from 1: so many mutators have run after it.
pub fn mutator_number(name: &str) -> Option<u32>
    ensures { result ≡ mutator_number name.now }
{
    match name {
        "defaults_deps" => Some(1),
        "defaults" => Some(2),
        "arch" => Some(3),
        "image" => Some(4),
        "link" => Some(5),
        "deps" => Some(6),
        "plugins" => Some(7),
        "per_src" => Some(8),
        "sanitize" => Some(9),
        "sdk" => Some(10),
        "info" => Some(11),
        _ => None,
    }
}
