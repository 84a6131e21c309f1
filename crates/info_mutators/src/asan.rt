ghost use Rattle.std.specs.Prelude.{◌≡◌};
ghost use Rattle.info_mutators.specs.Sanitize.{is_never, is_on, is_asan, asan_or};

use module_graph::Variation;
use module_rules::{Record, is_true_or};

/// Whether a module refuses the sanitizer.
pub fn is_never(own: &Record<'_>) -> bool
    ensures { result ≡ is_never own.now }
{
    is_true_or(false, &own.given().never)
}

/// Whether a module asks for the sanitizer and doesn't refuse it.
pub fn is_on(own: &Record<'_>) -> bool
    ensures { result ≡ is_on own.now }
{
    is_true_or(false, &own.given().address) && !is_never(own)
}

/// Whether a variation is that of the sanitizer.
pub fn is_asan(variation: Variation) -> bool
    ensures { result ≡ is_asan variation }
{
    matches!(variation, Variation::Asan)
}

/// The variation of a module that is on, and else the other.
pub fn asan_or(other: Variation, own: &Record<'_>) -> Variation
    ensures { result ≡ asan_or other own.now }
{
    if is_on(own) { Variation::Asan } else { other }
}
