ghost use Rattle.std.specs.Prelude.{◌≡◌};
ghost use Rattle.target_mutators.specs.Images.{is_for_device, is_in_vendor, is_in_recovery, is_in_system};

use crate::arch_split::is_of_class;
use crate::targets::Class;
use module_graph::Variation;
use module_rules::{Record, is_true_or};

/// Whether a variation is a target that is a device.
pub fn is_for_device(target: Variation) -> bool
    ensures { result ≡ is_for_device target }
{
    match target {
        Variation::Target(target) => is_of_class(Class::Device, target),
        _ => false,
    }
}

/// Whether a module is in the image `vendor`.
pub fn is_in_vendor(own: &Record<'_>) -> bool
    ensures { result ≡ is_in_vendor own.now }
{
    is_true_or(false, &own.given().vendor) || is_true_or(false, &own.given().vendor_available)
}

/// Whether a module is in the image `recovery`.
pub fn is_in_recovery(own: &Record<'_>) -> bool
    ensures { result ≡ is_in_recovery own.now }
{
    is_true_or(false, &own.given().recovery) || is_true_or(false, &own.given().recovery_available)
}

/// Whether a module is in the system's own image.
pub fn is_in_system(own: &Record<'_>) -> bool
    ensures { result ≡ is_in_system own.now }
{
    !(is_true_or(false, &own.given().vendor) || is_true_or(false, &own.given().recovery))
}
