//! The names of the classes of a map in its style sheet.
ghost use Rattle.std.specs.Prelude.{◌≡◌, IfOk, string_bytes};
ghost use Rattle.svg_maps.specs.ClassTexts.{class_text};

use ipnet_maps::Class;
use std::alloc::{AllocError, Global};

/// Returns the name of the class, with the number of the set if it is of one of several.
pub(crate) fn class_name(alloc: Global, class: Class) -> Result<String, AllocError>
    ensures { IfOk result (λ name. string_bytes name ≡ class_text class) }
{
    match class {
        Class::Sparse => String::from_str(alloc, "s1"),
        Class::BelowQuarter => String::from_str(alloc, "s2"),
        Class::FromQuarter => String::from_str(alloc, "s3"),
        Class::Whole => String::from_str(alloc, "s4"),
        Class::Removed => String::from_str(alloc, "old"),
        Class::Added => String::from_str(alloc, "new"),
        Class::Mixed => String::from_str(alloc, "mix"),
        Class::KeptPart => String::from_str(alloc, "bothp"),
        Class::KeptWhole => String::from_str(alloc, "both"),
        Class::Overlap => String::from_str(alloc, "ov"),
        Class::Several => String::from_str(alloc, "sev"),
        Class::PartOf(place) => format!(in alloc; "l{place} pale"),
        Class::WholeOf(place) => format!(in alloc; "l{place}"),
    }
}
