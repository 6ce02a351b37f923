//! Whether an answer has an address.
ghost use Rattle.std.specs.Prelude.{◌↔◌, IsTrue};
ghost use Rattle.ipnet_base.specs.Address.{Address};
ghost use Rattle.ipnet_sets.specs.Members.{IsMember};
ghost use Rattle.netset_forms.specs.FormAnswers.{IsEnoughIf};
ghost use Rattle.netset_forms.specs.Forms.{IsOfFamilies};

use crate::form::FormRequest;
use ipnet_sets::IpSet;
use netset_lib::Families;

/// Returns whether the set has an address.
fn has_any(set: &IpSet) -> bool
    ensures { IsTrue result ↔ ((x : Address) × IsMember set.now x) }
{
    set.has_ipv4() || set.has_ipv6()
}

/// Returns whether the set has an address of the families.
fn has_address(families: Families, set: &IpSet) -> bool
    ensures { IsTrue result ↔ ((x : Address) × IsOfFamilies families (IsMember set.now) x) }
{
    match families {
        Families::Named => has_any(set),
        Families::Ipv4 => set.has_ipv4(),
        Families::Ipv6 => set.has_ipv6(),
        Families::Both => has_any(set),
    }
}

/// Returns whether the set has an address of the families that are asked for, or none is needed.
pub(crate) fn is_enough(needs_address: bool, request: FormRequest<'_>, set: &IpSet) -> bool
    ensures { IsEnoughIf needs_address request.entry (IsMember set.now) result }
{
    !needs_address || has_address(request.families, set)
}
