//! The words of the reports for lines that are refused.
ghost use Rattle.std.specs.Prelude.{◌≡◌};
ghost use Rattle.netset_origins.specs.OriginReports.{network_reason, length_reason, vrp_reason, route_reason};
ghost use Rattle.netset_origins.specs.OriginReports.{ExplainsVrp, ExplainsRoute};

use crate::route_line::RouteCause;
use crate::vrp_line::VrpCause;
use ipnet_lists::{Explanation, LineCause, NO_ENTRY};
use ipnet_origins::PayloadError;
use netset_lib::ArgumentCause;

/// Why a text is not a network with a prefix length.
fn network_reason(cause: ArgumentCause) -> &'static str
    ensures { result.now ≡ network_reason cause }
{
    match cause {
        ArgumentCause::Address => "an address without a prefix length",
        ArgumentCause::Range => "a range: write its networks",
        ArgumentCause::NoEntry(Some(cause)) => cause.text(),
        ArgumentCause::NoEntry(None) => NO_ENTRY,
    }
}

/// Why the greatest prefix length of a VRP is refused.
fn length_reason(error: &PayloadError) -> &'static str
    ensures { result.now ≡ length_reason error.now }
{
    match error {
        PayloadError::MaxLenBelowPrefixLen => "the greatest length is below the prefix length",
        PayloadError::MaxLenAboveWidth => "the greatest length is above 32, or 128 for IPv6",
    }
}

/// Why a line is not a VRP.
pub(crate) fn vrp_reason(cause: &VrpCause) -> &'static str
    ensures { result.now ≡ vrp_reason cause.now }
{
    match cause {
        VrpCause::TooManyFields => "more than five fields",
        VrpCause::Semicolon => "; in the last fields: write # before a comment",
        VrpCause::NoAsn => "the AS number is missing or wrong",
        VrpCause::NoNetwork(cause) => network_reason(*cause),
        VrpCause::NoMaxLen => "the greatest length is missing or wrong",
        VrpCause::RefusedMaxLen(error) => length_reason(error),
    }
}

/// Why a line is not a route.
fn route_reason(cause: RouteCause) -> &'static str
    ensures { result.now ≡ route_reason cause }
{
    match cause {
        RouteCause::NoNetwork(cause) => network_reason(cause),
        RouteCause::NoOrigin => "no single AS number follows the network",
    }
}

impl LineCause for VrpCause {
    ghost explains = { ExplainsVrp };

    fn explain(&self, _: &[u8]) -> Explanation {
        Explanation {
            what: "not a VRP",
            why: Some(vrp_reason(self)),
        }
    }
}

impl LineCause for RouteCause {
    ghost explains = { ExplainsRoute };

    fn explain(&self, _: &[u8]) -> Explanation {
        Explanation {
            what: "not a route",
            why: Some(route_reason(*self)),
        }
    }
}
