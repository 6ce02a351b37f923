//! The laws of the validity of origins: functions with nothing to run, whose contracts are the laws.
ghost use Rattle.std.specs.Prelude.{◌≡◌, ℕ, ◌↔◌, List, Contains, Option, None, Some};
ghost use Rattle.ipnet_base.specs.Network.{Network, IsNetwork, IsSubnetOf};
ghost use Rattle.ipnet.specs.NetworkOf.{ip_network};
ghost use Rattle.ipnet_origins.specs.Origins.{IsCovered, IsMatched, IsValidity};
ghost use Rattle.ipnet_origins.specs.OriginImages.{IsOriginImageOf};
ghost use Rattle.ipnet_origins.specs.declared.payload.Payload.{Payload};
ghost use Rattle.ipnet_origins.specs.declared.origins.Validity.{Validity};

/// A payload covers a route if and only if its network contains each address of the route's network.
pub fn covering_is_containment()
    ensures { (route : Network) (vrp : Payload) → IsNetwork route
        → IsCovered route vrp ↔ IsSubnetOf route (ip_network vrp.network) }
{}

/// A route has at most one validity. It depends only on which payloads there are, not on their order or number.
pub fn one_validity()
    ensures unique { (vrps : List Payload) (route : Network) (origin : Option ℕ) (v w : Validity)
        → IsValidity vrps route origin v → IsValidity vrps route origin w → v ≡ w }
    ensures members { (vrps others : List Payload) (route : Network) (origin : Option ℕ) (v : Validity)
        → ((vrp : Payload) → Contains vrps vrp ↔ Contains others vrp)
        → IsValidity vrps route origin v → IsValidity others route origin v }
{}

/// No payload matches a route without a single origin, or a route whose origin is AS 0.
pub fn some_origins_never_match()
    ensures none { (route : Network) (vrp : Payload) → ¬ (IsMatched route None vrp) }
    ensures zero { (route : Network) (vrp : Payload) → ¬ (IsMatched route (Some 0) vrp) }
{}

/// An image has one validity for each route, whichever payloads its bytes are read as.
pub fn one_validity_of_image()
    ensures { (bytes : List ℕ) (vrps others : List Payload) (route : Network) (origin : Option ℕ) (v : Validity)
        → IsOriginImageOf bytes vrps → IsOriginImageOf bytes others → IsValidity vrps route origin v
        → IsValidity others route origin v }
{}
