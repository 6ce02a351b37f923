//! The rows of IANA's registries of special-purpose addresses. The newest RFC in them is RFC 9665, of June 2025.
ghost use Rattle.std.specs.Prelude.{◌≡◌, All};
ghost use Rattle.ipnet_base.specs.Address.{IPv4, IPv6};
ghost use Rattle.ipnet_base.specs.Network.{IsNetwork};
ghost use Rattle.ipnet_info.specs.Registries.{ipv4_registry, ipv6_registry};
ghost use Rattle.ipnet_info.specs.RegistryRows.{blocks_of};

/// A row of a registry: the number of the first address of its block, the prefix length of the block, the name of the
/// row, and the RFC that assigns the block.
#[derive(Clone, Copy)]
pub(crate) struct Row(
    pub(crate) u128,
    pub(crate) u8,
    pub(crate) &'static str,
    pub(crate) &'static str,
);

/// The registry of IPv4.
const IPV4: &[Row] = &[
    Row(0, 8, "This network", "RFC 791"),
    Row(0, 32, "This host on this network", "RFC 1122"),
    Row(0x0a00_0000, 8, "Private-Use", "RFC 1918"),
    Row(0x6440_0000, 10, "Shared Address Space", "RFC 6598"),
    Row(0x7f00_0000, 8, "Loopback", "RFC 1122"),
    Row(0xa9fe_0000, 16, "Link Local", "RFC 3927"),
    Row(0xac10_0000, 12, "Private-Use", "RFC 1918"),
    Row(0xc000_0000, 24, "IETF Protocol Assignments", "RFC 6890"),
    Row(
        0xc000_0000,
        29,
        "IPv4 Service Continuity Prefix",
        "RFC 7335",
    ),
    Row(0xc000_0008, 32, "IPv4 dummy address", "RFC 7600"),
    Row(0xc000_0009, 32, "Port Control Protocol Anycast", "RFC 7723"),
    Row(
        0xc000_000a,
        32,
        "Traversal Using Relays around NAT Anycast",
        "RFC 8155",
    ),
    Row(0xc000_00aa, 32, "NAT64/DNS64 Discovery", "RFC 8880"),
    Row(0xc000_00ab, 32, "NAT64/DNS64 Discovery", "RFC 8880"),
    Row(0xc000_0200, 24, "Documentation (TEST-NET-1)", "RFC 5737"),
    Row(0xc01f_c400, 24, "AS112-v4", "RFC 7535"),
    Row(0xc034_c100, 24, "AMT", "RFC 7450"),
    Row(
        0xc058_6300,
        24,
        "Deprecated (6to4 Relay Anycast)",
        "RFC 7526",
    ),
    Row(0xc058_6302, 32, "6a44-relay anycast address", "RFC 6751"),
    Row(0xc0a8_0000, 16, "Private-Use", "RFC 1918"),
    Row(
        0xc0af_3000,
        24,
        "Direct Delegation AS112 Service",
        "RFC 7534",
    ),
    Row(0xc612_0000, 15, "Benchmarking", "RFC 2544"),
    Row(0xc633_6400, 24, "Documentation (TEST-NET-2)", "RFC 5737"),
    Row(0xcb00_7100, 24, "Documentation (TEST-NET-3)", "RFC 5737"),
    Row(0xf000_0000, 4, "Reserved", "RFC 1112"),
    Row(0xffff_ffff, 32, "Limited Broadcast", "RFC 919"),
];

/// The registry of IPv6.
const IPV6: &[Row] = &[
    Row(1, 128, "Loopback Address", "RFC 4291"),
    Row(0, 128, "Unspecified Address", "RFC 4291"),
    Row(
        0x0000_0000_0000_0000_0000_ffff_0000_0000,
        96,
        "IPv4-mapped Address",
        "RFC 4291",
    ),
    Row(
        0x0064_ff9b_0000_0000_0000_0000_0000_0000,
        96,
        "IPv4-IPv6 Translat.",
        "RFC 6052",
    ),
    Row(
        0x0064_ff9b_0001_0000_0000_0000_0000_0000,
        48,
        "IPv4-IPv6 Translat.",
        "RFC 8215",
    ),
    Row(
        0x0100_0000_0000_0000_0000_0000_0000_0000,
        64,
        "Discard-Only Address Block",
        "RFC 6666",
    ),
    Row(
        0x0100_0000_0000_0001_0000_0000_0000_0000,
        64,
        "Dummy IPv6 Prefix",
        "RFC 9780",
    ),
    Row(
        0x2001_0000_0000_0000_0000_0000_0000_0000,
        23,
        "IETF Protocol Assignments",
        "RFC 2928",
    ),
    Row(
        0x2001_0000_0000_0000_0000_0000_0000_0000,
        32,
        "TEREDO",
        "RFC 4380",
    ),
    Row(
        0x2001_0001_0000_0000_0000_0000_0000_0001,
        128,
        "Port Control Protocol Anycast",
        "RFC 7723",
    ),
    Row(
        0x2001_0001_0000_0000_0000_0000_0000_0002,
        128,
        "Traversal Using Relays around NAT Anycast",
        "RFC 8155",
    ),
    Row(
        0x2001_0001_0000_0000_0000_0000_0000_0003,
        128,
        "DNS-SD Service Registration Protocol Anycast",
        "RFC 9665",
    ),
    Row(
        0x2001_0002_0000_0000_0000_0000_0000_0000,
        48,
        "Benchmarking",
        "RFC 5180",
    ),
    Row(
        0x2001_0003_0000_0000_0000_0000_0000_0000,
        32,
        "AMT",
        "RFC 7450",
    ),
    Row(
        0x2001_0004_0112_0000_0000_0000_0000_0000,
        48,
        "AS112-v6",
        "RFC 7535",
    ),
    Row(
        0x2001_0010_0000_0000_0000_0000_0000_0000,
        28,
        "Deprecated (previously ORCHID)",
        "RFC 4843",
    ),
    Row(
        0x2001_0020_0000_0000_0000_0000_0000_0000,
        28,
        "ORCHIDv2",
        "RFC 7343",
    ),
    Row(
        0x2001_0030_0000_0000_0000_0000_0000_0000,
        28,
        "Drone Remote ID Protocol Entity Tags (DETs) Prefix",
        "RFC 9374",
    ),
    Row(
        0x2001_0db8_0000_0000_0000_0000_0000_0000,
        32,
        "Documentation",
        "RFC 3849",
    ),
    Row(
        0x2002_0000_0000_0000_0000_0000_0000_0000,
        16,
        "6to4",
        "RFC 3056",
    ),
    Row(
        0x2620_004f_8000_0000_0000_0000_0000_0000,
        48,
        "Direct Delegation AS112 Service",
        "RFC 7534",
    ),
    Row(
        0x3fff_0000_0000_0000_0000_0000_0000_0000,
        20,
        "Documentation",
        "RFC 9637",
    ),
    Row(
        0x5f00_0000_0000_0000_0000_0000_0000_0000,
        16,
        "Segment Routing (SRv6) SIDs",
        "RFC 9602",
    ),
    Row(
        0xfc00_0000_0000_0000_0000_0000_0000_0000,
        7,
        "Unique-Local",
        "RFC 4193",
    ),
    Row(
        0xfe80_0000_0000_0000_0000_0000_0000_0000,
        10,
        "Link-Local Unicast",
        "RFC 4291",
    ),
];

/// Returns the registry of IPv4.
pub(crate) fn ipv4_rows() -> &'static [Row]
    ensures rows { blocks_of IPv4 result.now ≡ ipv4_registry }
    ensures networks { All (λ block. IsNetwork block.network) (blocks_of IPv4 result.now) }
{
    IPV4
}

/// Returns the registry of IPv6.
pub(crate) fn ipv6_rows() -> &'static [Row]
    ensures rows { blocks_of IPv6 result.now ≡ ipv6_registry }
    ensures networks { All (λ block. IsNetwork block.network) (blocks_of IPv6 result.now) }
{
    IPV6
}
