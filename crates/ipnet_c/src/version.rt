//! The version of the library.
ghost use Rattle.std.specs.Prelude.{◌≡◌};
ghost use Rattle.ipnet_c.specs.Version.{version_number};

/// Returns the version of the library as one number: a million for each major version, a thousand for each minor
/// version, and one for each patch. It is `IPNET_VERSION` of the header that belongs to the library.
///
/// ```text
/// 1001000    version 1.1.0
/// ```
#[unsafe(no_mangle)]
pub extern "C" fn ipnet_version() -> u32
    ensures { result ≡ version_number }
{
    1_001_000
}
