//! The version of the library.

ghost use Rattle.std.specs.Prelude.{◌≡◌};
ghost use Rattle.dcsctp_c.specs.Exports.{version_number};

// The version that `include/dcsctp.h` names.
const MAJOR: u32 = 0;

const MINOR: u32 = 1;

const PATCH: u32 = 0;

/// The version, as one number.
#[unsafe(no_mangle)]
pub extern "C" fn dcsctp_version() -> u32
    ensures { result ≡ version_number 0 1 0 }
{
    MAJOR * 65_536 + MINOR * 256 + PATCH
}
