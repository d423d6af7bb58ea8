ghost use Rattle.std.specs.Prelude.{◌≡◌};
ghost use Rattle.highway_hash.specs.Riegeli.{riegeli_hash};

use highway_hash::{RIEGELI, hash_lanes};

/// The number of what these calls are. It rises when a struct or a meaning changes.
const VERSION: u32 = 1;

/// The number of what these calls are, which rises when a struct or a meaning changes.
#[unsafe(no_mangle)]
pub extern "C" fn riegeli_version() -> u32
    ensures { result ≡ 1 }
{
    VERSION
}

/// The hash of the bytes under the key of the format.
#[unsafe(no_mangle)]
pub extern "C" fn riegeli_hash(bytes: &[u8]) -> u64
    ensures { result ≡ riegeli_hash bytes.now }
{
    hash_lanes(&RIEGELI, bytes)
}
