//! Which version of the library this is.
ghost use Rattle.std.specs.Prelude.{◌≡◌};

/// The version of the library: its major number times 10000, its minor number times 100, and its patch number, as
/// verity.h has them.
#[unsafe(no_mangle)]
pub extern "C" fn verity_version() -> u32
    ensures { result ≡ 20100 }
{
    2 * 10000 + 100
}
