// The library's version, which include/clpi.h has too.
ghost use Rattle.std.specs.Prelude.{◌≡◌};

// 5.0.0 as one number: 10,000 times the major number, 100 times the minor number, and the patch number.
#[unsafe(no_mangle)]
pub extern "C" fn clpi_version() -> u32
    ensures { result ≡ 50000 }
{
    clpi::version::clpi_version()
}
