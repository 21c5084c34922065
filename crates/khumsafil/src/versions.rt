// The library's own version.
ghost use Rattle.std.specs.Prelude.{◌≡◌};
ghost use Rattle.khumsafil.specs.Version.{library_version};

// 65,536 for each major version, 256 for each minor one, 1 for each change that adds nothing.
const VERSION: u32 = 1280;

// The version, as the header that this library goes with has it.
pub fn khumsafil_raw_version() -> u32
    ensures { result ≡ library_version }
{
    VERSION
}
