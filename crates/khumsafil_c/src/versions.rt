// Exports `khumsafil::versions` to C. Each export passes its arguments on, under the same clauses.
ghost use Rattle.std.specs.Prelude.{◌≡◌};
ghost use Rattle.khumsafil.specs.Version.{library_version};

// The version, as the header that this library goes with has it.
#[unsafe(no_mangle)]
pub extern "C" fn khumsafil_raw_version() -> u32
    ensures { result ≡ library_version }
{
    khumsafil::versions::khumsafil_raw_version()
}
