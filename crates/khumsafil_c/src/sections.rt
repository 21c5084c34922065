// Exports `khumsafil::sections` to C. Each export passes its arguments on, under the same clauses.
ghost use Rattle.std.specs.Prelude.{◌≡◌};
ghost use Rattle.section.specs.Section.{read_of};
ghost use Rattle.section.specs.Answer.{reading_code, key_code};

// The section that the payload is, in one number: 0 in the low 8 bits and the fields above, or the refusal alone.
#[unsafe(no_mangle)]
pub extern "C" fn khumsafil_raw_section_read(payload: &[u8]) -> u64
    ensures { result ≡ reading_code (read_of payload.now) }
{
    khumsafil::sections::khumsafil_raw_section_read(payload)
}

// The rest of the key of an NRT-IT, in one number: 0 in the low 8 bits and the two fields above, or the refusal alone.
#[unsafe(no_mangle)]
pub extern "C" fn khumsafil_raw_section_key(payload: &[u8]) -> u64
    ensures { result ≡ key_code (read_of payload.now) }
{
    khumsafil::sections::khumsafil_raw_section_key(payload)
}
