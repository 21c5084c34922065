// Exports `khumsafil::loops` to C. Each export passes its arguments on, under the same clauses.
ghost use Rattle.std.specs.Prelude.{◌≡◌};
ghost use Rattle.descriptors.specs.Loop.{step_of};
ghost use Rattle.descriptors.specs.Mark.{is_trigger_tap};
ghost use Rattle.descriptors.specs.Answer.{step_code};

// What stands at a place of the loop, in one number: the refusal alone, or 0 in the low 8 bits and what was found above.
#[unsafe(no_mangle)]
pub extern "C" fn khumsafil_raw_descriptor_step(bytes: &[u8], at: usize) -> u64
    ensures { result ≡ step_code (step_of bytes.now at) }
{
    khumsafil::loops::khumsafil_raw_descriptor_step(bytes, at)
}

// Whether the descriptor at a place marks a trigger Tap.
#[unsafe(no_mangle)]
pub extern "C" fn khumsafil_raw_descriptor_is_trigger_tap(bytes: &[u8], at: usize) -> bool
    ensures { result ≡ is_trigger_tap bytes.now at }
{
    khumsafil::loops::khumsafil_raw_descriptor_is_trigger_tap(bytes, at)
}
