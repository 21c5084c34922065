// Exports `khumsafil::triggers` to C. Each export passes its arguments on, under the same clauses.
ghost use Rattle.std.specs.Prelude.{◌≡◌};
ghost use Rattle.answers.specs.Answers.{out as out_of};
ghost use Rattle.trigger_answers.specs.Lent.{trigger_lent, belongs_lent};

// Reads the payload as a trigger and puts its numbers at the front of the buffer, or answers the refusal.
#[unsafe(no_mangle)]
pub extern "C" fn khumsafil_raw_trigger_read(payload: &[u8], fields: &mut [u16]) -> u8
    ensures { out_of result fields.new ≡ trigger_lent payload.now fields.old }
{
    khumsafil::triggers::khumsafil_raw_trigger_read(payload, fields)
}

// Whether a trigger, by its numbers as its reading left them, belongs to the application with an id.
#[unsafe(no_mangle)]
pub extern "C" fn khumsafil_raw_trigger_belongs(
    payload: &[u8],
    fields: &[u16],
    application: &[u8],
) -> bool
    ensures { result ≡ belongs_lent payload.now fields.now application.now }
{
    khumsafil::triggers::khumsafil_raw_trigger_belongs(payload, fields, application)
}
