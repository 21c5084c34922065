// Triggers.
ghost use Rattle.std.specs.Prelude.{◌≡◌};
ghost use Rattle.answers.specs.Answers.{out as out_of};
ghost use Rattle.trigger_answers.specs.Lent.{trigger_lent, belongs_lent};

// Reads the payload as a trigger and puts its numbers at the front of the buffer, or answers the refusal.
pub fn khumsafil_raw_trigger_read(payload: &[u8], fields: &mut [u16]) -> u8
    ensures { out_of result fields.new ≡ trigger_lent payload.now fields.old }
{
    trigger_answers::trigger_read(payload, fields)
}

// Whether a trigger, by its numbers as its reading left them, belongs to the application with an id.
pub fn khumsafil_raw_trigger_belongs(payload: &[u8], fields: &[u16], application: &[u8]) -> bool
    ensures { result ≡ belongs_lent payload.now fields.now application.now }
{
    trigger_answers::trigger_belongs(payload, fields, application)
}
