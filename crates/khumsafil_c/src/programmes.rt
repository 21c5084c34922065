// Exports `khumsafil::programmes` to C. Each export passes its arguments on, under the same clauses.
ghost use Rattle.std.specs.Prelude.{◌≡◌};
ghost use Rattle.answers.specs.Answers.{out as out_of};
ghost use Rattle.programme.specs.Reading.{own_of};
ghost use Rattle.programme_answers.specs.Lent.{read_lent, items_lent, own_code};
ghost use Rattle.programme_listing.specs.Answer.{list_lent};

// The fields before the items, at the front of the buffer, or the refusal.
#[unsafe(no_mangle)]
pub extern "C" fn khumsafil_raw_programme_read(payload: &[u8], fields: &mut [u32]) -> u8
    ensures { out_of result fields.new ≡ read_lent payload.now fields.old }
{
    khumsafil::programmes::khumsafil_raw_programme_read(payload, fields)
}

// The items from a place on, the one there taken for item `number`, as many as there is room for, their numbers at the front of the
// buffer, in one number: the refusal alone; or 0 in the low 8 bits, and above what was found, how many items and the place after them.
#[unsafe(no_mangle)]
pub extern "C" fn khumsafil_raw_programme_items(
    payload: &[u8],
    at: usize,
    number: u8,
    fields: &mut [u64],
) -> u64
    ensures { out_of result fields.new ≡ items_lent payload.now at number fields.old }
{
    khumsafil::programmes::khumsafil_raw_programme_items(payload, at, number, fields)
}

// The table's own loop from a place, in one number: the refusal alone, or 0 in the low 8 bits, and above count, place and length.
#[unsafe(no_mangle)]
pub extern "C" fn khumsafil_raw_programme_own(payload: &[u8], at: usize) -> u64
    ensures { result ≡ own_code (own_of payload.now at) }
{
    khumsafil::programmes::khumsafil_raw_programme_own(payload, at)
}

// The text for staff of a shelf file, at the front of the output, in one number: the refusal alone, or 0 in the low 8 bits, and above
// how many bytes it has.
#[unsafe(no_mangle)]
pub extern "C" fn khumsafil_raw_programme_list(file: &[u8], out: &mut [u8]) -> u64
    ensures { out_of result out.new ≡ list_lent file.now out.old }
{
    khumsafil::programmes::khumsafil_raw_programme_list(file, out)
}
