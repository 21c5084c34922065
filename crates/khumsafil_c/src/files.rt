// Exports `khumsafil::files` to C. Each export passes its arguments on, under the same clauses.
ghost use Rattle.std.specs.Prelude.{◌≡◌};
ghost use Rattle.answers.specs.Answers.{out as out_of};
ghost use Rattle.file_number.specs.Answer.{number_lent};
ghost use Rattle.file_table.specs.Answer.{file_table_lent};
ghost use Rattle.file_listing.specs.Answer.{list_lent};
ghost use Rattle.writer.specs.Answer.{label};
ghost use Rattle.writer_file.specs.Answer.{file_lent};

// Which table a file is.
#[unsafe(no_mangle)]
pub extern "C" fn khumsafil_raw_file_table(file: &[u8], fields: &mut [u16]) -> u8
    ensures { out_of result fields.new ≡ file_table_lent file.now fields.old }
{
    khumsafil::files::khumsafil_raw_file_table(file, fields)
}

// The number at the front of some bytes, in one number: the refusal alone, or 0 in the low 8 bits, and above the number and how
// many bytes it takes.
#[unsafe(no_mangle)]
pub extern "C" fn khumsafil_raw_file_number(bytes: &[u8]) -> u32
    ensures { result ≡ number_lent bytes.now }
{
    khumsafil::files::khumsafil_raw_file_number(bytes)
}

// Lists a file.
#[unsafe(no_mangle)]
pub extern "C" fn khumsafil_raw_file_list(file: &[u8], out: &mut [u8]) -> u32
    ensures { out_of result out.new ≡ list_lent file.now out.old }
{
    khumsafil::files::khumsafil_raw_file_list(file, out)
}

// Writes the file of the table that carries the body.
#[unsafe(no_mangle)]
pub extern "C" fn khumsafil_raw_writer_file(
    table: u8,
    extension: u16,
    version: u8,
    body: &[u8],
    out: &mut [u8],
) -> u32
    ensures { out_of result out.new ≡ file_lent (label table extension version) body.now out.old }
{
    khumsafil::files::khumsafil_raw_writer_file(table, extension, version, body, out)
}
