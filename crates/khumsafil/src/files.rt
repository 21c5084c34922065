// Files that need no shelf: which table one is, its listing, a number as a file has it, and the file of the table that carries a body.
ghost use Rattle.std.specs.Prelude.{◌≡◌};
ghost use Rattle.answers.specs.Answers.{out as out_of};
ghost use Rattle.file_number.specs.Answer.{number_lent};
ghost use Rattle.file_table.specs.Answer.{file_table_lent};
ghost use Rattle.file_listing.specs.Answer.{list_lent};
ghost use Rattle.writer.specs.Answer.{label};
ghost use Rattle.writer_file.specs.Answer.{file_lent};

use writer::Label;

// Which table a file is.
pub fn khumsafil_raw_file_table(file: &[u8], fields: &mut [u16]) -> u8
    ensures { out_of result fields.new ≡ file_table_lent file.now fields.old }
{
    file_table::table_code(file, fields)
}

// The number at the front of some bytes, in one number: the refusal alone, or 0 in the low 8 bits, and above the number and how
// many bytes it takes.
pub fn khumsafil_raw_file_number(bytes: &[u8]) -> u32
    ensures { result ≡ number_lent bytes.now }
{
    file_number::number_code(bytes)
}

// Lists a file.
pub fn khumsafil_raw_file_list(file: &[u8], out: &mut [u8]) -> u32
    ensures { out_of result out.new ≡ list_lent file.now out.old }
{
    file_listing::list_code(file, out)
}

// Writes the file of the table that carries the body.
pub fn khumsafil_raw_writer_file(
    table: u8,
    extension: u16,
    version: u8,
    body: &[u8],
    out: &mut [u8],
) -> u32
    ensures { out_of result out.new ≡ file_lent (label table extension version) body.now out.old }
{
    let given = Label {
        table,
        extension,
        version,
    };
    writer_file::file_code(given, body, out)
}
