// The bench's section writer.
ghost use Rattle.std.specs.Prelude.{◌≡◌};
ghost use Rattle.answers.specs.Answers.{out as out_of};
ghost use Rattle.writer.specs.Answer.{label, count_lent, section_lent};

use writer::Label;

// How many sections a body of so many bytes makes in a table with that id, in one number: the refusal alone, or 0 in the low 8 bits and
// the count above.
pub fn khumsafil_raw_writer_count(table: u8, length: usize) -> u16
    ensures { result ≡ count_lent table length }
{
    writer::count_code(table, length)
}

// Writes section k of the table that carries the body.
pub fn khumsafil_raw_writer_section(
    table: u8,
    extension: u16,
    version: u8,
    body: &[u8],
    k: u8,
    out: &mut [u8],
) -> u32
    ensures { out_of result out.new ≡ section_lent (label table extension version) body.now k out.old }
{
    let given = Label {
        table,
        extension,
        version,
    };
    writer::section_code(given, body, k, out)
}
