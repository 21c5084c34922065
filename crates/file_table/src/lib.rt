// Which table a shelf file is, in the numbers that a host gets: the file is read and nothing is loaded.
#![tactic(auto)]

ghost use Rattle.std.specs.Prelude.{◌≡◌};
ghost use Rattle.answers.specs.Answers.{out as out_of};
ghost use Rattle.file_table.specs.Answer.{file_table_lent};

use tables::Table;

// Puts the numbers of the file's table at the front of the buffer, or answers the refusal.
pub fn table_code(file: &[u8], fields: &mut [u16]) -> u8
    ensures { out_of result fields.new ≡ file_table_lent file.now fields.old }
{
    match file::read_file(file) {
        Err(refusal) => u8::from(refusal),
        Ok(found) => {
            let header = found.header;
            let lengths = found.lengths;
            let table = Table {
                key: header.key,
                version: u16::from(header.version),
                last: u16::from(header.last),
                lengths,
            };
            answers::done(tables::put_table(table, fields))
        }
    }
}
