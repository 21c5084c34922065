// A table in the numbers that a host is told it in: its key, its version, its last number, and how many bytes each of its sixteen
// sections has.
#![tactic(auto)]

ghost use Rattle.std.specs.Prelude.{◌≡◌, ◌++◌, ◌≤◌, length, drop};
ghost use Rattle.answers.specs.Answers.{done, out as out_of};
ghost use Rattle.tables.specs.Numbers.{table_numbers, table_put};

use key::Key;
use refusal::Refusal;

// A section that is not there has length 0.
#[derive(Clone, Copy, Debug, PartialEq, Eq)]
pub struct Table {
    pub key: Key,
    pub version: u16,
    pub last: u16,
    pub lengths: [u16; 16],
}

// The numbers before the lengths, and how many lengths there are.
const HEAD: usize = 7;

const LENGTHS: usize = 16;

// How many numbers a table is told in.
const FIELDS: usize = HEAD + LENGTHS;

// Puts a table's numbers at the front of the buffer.
fn put(t: Table, fields: &mut [u16])
    requires { 23 ≤ length fields.old }
    ensures { fields.new ≡ table_numbers t ++ drop 23 fields.old }
{
    let key = t.key;
    fields[0] = u16::from(key.table);
    fields[1] = key.extension;
    fields[2] = key.service;
    fields[3] = key::high(key.start);
    fields[4] = key::low(key.start);
    fields[5] = t.version;
    fields[6] = t.last;
    fields[HEAD..FIELDS].copy_from_slice(&t.lengths);
}

// Puts a table's numbers at the front of the buffer; 15 where they do not fit.
pub fn put_table(t: Table, fields: &mut [u16]) -> Result<(), Refusal>
    ensures { out_of (done result) fields.new ≡ table_put t fields.old }
{
    if fields.len() < FIELDS {
        return Err(Refusal::OutputTooSmall);
    }
    put(t, fields);
    Ok(())
}
