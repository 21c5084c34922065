// The bench's section writer (document 02, request 1): as few sections as will do for a body, each asked for by its
// number and written into a lent buffer. It writes no NRT-IT (request 4), since a label does not say all of its key.
#![tactic(auto)]

ghost use Rattle.std.specs.Prelude.{◌≡◌, ◌++◌, ◌+◌, ◌≤◌, length, drop};
ghost use Rattle.answers.specs.Answers.{out as out_of};
ghost use Rattle.writer.specs.Writer.{last_of, end_of, count_of, header_of, section_of, write_of, write};
ghost use Rattle.writer.specs.Answer.{count_lent, section_lent};

use refusal::Refusal;

// What a bench gives to every section of its table.
#[derive(Clone, Copy)]
pub struct Label {
    pub table: u8,
    pub extension: u16,
    pub version: u8,
}

// The longest body of one section, and of a table.
pub const FULL: usize = section::LARGEST - section::HEADER;

pub const MOST: usize = section::SECTIONS * FULL;

// Private indicator 1 with both reserved bits 1, above the section length; and the two reserved bits before the version.
const INDICATORS: u16 = 0x7000;

const RESERVED: u8 = 192;

// What a count of sections is multiplied by to begin at bit 8 of an answer.
const COUNT: u16 = 256;

// The last section number of a body of so many bytes.
fn last_of(length: usize) -> usize
    ensures { result ≡ last_of length }
{
    if length == 0 { 0 } else { (length - 1) / FULL }
}

// Where a body that starts at `start` in a body of `length` bytes ends.
fn end_of(length: usize, start: usize) -> usize
    requires { start ≤ length }
    ensures { result ≡ end_of length start }
{
    if length - start < FULL {
        length
    } else {
        start + FULL
    }
}

// How many sections a body of so many bytes makes in a table of that id, or 59 or 40.
pub fn count_sections(table: u8, length: usize) -> Result<u8, Refusal>
    ensures { result ≡ count_of table length }
{
    if table == key::NRT_IT {
        return Err(Refusal::AskedForNrtIt);
    }
    if MOST < length {
        return Err(Refusal::WriterBodyTooLong);
    }
    let last = last_of(length);
    let count = last + 1;
    Ok(count as u8)
}

// The eight header bytes of section `k` with a body of `length` bytes, high bit first.
fn header(label: Label, k: u8, last: u8, length: usize) -> [u8; 8]
    requires { (length ≤ 1016) × (label.version ≤ 31) }
    ensures { result ≡ header_of label k last length }
{
    let counted = section::SHORTEST + length;
    let [high, low] = (INDICATORS + counted as u16).to_be_bytes();
    let [upper, lower] = label.extension.to_be_bytes();
    let current = RESERVED + 2 * label.version + 1;
    [label.table, high, low, upper, lower, current, k, last]
}

// Section k with these bytes as its body, into a buffer of just its size.
fn fill(label: Label, k: u8, last: u8, body: &[u8], out: &mut [u8])
    requires { (length body.now ≤ 1016) × (label.version ≤ 31) × (length out.old ≡ 8 + length body.now) }
    ensures { out.new ≡ section_of label k last body.now }
{
    let head = header(label, k, last, body.len());
    out[..section::HEADER].copy_from_slice(&head);
    out[section::HEADER..].copy_from_slice(body);
}

// Section k of the table that carries the body, written at the front of the output; bytes past it stay as they were.
pub fn write_section(label: Label, body: &[u8], k: u8, out: &mut [u8]) -> Result<usize, Refusal>
    ensures { write result out.new ≡ write_of label body.now k out.old }
{
    let count = count_sections(label.table, body.len())?;
    if section::HIGHEST_VERSION < label.version {
        return Err(Refusal::WriterVersionAbove31);
    }
    let last = count - 1;
    if last < k {
        return Err(Refusal::WriterKAboveLast);
    }
    let start = FULL * usize::from(k);
    let end = end_of(body.len(), start);
    let size = section::HEADER + (end - start);
    if out.len() < size {
        return Err(Refusal::OutputTooSmall);
    }
    fill(label, k, last, &body[start..end], &mut out[..size]);
    Ok(size)
}

// How many sections a body of so many bytes makes in a table of that id, in one number as a host gets it: the refusal alone, or
// 0 in the low 8 bits and the count above.
#[tactic(auto, unfolding(crate::specs::Answer::count_lent))]
pub fn count_code(table: u8, length: usize) -> u16
    ensures { result ≡ count_lent table length }
{
    match count_sections(table, length) {
        Ok(count) => u16::from(count) * COUNT,
        Err(refusal) => refusal as u16,
    }
}

// Writes section k of the table that carries the body; the answer is a refusal, or a size from bit 8 up.
pub fn section_code(label: Label, body: &[u8], k: u8, out: &mut [u8]) -> u32
    ensures { out_of result out.new ≡ section_lent label body.now k out.old }
{
    answers::sized(write_section(label, body, k, out))
}
