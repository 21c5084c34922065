// The text for staff: what a shelf file holds of a programme list, as a function of the file's bytes. The text is too long for a buffer
// of its own, so it is written over the output twice: first over no byte of it, which only tells the size, and then where it fits.
#![tactic(auto)]

ghost use Rattle.std.specs.Prelude.{◌≡◌, [], ◌++◌, ◌+◌, ◌<◌, ◌≤◌, length};
ghost use Rattle.base.specs.Below.{every};
ghost use Rattle.file_listing.specs.Words.{lines};
ghost use Rattle.file_listing.specs.Listing.{missing_of};
ghost use Rattle.text.specs.Over.{Wrote};
ghost use Rattle.answers.specs.Answers.{out as out_of};
ghost use Rattle.programme_listing.specs.Inside.{Inside, AllInside};
ghost use Rattle.programme_listing.specs.Answer.{list_lent};
ghost use Rattle.programme_listing.specs.Listing.{section_of, whole_at, end_line, list_text, table_text, text_of, listing, list_of};

use file::Table;
use programme_section::Done;
use refusal::Refusal;

// An output of so many bytes is never too small: 78 of the first line, 20 for each byte of sixteen sections of 1,024, and 10 of the last.
pub const ROOM: usize = 327768;

// Section n, where the file holds it. The output and the place in it are passed apart here and below: see `text`.
fn section_of(out: &mut [u8], at: usize, n: u8, file: &[u8], table: &Table) -> Done
    requires { Inside file.now table.now n }
    ensures wrote { Wrote (section_of file.now table.now.starts table.now.lengths n) out.old at out.new result.at }
    ensures whole_value { result.whole ≡ whole_at file.now table.now.starts table.now.lengths n }
{
    let i = usize::from(n);
    let length = table.lengths[i];
    if length == 0 {
        return Done { at, whole: false };
    }
    let from = table.starts[i];
    let to = from + usize::from(length);
    programme_section::section(out, at, n, &file[from..to])
}

// The sections that the file holds, by rising number.
fn sections(out: &mut [u8], at: usize, file: &[u8], table: &Table) -> Done
    requires { AllInside file.now table.now }
    ensures wrote { Wrote (lines (table.now.header.last + 1) (section_of file.now table.now.starts table.now.lengths)) out.old at out.new result.at }
    ensures whole_value { result.whole ≡ every (table.now.header.last + 1) (whole_at file.now table.now.starts table.now.lengths) }
{
    let mut end = at;
    let mut whole = true;
    for n in 0..table.header.last + 1 {
        let done = section_of(out, end, n, file, table);
        end = done.at;
        whole &= done.whole;
    }
    Done { at: end, whole }
}

// The line of a number that the file lacks.
fn missing_of(out: &mut [u8], at: usize, n: u8, table: &Table) -> usize
    requires { n < 16 }
    ensures { Wrote (missing_of table.now.lengths n) out.old at out.new result }
{
    if table.lengths[usize::from(n)] == 0 {
        return text::line(out, at, b"missing ", u64::from(n));
    }
    at
}

// A line for each number that the file lacks, rising.
fn missing_lines(out: &mut [u8], at: usize, table: &Table) -> usize
    requires { table.now.header.last ≤ 15 }
    ensures { Wrote (lines (table.now.header.last + 1) (missing_of table.now.lengths)) out.old at out.new result }
{
    let mut end = at;
    for k in 0..table.header.last + 1 {
        end = missing_of(out, end, k, table);
    }
    end
}

// The last line.
fn end_line(out: &mut [u8], at: usize, whole: bool) -> usize
    ensures { Wrote (end_line whole) out.old at out.new result }
{
    if whole {
        return text::word(out, at, b"whole\n");
    }
    text::word(out, at, b"not whole\n")
}

// The text of a programme list behind its first line.
fn list_text(out: &mut [u8], at: usize, file: &[u8], table: &Table) -> usize
    requires { AllInside file.now table.now }
    ensures { Wrote (list_text file.now table.now.starts table.now.lengths table.now.header.last) out.old at out.new result }
{
    let done = sections(out, at, file, table);
    let missing = missing_lines(out, done.at, table);
    end_line(out, missing, done.whole)
}

fn table_text(out: &mut [u8], at: usize, file: &[u8], table: &Table) -> usize
    requires { AllInside file.now table.now }
    ensures { Wrote (table_text file.now table.now.starts table.now.lengths table.now.header) out.old at out.new result }
{
    let head = programme_lines::head_line(out, at, table.header);
    if table.header.key.table == key::NRT_IT {
        return list_text(out, head, file, table);
    }
    text::word(out, head, b"no programme list\n")
}

// The whole text for a file, over the output from its first byte on; its size.
fn text_for(out: &mut [u8], file: &[u8]) -> usize
    ensures { Wrote (text_of file.now) out.old 0 out.new result }
{
    match file::read_file(file) {
        Ok(table) => table_text(out, 0, file, &table),
        Err(refusal) => text::line(out, 0, b"refused ", u64::from(u8::from(refusal))),
    }
}

// The text for a file, at the front of the output; 15 where it does not fit.
pub fn list_programmes(file: &[u8], out: &mut [u8]) -> Result<usize, Refusal>
    ensures { listing result out.new ≡ list_of file.now out.old }
{
    let size = text_for(&mut out[..0], file);
    if out.len() < size {
        return Err(Refusal::OutputTooSmall);
    }
    text_for(out, file);
    Ok(size)
}

// Lists a file; the answer is 15, or a size from bit 8 up, as a host gets it.
pub fn programmes_code(file: &[u8], out: &mut [u8]) -> u64
    ensures { out_of result out.new ≡ list_lent file.now out.old }
{
    match list_programmes(file, out) {
        Ok(size) => answers::BIT_8 * size as u64,
        Err(refusal) => u64::from(u8::from(refusal)),
    }
}
