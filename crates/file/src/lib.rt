// Reads a shelf file (document 01, "The shelf file") from left to right: which table it is, and where in the file each of its
// sections lies. Nothing is copied, and the first fault from the left is the answer.
#![tactic(auto)]

ghost use Rattle.std.specs.Prelude.{◌≡◌, ltb, length};
ghost use Rattle.file_number.specs.Number.{number_at};
ghost use Rattle.file.specs.Layout.{same_table};
ghost use Rattle.file.specs.Scan.{nothing as nothingAt, section_at, sections_of, count_of, scan_of};

use refusal::Refusal;
use section::Header;

// The header of the file's first section, with which all share key, version and last number; and by section number, where each
// section begins in the file and how many bytes it has; length 0: the file lacks it. The lengths stand alone, since a host is told them so.
#[derive(Clone, Copy, Debug, PartialEq, Eq)]
pub struct Table {
    pub header: Header,
    pub starts: [usize; section::SECTIONS],
    pub lengths: [u16; section::SECTIONS],
}

// One section of the file: its header, the place of its first byte, and its length in bytes.
#[derive(Clone, Copy, Debug, PartialEq, Eq)]
pub struct Part {
    pub header: Header,
    pub start: usize,
    pub length: u16,
}

pub const FORM: u16 = 1;

pub const SECTIONS: u16 = section::SECTIONS as u16;

pub const SHORTEST: u16 = section::HEADER as u16;

pub const LONGEST: u16 = section::LARGEST as u16;

// The form and the count take a byte each.
pub const FRONT: usize = 2;

// What the largest section takes in a file: its length has two bytes.
pub const ENTRY: usize = 2 + section::LARGEST;

// The largest file.
pub const LARGEST: usize = FRONT + section::SECTIONS * ENTRY;

// The section at a place of the file, or its first fault.
fn section_at(file: &[u8], at: usize) -> Result<Part, Refusal>
    ensures { result ≡ section_at file.now at }
{
    let found = file_number::read_number(file, at)?;
    let length = found.value;
    let start = found.next;
    if length < SHORTEST {
        return Err(Refusal::BadFile);
    }
    if LONGEST < length {
        return Err(Refusal::BadFile);
    }
    let size = usize::from(length);
    if file.len() - start < size {
        return Err(Refusal::BadFile);
    }
    let end = start + size;
    let header = section::read(&file[start..end])?;
    Ok(Part {
        header,
        start,
        length,
    })
}

// Two sections share key, version and last number.
fn same_table(a: Header, b: Header) -> bool
    ensures { result ≡ same_table a b }
{
    key::same(a.key, b.key) && a.version == b.version && a.last == b.last
}

// Whether bytes are left over at a place. It stands apart: what a call has to keep is kept out of the registers, and the scan has none to spare
// (docs/SPEED.md).
#[inline(never)]
fn is_left_over(file: &[u8], at: usize) -> bool
    ensures { result ≡ ltb at (length file.now) }
{
    at < file.len()
}

// The first fault of the sections from a place on, or the table that they are, where nothing stands after them. The loop is left by
// `break` with the refusal or the end's place, the form that document 01 names for it.
fn scan_sections(file: &[u8], count: usize, from: usize) -> Result<Table, Refusal>
    ensures { result ≡ sections_of count file.now (nothingAt from) }
{
    // What the sections read so far say, as plain locals: a struct with the two arrays would be copied at each section.
    let mut first: Option<Header> = None;
    let mut lowest: u8 = 0;
    let mut next = from;
    let mut starts = [0usize; section::SECTIONS];
    let mut lengths = [0u16; section::SECTIONS];
    let mut left = count;
    let end = loop {
        if left == 0 {
            break Ok(next);
        }
        let part = match section_at(file, next) {
            Ok(part) => part,
            Err(refusal) => break Err(refusal),
        };
        let header = part.header;
        let shared = first.unwrap_or(header);
        if !same_table(shared, header) {
            break Err(Refusal::BadFile);
        }
        if header.number < lowest {
            break Err(Refusal::BadFile);
        }
        let number = usize::from(header.number);
        starts[number] = part.start;
        lengths[number] = part.length;
        first = Some(shared);
        lowest = header.number + 1;
        next = part.start + usize::from(part.length);
        left -= 1;
    };
    let at = end?;
    if is_left_over(file, at) {
        return Err(Refusal::BadFile);
    }
    match first {
        Some(header) => Ok(Table {
            header,
            starts,
            lengths,
        }),
        None => Err(Refusal::BadFile),
    }
}

// The rest of a file from its count on.
fn read_count(file: &[u8], at: usize) -> Result<Table, Refusal>
    ensures { result ≡ count_of file.now (number_at file.now at) }
{
    let count = file_number::read_number(file, at)?;
    if count.value < 1 {
        return Err(Refusal::BadFile);
    }
    if SECTIONS < count.value {
        return Err(Refusal::BadFile);
    }
    scan_sections(file, usize::from(count.value), count.next)
}

// The table that the file holds, or the first fault from the left: 11, 12, or a section's own number, 2 to 8 or 46.
pub fn read_file(file: &[u8]) -> Result<Table, Refusal>
    ensures { result ≡ scan_of file.now }
{
    let form = file_number::read_number(file, 0)?;
    if form.value != FORM {
        return Err(Refusal::BadFile);
    }
    read_count(file, form.next)
}
