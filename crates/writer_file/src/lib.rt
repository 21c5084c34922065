// A bench's table as a shelf file (document 02, request 1): the file of the sections that carry a body.
#![tactic(auto)]

ghost use Rattle.std.specs.Prelude.{◌≡◌, ◌++◌, ◌+◌, ◌≤◌, length, drop, Ok};
ghost use Rattle.answers.specs.Answers.{out as out_of};
ghost use Rattle.key.specs.Key.{nrt_it};
ghost use Rattle.writer.specs.Writer.{longest_body, last_of};
ghost use Rattle.writer_file.specs.Feeding.{feed_file, feed, feed_of};
ghost use Rattle.writer_file.specs.Answer.{file_lent};
ghost use Rattle.writer_file.specs.Sizes.{size_at, entry_size, entry_at, file_size};

use refusal::Refusal;
use writer::Label;

// The bytes of section k of a body of so many bytes.
fn size_at(length: usize, k: usize) -> u16
    requires { (length ≤ longest_body) × (k ≤ last_of length) }
    ensures { (result ≡ size_at length k) × (result ≤ 1024) }
{
    let start = writer::FULL * k;
    let left = length - start;
    if left < writer::FULL {
        file::SHORTEST + left as u16
    } else {
        file::LONGEST
    }
}

// What a section of so many bytes takes in the file, with its length, which has one group or two: `shelf_save` tells three, and has no bound on a length.
fn entry_size(size: u16) -> usize
    requires { size ≤ 1024 }
    ensures { result ≡ entry_size size }
{
    let bytes = usize::from(size);
    if size < file_number::SECOND {
        bytes + 1
    } else {
        bytes + 2
    }
}

// Section k with its length at the front of a buffer; how many bytes they are. Nothing refuses it here.
fn write_one(label: Label, body: &[u8], k: u8, rest: &mut [u8]) -> Result<usize, Refusal>
    requires not_label_table { (¬ (label.table ≡ nrt_it)) × (length body.now ≤ longest_body) × (label.version ≤ 31) × (k ≤ last_of (length body.now)) }
    requires k_in_bounds { entry_size (size_at (length body.now) k) ≤ length rest.old }
    ensures value { result ≡ Ok (entry_size (size_at (length body.now) k)) }
    ensures rest_after { rest.new ≡ entry_at label body.now k ++ drop (entry_size (size_at (length body.now) k)) rest.old }
{
    let size = size_at(body.len(), usize::from(k));
    let start = file_number::write_number(size, rest)?;
    let count = writer::write_section(label, body, k, &mut rest[start..])?;
    Ok(start + count)
}

// The bytes of the whole file.
fn file_size(length: usize, last: usize) -> usize
    requires { (length ≤ longest_body) × (last ≡ last_of length) }
    ensures { result ≡ file_size length }
{
    let size = size_at(length, last);
    let entry = entry_size(size);
    file::FRONT + file::ENTRY * last + entry
}

// The file at the front of an output that has room for it.
fn write_file(label: Label, body: &[u8], count: u8, out: &mut [u8]) -> Result<(), Refusal>
    requires not_label_table { (¬ (label.table ≡ nrt_it)) × (length body.now ≤ longest_body) × (label.version ≤ 31) × (count ≡ last_of (length body.now) + 1) }
    requires body_in_bounds { file_size (length body.now) ≤ length out.old }
    ensures done { result ≡ Ok tt }
    ensures out_after { out.new ≡ feed_file label body.now ++ drop (file_size (length body.now)) out.old }
{
    let form = file::FORM as u8;
    out[0] = form;
    out[1] = count;
    let mut at = file::FRONT;
    for k in 0..count {
        at += write_one(label, body, k, &mut out[at..])?;
    }
    Ok(())
}

// The file of the table that carries the body, at the front of the output; bytes past it stay as they were.
pub fn feed_file(label: Label, body: &[u8], out: &mut [u8]) -> Result<usize, Refusal>
    ensures { feed result out.new ≡ feed_of label body.now out.old }
{
    let count = writer::count_sections(label.table, body.len())?;
    if section::HIGHEST_VERSION < label.version {
        return Err(Refusal::WriterVersionAbove31);
    }
    let size = file_size(body.len(), usize::from(count) - 1);
    if out.len() < size {
        return Err(Refusal::OutputTooSmall);
    }
    write_file(label, body, count, out)?;
    Ok(size)
}

// Writes the file of the table that carries the body; the answer is a refusal, or a size from bit 8 up, as a host gets it.
pub fn file_code(label: Label, body: &[u8], out: &mut [u8]) -> u32
    ensures { out_of result out.new ≡ file_lent label body.now out.old }
{
    answers::sized(feed_file(label, body, out))
}
