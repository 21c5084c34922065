// Saves a table of the shelf as a file (document 01, "The shelf file").
#![tactic(auto)]

ghost use Rattle.std.specs.Prelude.{◌≡◌, ◌+◌, ◌*◌, ◌<◌, ◌≤◌, length};
ghost use Rattle.berth.specs.Berth.{berth_size, places, sections, store_size, laid};
ghost use Rattle.shelf.specs.Layout.{shelf_at};
ghost use Rattle.file_number.specs.Number.{spelt};
ghost use Rattle.file.specs.Layout.{listed};
ghost use Rattle.shelf_save.specs.Sizes.{held_of, size_of, size_below, count_below, Berthed};
ghost use Rattle.shelf_save.specs.Save.{held_below, place_saved, save, save_of};
ghost use Rattle.answers.specs.Answers.{out as out_of};
ghost use Rattle.shelf_save.specs.Answer.{save_lent};

use berth::SECTIONS;
use key::Key;
use refusal::Refusal;

// How many sections are held, and how many bytes they take in a file, each with its length.
#[derive(Clone, Copy)]
struct Sizes {
    count: u16,
    bytes: usize,
}

// From these on a number takes two groups, and three.
const TWO_GROUPS: u16 = 128;

const THREE_GROUPS: u16 = 16384;

// How many bytes a number takes. The bench's writer tells one group from two alone, since its sections have at most 1,024 bytes.
fn number_size(n: u16) -> usize
    ensures { (result ≡ length (spelt n)) × (result ≤ 3) }
{
    if n < TWO_GROUPS {
        1
    } else if n < THREE_GROUPS {
        2
    } else {
        3
    }
}

// What sections with these lengths come to; a length of 0 is no section.
fn sizes_of(lengths: [u16; 16]) -> Sizes
    ensures count_value { (result.count ≡ count_below sections lengths) × (result.bytes ≡ size_below sections lengths) }
    ensures count_le_sections { (result.count ≤ sections) × (result.bytes ≤ 65538 * sections) }
{
    let mut count: u16 = 0;
    let mut bytes: usize = 0;
    for n in 0..SECTIONS {
        let size = lengths[n];
        if size != 0 {
            count += 1;
            bytes += number_size(size) + usize::from(size);
        }
    }
    Sizes { count, bytes }
}

// Writes a number at a place of the output; the place after it.
fn write_at(n: u16, out: &mut [u8], at: usize) -> usize
    requires { at + length (spelt n) ≤ length out.old }
    ensures value { result ≡ at + length (spelt n) }
    ensures out_after { out.new ≡ laid out.old at (spelt n) }
{
    let written = file_number::write_number(n, &mut out[at..]);
    at + written.unwrap()
}

// Writes section n of place p with its length at a place of the output; the place after it. The store is a slice here and below: the question has
// answered for its length, and an array would have it asked for again.
fn write_held(store: &[u8], p: usize, n: usize, size: u16, out: &mut [u8], at: usize) -> usize
    requires p_lt_places { (p < places) × (n < sections) × (length store.now ≡ store_size) }
    requires size_le_berth_size { (size ≤ berth_size) × (at + size_of size ≤ length out.old) }
    ensures value { result ≡ at + size_of size }
    ensures out_after { out.new ≡ laid out.old at (listed (held_of size store.now p n)) }
{
    if size == 0 {
        return at;
    }
    let start = write_at(size, out, at);
    let count = usize::from(size);
    berth::copy_out(store, p, n, count, &mut out[start..]);
    start + count
}

// Writes the held sections of place p from a place of the output on.
fn write_sections(store: &[u8], p: usize, lengths: [u16; 16], out: &mut [u8], from: usize)
    requires p_lt_places { (p < places) × (length store.now ≡ store_size) }
    requires berthed { Berthed lengths }
    requires lengths_in_bounds { from + size_below sections lengths ≤ length out.old }
    ensures { out.new ≡ laid out.old from (listed (held_below sections lengths store.now p)) }
{
    let mut at = from;
    for n in 0..SECTIONS {
        at = write_held(store, p, n, lengths[n], out, at);
    }
}

// Saves the table in place p; how many bytes the file has.
fn save_place(store: &[u8], p: usize, lengths: [u16; 16], out: &mut [u8]) -> Result<usize, Refusal>
    requires p_lt_places { (p < places) × (length store.now ≡ store_size) }
    requires berthed { Berthed lengths }
    ensures { save result out.new ≡ place_saved lengths store.now p out.old }
{
    let sizes = sizes_of(lengths);
    let count = sizes.count;
    let size = file::FRONT + sizes.bytes;
    if out.len() < size {
        return Err(Refusal::OutputTooSmall);
    }
    let counted = write_at(file::FORM, out, 0);
    let from = write_at(count, out, counted);
    write_sections(store, p, lengths, out, from);
    Ok(size)
}

// Saves the table with that key as a file at the front of the output; what lies past the file stays as it was. The answer is how many bytes
// the file has.
pub fn save_table(words: &[u16], store: &[u8], key: Key, out: &mut [u8]) -> Result<usize, Refusal>
    ensures { save result out.new ≡ save_of (shelf_at words.now) store.now key out.old }
{
    let p = shelf_ask::held_in(words, store.len(), key)?;
    save_place(store, p, shelf::lengths_of(words, p), out)
}

// Saves a table, and answers the file's size from bit 8 up.
pub fn save_code(words: &[u16], store: &[u8], key: Key, out: &mut [u8]) -> u32
    ensures { out_of result out.new ≡ save_lent words.now store.now key out.old }
{
    answers::sized(save_table(words, store, key, out))
}
