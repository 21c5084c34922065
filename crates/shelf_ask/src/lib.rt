// Asking the shelf (document 01, "The shelf"): a section's bytes, whether a table is complete, its lowest missing number, and which
// table is in a place. The record is the numbers that the host lends.
#![tactic(auto)]

ghost use Rattle.std.specs.Prelude.{◌≡◌, ◌<◌};
ghost use Rattle.berth.specs.Berth.{sections};
ghost use Rattle.shelf.specs.Layout.{shelf_at};
ghost use Rattle.shelf_ask.specs.Ask.{unlent_of, holding_of, copy, copy_of, whole_of, missing_of};
ghost use Rattle.answers.specs.Answers.{out as out_of};
ghost use Rattle.shelf_ask.specs.Tables.{taken_of};
ghost use Rattle.shelf_ask.specs.Calls.{table_among, gap_among};
ghost use Rattle.shelf_ask.specs.Answer.{whole_code, missing_code, whole_lent, complete_lent, missing_lent, copy_lent, table_lent};

use berth::{PLACES, STORE};
use key::Key;
use refusal::Refusal;
use tables::Table;

// The first of 17 and 18 that is so of a record and a store of that size, where one is.
fn unlent(words: &[u16], size: usize) -> Result<(), Refusal>
    ensures { result ≡ unlent_of (shelf_at words.now) size }
{
    if size != STORE {
        return Err(Refusal::StoreSize);
    }
    if shelf_check::is_spoiled(words) {
        return Err(Refusal::ShelfSpoiled);
    }
    Ok(())
}

// The place of the table with that key, or the first refusal of every question about it, put with a store of that size. A place of 4 is none, as `shelf` has it.
pub fn held_in(words: &[u16], size: usize, key: Key) -> Result<usize, Refusal>
    ensures { result ≡ holding_of (shelf_at words.now) size key }
{
    unlent(words, size)?;
    let p = shelf::place_of(words, key);
    if p == PLACES {
        return Err(Refusal::TableNotHeld);
    }
    Ok(p)
}

// The lowest number from 0 to the last whose bit is 0.
fn first_gap(mask: u16, last: u16) -> Option<u8>
    requires { last < sections }
    ensures { result ≡ gap_among mask last }
{
    for n in 0..last + 1 {
        if (mask >> n) % 2 == 0 {
            return Some(n as u8);
        }
    }
    None
}

// Copies section n of the table with that key to the front of the output; what lies past its bytes stays as it was. The answer is how many
// bytes they are.
pub fn copy_section(
    words: &[u16],
    store: &[u8],
    key: Key,
    n: u8,
    out: &mut [u8],
) -> Result<usize, Refusal>
    ensures { copy result out.new ≡ copy_of (shelf_at words.now) store.now key n out.old }
{
    let p = held_in(words, store.len(), key)?;
    let number = usize::from(n);
    let count = usize::from(shelf::length_of(words, p, number));
    if count == 0 {
        return Err(Refusal::SectionNotHeld);
    }
    if out.len() < count {
        return Err(Refusal::OutputTooSmall);
    }
    berth::copy_out(store, p, number, count, out);
    Ok(count)
}

// Whether every number of that table from 0 to its last is held.
pub fn complete(words: &[u16], store: &[u8], key: Key) -> Result<bool, Refusal>
    ensures { result ≡ whole_of (shelf_at words.now) store.now key }
{
    let missing = lowest_missing(words, store, key)?;
    Ok(missing.is_none())
}

// The lowest number of that table from 0 to its last that is not held, where there is one.
pub fn lowest_missing(words: &[u16], store: &[u8], key: Key) -> Result<Option<u8>, Refusal>
    ensures { result ≡ missing_of (shelf_at words.now) store.now key }
{
    let p = held_in(words, store.len(), key)?;
    let last = shelf::last_of(words, p);
    let gap = first_gap(shelf::mask_of(words, p), last);
    Ok(gap)
}

// The answers as numbers, as C gets them: the case from bit 8 up, a missing number from bit 16 up.
const COMPLETE: u16 = 256;

const INCOMPLETE: u16 = 512;

const NOTHING: u32 = 256;

const NUMBER: u32 = 512;

const BIT_16: u32 = 65536;

// Whether a table is complete, as a number whose low 8 bits are the refusal. It stands apart, and so do its likes, since a refusal that
// becomes a number inside a longer function is 41 cases of that function.
fn whole_code_of(answer: Result<bool, Refusal>) -> u16
    ensures { result ≡ whole_code answer }
{
    match answer {
        Err(refusal) => refusal as u16,
        Ok(true) => COMPLETE,
        Ok(false) => INCOMPLETE,
    }
}

// Whether a table is complete, in that number.
pub fn complete_code(words: &[u16], store: &[u8], key: Key) -> u16
    ensures { result ≡ whole_lent words.now store.now key }
{
    whole_code_of(complete(words, store, key))
}

// Whether a table is held and complete: no refusal is a yes.
pub fn is_complete(words: &[u16], store: &[u8], key: Key) -> bool
    ensures { result ≡ complete_lent words.now store.now key }
{
    complete(words, store, key).unwrap_or(false)
}

// The lowest missing number of a table, as a number whose low 8 bits are the refusal.
fn missing_code_of(answer: Result<Option<u8>, Refusal>) -> u32
    ensures { result ≡ missing_code answer }
{
    match answer {
        Err(refusal) => refusal as u32,
        Ok(None) => NOTHING,
        Ok(Some(n)) => NUMBER + BIT_16 * u32::from(n),
    }
}

// The lowest missing number of a table, in that number.
pub fn missing_code(words: &[u16], store: &[u8], key: Key) -> u32
    ensures { result ≡ missing_lent words.now store.now key }
{
    missing_code_of(lowest_missing(words, store, key))
}

// Copies a section out, and answers its size from bit 8 up.
pub fn copy_code(words: &[u16], store: &[u8], key: Key, n: u8, out: &mut [u8]) -> u32
    ensures { out_of result out.new ≡ copy_lent words.now store.now key n out.old }
{
    answers::sized(copy_section(words, store, key, n, out))
}

// The place asked for where a table is in it, or the first refusal of the question, put with a store of that size.
fn taken_in(words: &[u16], size: usize, p: usize) -> Result<usize, Refusal>
    ensures { result ≡ taken_of (shelf_at words.now) size p }
{
    unlent(words, size)?;
    if shelf::key_number(words, p) / 256 % 256 != 1 {
        return Err(Refusal::TableNotHeld);
    }
    Ok(p)
}

// The table in place p.
fn table_in(words: &[u16], p: usize) -> Table
    ensures { result ≡ table_among words.now p }
{
    let key = shelf::key_in(words, p);
    let version = shelf::version_of(words, p);
    let last = shelf::last_of(words, p);
    let lengths = shelf::lengths_of(words, p);
    Table {
        key,
        version,
        last,
        lengths,
    }
}

// Puts the numbers of the table in a place at the front of the buffer, or answers the refusal.
pub fn table_code(words: &[u16], store: &[u8], place: u8, fields: &mut [u16]) -> u8
    ensures { out_of result fields.new ≡ table_lent words.now store.now place fields.old }
{
    match taken_in(words, store.len(), usize::from(place)) {
        Err(refusal) => u8::from(refusal),
        Ok(p) => {
            let table = table_in(words, p);
            answers::done(tables::put_table(table, fields))
        }
    }
}
