// Loads a file's table onto the shelf (document 01, "The shelf file"). Nothing is written before the last fault is ruled out.
#![tactic(auto)]

ghost use Rattle.std.specs.Prelude.{◌≡◌, ◌<◌, length};
ghost use Rattle.berth.specs.Berth.{places, sections, store_size};
ghost use Rattle.shelf.specs.Layout.{count};
ghost use Rattle.shelf_load.specs.Steps.{Within, table_on};
ghost use Rattle.shelf_load.specs.Load.{stored_below};
ghost use Rattle.shelf_load.specs.On.{leaving, held_below, load_on};
ghost use Rattle.answers.specs.Answers.{lent};
ghost use Rattle.shelf_load.specs.Answer.{load_lent};

use berth::{PLACES, SECTIONS, STORE};
use file::Table;
use refusal::Refusal;

// Puts each section of a file's table into its berth of place p. Numbers and store are slices here and below, since they are written to: of one that is
// lent on as an array the proof does not get what it holds afterwards (`shelf_write`).
fn store_each(store: &mut [u8], p: usize, file: &[u8], table: Table)
    requires store_len { (length store.old ≡ store_size) × (p < places) }
    requires within { Within file.now table.starts table.lengths table.header.last }
    ensures { store.new ≡ stored_below sections file.now table.starts table.lengths store.old p }
{
    for n in 0..usize::from(table.header.last) + 1 {
        let size = usize::from(table.lengths[n]);
        if size != 0 {
            let start = table.starts[n];
            let end = start + size;
            berth::put(store, p, n, &file[start..end]);
        }
    }
}

// Says in the numbers which sections of place p are held, those that have a length.
fn hold_each(words: &mut [u16], p: usize, lengths: [u16; SECTIONS])
    requires { (length words.old ≡ count) × (p < places) }
    ensures { words.new ≡ held_below sections words.old p lengths }
{
    for n in 0..SECTIONS {
        let size = lengths[n];
        if size != 0 {
            shelf_write::put_held(words, p, n, size);
        }
    }
}

// Puts the table that a file was found to hold into the lowest free place, where its key is not held. A place of 4 is none, as `shelf` has it.
fn load_table(words: &mut [u16], store: &mut [u8], file: &[u8], table: Table) -> Result<(), Refusal>
    requires words_len { (length words.old ≡ count) × (length store.old ≡ store_size) }
    requires within { Within file.now table.starts table.lengths table.header.last }
    ensures { leaving result words.new store.new
        ≡ table_on words.old store.old file.now table }
{
    let header = table.header;
    let key = header.key;
    if shelf::place_of(words, key) != PLACES {
        return Err(Refusal::KeyHeld);
    }
    let p = shelf::free_of(words);
    if p == PLACES {
        return Err(Refusal::NoFreePlace);
    }
    // The numbers come first, as with an offer.
    shelf_write::put_head(words, p, key, header.version, header.last);
    hold_each(words, p, table.lengths);
    store_each(store, p, file, table);
    Ok(())
}

// Loads a file's table into the lowest free place: each of its sections stands in its berth with zeros after it, and no other
// berth changes. A refused call changes nothing.
pub fn load_file(words: &mut [u16], store: &mut [u8], file: &[u8]) -> Result<(), Refusal>
    ensures { leaving result words.new store.new ≡ load_on words.old store.old file.now }
{
    if store.len() != STORE {
        return Err(Refusal::StoreSize);
    }
    if shelf_check::is_spoiled(words) {
        return Err(Refusal::ShelfSpoiled);
    }
    // The whole file is read before anything is written.
    let table = file::read_file(file)?;
    load_table(words, store, file, table)
}

// Loads a file, and answers in a number: 0, or the refusal.
pub fn load_code(words: &mut [u16], store: &mut [u8], file: &[u8]) -> u8
    ensures { lent result words.new store.new ≡ load_lent words.old store.old file.now }
{
    answers::done(load_file(words, store, file))
}
