// The shelf's record as the host lends it (document 01, "The shelf"): four places, each free or with one table of sixteen
// sections, in 96 numbers of 16 bits. What a number means is in specs/Layout. Any numbers may be lent: a call that names no
// place of a record finds nothing and writes nothing.
#![tactic(auto)]

ghost use Rattle.std.specs.Prelude.{◌≡◌, ◌+◌, ◌*◌, ◌/◌, ◌%◌, ◌^◌, ◌<◌, ◌≤◌, length, get_or, eqb};
ghost use Rattle.berth.specs.Berth.{places, sections};
ghost use Rattle.base.specs.Below.{lowest};
ghost use Rattle.key.specs.Key.{nrt_it};
ghost use Rattle.key.specs.Theorems.{Proper};
ghost use Rattle.shelf.specs.Record.{has_key, place_of};
ghost use Rattle.base.specs.Bits.{bit};
ghost use Rattle.shelf.specs.Layout.{count, held_length, key_number, place_in, shelf_in, number_for};
ghost use Rattle.shelf.specs.Calls.{number_among, key_among, rest_among, key_found, place_among, free_among, version_among, last_among, mask_among, length_among, lengths_among};

use berth::{PLACES, SECTIONS};
use key::Key;

// Where the heads begin, how many numbers each has, where the masks begin, where the rest of the keys begins, how many numbers each has, and the
// numbers of a record, 96.
pub const HEADS: usize = PLACES * SECTIONS;

pub const HEAD: usize = 4;

pub const MASKS: usize = HEADS + HEAD * PLACES;

pub const RESTS: usize = MASKS + PLACES;

pub const REST: usize = 3;

pub const WORDS: usize = RESTS + REST * PLACES;

// Added to the table id of a taken place.
pub const TAKEN: u16 = 256;

// The one of four numbers that is of place p: the first of them stands at a place of the record, and the next each so much later. Here and below
// what is read where there is no record or no place is 0, as in the definitions that the theorems speak of.
fn number_of(words: &[u16], first: usize, each: usize, p: usize) -> u16
    requires { first + each * 3 < count }
    ensures { result ≡ number_among words.now first each p }
{
    if words.len() != WORDS {
        return 0;
    }
    if PLACES <= p {
        return 0;
    }
    words[first + each * p]
}

// The first two numbers of the head of place p as one: whether it is taken, table id and extension. Where it differs, so do the tables.
pub fn key_number(words: &[u16], p: usize) -> u32
    ensures { result ≡ key_among words.now p }
{
    let table = u32::from(number_of(words, HEADS, HEAD, p));
    let extension = u32::from(number_of(words, HEADS + 1, HEAD, p));
    table + 65536 * extension
}

// The key of the table in place p.
pub fn key_in(words: &[u16], p: usize) -> Key
    ensures { result ≡ key_found words.now p }
{
    let table = (number_of(words, HEADS, HEAD, p) % TAKEN) as u8;
    let extension = number_of(words, HEADS + 1, HEAD, p);
    let service = number_of(words, RESTS, REST, p);
    let high = number_of(words, RESTS + 1, REST, p);
    let low = number_of(words, RESTS + 2, REST, p);
    key::from(table, extension, service, key::start_of(high, low))
}

// What stands for the rest of a key in place p, as one number.
pub fn rest_number(words: &[u16], p: usize) -> u64
    ensures { result ≡ rest_among words.now p }
{
    let service = u64::from(number_of(words, RESTS, REST, p));
    let high = number_of(words, RESTS + 1, REST, p);
    let low = number_of(words, RESTS + 2, REST, p);
    service + 65536 * u64::from(key::start_of(high, low))
}

// The first number where a table with that key is in the place.
fn number_for(key: Key) -> u32
    ensures { (result ≡ number_for key) × (key.table < 256) }
{
    let table = u32::from(TAKEN + u16::from(key.table));
    let extension = u32::from(key.extension);
    table + 65536 * extension
}

// A start with its halves exchanged, as they stand in the record: so the two numbers there are one load.
fn exchanged(start: u32) -> u32
    ensures { (result ≡ start % 65536 * 65536 + start / 65536) × (start < 4294967296) }
{
    key::start_of(key::low(start), key::high(start))
}

// Whether the list with that key is in place p.
fn has_list(words: &[u16; WORDS], p: usize, key: Key, number: u32) -> bool
    requires { (p < places) × (key.table ≡ nrt_it) × (number ≡ number_for key) }
    ensures { result ≡ has_key (place_in words.now p) key }
{
    if key_number(words, p) != number {
        return false;
    }
    if words[RESTS + REST * p] != key.service {
        return false;
    }
    let start = key::start_of(words[RESTS + 2 + REST * p], words[RESTS + 1 + REST * p]);
    start == exchanged(key.start)
}

// The place of a list's key, or 4. Here and below a place that is not there is 4 and no None, as in the definitions that the theorems speak of.
fn place_of_list(words: &[u16; WORDS], key: Key, number: u32) -> usize
    requires { (key.table ≡ nrt_it) × (number ≡ number_for key) }
    ensures { (result ≡ place_of (shelf_in words.now) key) × (result ≤ places) }
{
    for p in 0..PLACES {
        if has_list(words, p, key, number) {
            return p;
        }
    }
    PLACES
}

// The lowest place whose head has that number, or 4.
fn first_alike(words: &[u16; WORDS], number: u32) -> usize
    ensures { (result ≡ lowest places (λ p. eqb (key_number words.now p) number)) × (result ≤ places) }
{
    for p in 0..PLACES {
        if key_number(words, p) == number {
            return p;
        }
    }
    PLACES
}

// The place of a key that four numbers say, as that of a section is, or 4 where it is not held. Of tables of other ids the first two numbers of a head decide.
pub fn place_of_said(words: &[u16], key: Key) -> usize
    ensures { (Proper key → result ≡ place_among words.now key) × (result ≤ places) }
{
    let Ok(words) = <&[u16; WORDS]>::try_from(words) else {
        return PLACES;
    };
    let number = number_for(key);
    if key.table == key::NRT_IT {
        return place_of_list(words, key, number);
    }
    first_alike(words, number)
}

// The place of any key. One that no four numbers say is held nowhere.
pub fn place_of(words: &[u16], key: Key) -> usize
    ensures { (result ≡ place_among words.now key) × (result ≤ places) }
{
    let said = key::from(key.table, key.extension, key.service, key.start);
    if !key::same(said, key) {
        return PLACES;
    }
    place_of_said(words, key)
}

// The lowest free place, or 4 where there is none.
pub fn free_of(words: &[u16]) -> usize
    ensures { (result ≡ free_among words.now) × (result ≤ places) }
{
    if words.len() != WORDS {
        return PLACES;
    }
    for free in 0..PLACES {
        if words[HEADS + HEAD * free] / TAKEN != 1 {
            return free;
        }
    }
    PLACES
}

// The version of the table in place p.
pub fn version_of(words: &[u16], p: usize) -> u16
    ensures { result ≡ version_among words.now p }
{
    number_of(words, HEADS + 2, HEAD, p)
}

// Its last number.
pub fn last_of(words: &[u16], p: usize) -> u16
    ensures { result ≡ last_among words.now p }
{
    number_of(words, HEADS + 3, HEAD, p)
}

// Which of its sections are held: bit n is 1 for section n.
pub fn mask_of(words: &[u16], p: usize) -> u16
    ensures { result ≡ mask_among words.now p }
{
    number_of(words, MASKS, 1, p)
}

fn held_length(mask: u16, n: usize, size: u16) -> u16
    requires { n < sections }
    ensures { result ≡ held_length (bit mask n) size }
{
    if (mask >> n) % 2 == 1 {
        if size == 0 {
            return 1;
        }
        return size;
    }
    0
}

// The length of its section n, 0 where that is not held.
pub fn length_of(words: &[u16], p: usize, n: usize) -> u16
    ensures { result ≡ length_among words.now p n }
{
    if words.len() != WORDS {
        return 0;
    }
    if PLACES <= p {
        return 0;
    }
    if SECTIONS <= n {
        return 0;
    }
    held_length(words[MASKS + p], n, words[SECTIONS * p + n])
}

// The lengths of its sixteen sections.
pub fn lengths_of(words: &[u16], p: usize) -> [u16; 16]
    ensures { result ≡ lengths_among words.now p }
{
    let mut lengths = [0u16; 16];
    for n in 0..SECTIONS {
        lengths[n] = length_of(words, p, n);
    }
    lengths
}
