// What the shelf's calls write into the numbers of a record that the host lends (document 01, "The shelf"). A call that names no place
// of a record writes nothing.
#![tactic(auto)]

ghost use Rattle.std.specs.Prelude.{◌≡◌, ◌^◌, ◌<◌, length};
ghost use Rattle.std.specs.Int.Bits.{bit_or};
ghost use Rattle.berth.specs.Berth.{places, sections};
ghost use Rattle.shelf.specs.Layout.{count};
ghost use Rattle.shelf_write.specs.Writes.{held_in, row_in, rest_in, fresh_number};
ghost use Rattle.shelf_write.specs.Calls.{held_put, head_put, freed_put, fresh_put};

use berth::{PLACES, SECTIONS};
use key::Key;
use shelf::{HEAD, HEADS, MASKS, REST, RESTS, TAKEN, WORDS};

// The numbers are a slice throughout: of one that is lent on as an array by `<&mut [u16; WORDS]>::try_from` the proof does not get what it holds afterwards.

fn with_bit(mask: u16, n: usize) -> u16
    requires { n < sections }
    ensures { result ≡ bit_or mask (2 ^ n) }
{
    mask | (1u16 << n)
}

fn put_length(words: &mut [u16], p: usize, n: usize, size: u16)
    requires { (length words.old ≡ count) × (p < places) × (n < sections) }
    ensures { words.new ≡ held_in words.old p n size }
{
    let mask = with_bit(words[MASKS + p], n);
    words[SECTIONS * p + n] = size;
    words[MASKS + p] = mask;
}

// Section n of the table in place p is held from here on.
pub fn put_held(words: &mut [u16], p: usize, n: usize, size: u16)
    ensures { words.new ≡ held_put words.old p n size }
{
    if words.len() != WORDS {
        return;
    }
    if PLACES <= p {
        return;
    }
    if SECTIONS <= n {
        return;
    }
    put_length(words, p, n, size);
}

// The head and the mask of place p, each number by itself, as `row_in` of the definitions has them.
fn put_row(words: &mut [u16], p: usize, a: u16, b: u16, c: u16, d: u16, mask: u16)
    requires { (length words.old ≡ count) × (p < places) }
    ensures { words.new ≡ row_in words.old p a b c d mask }
{
    words[HEADS + HEAD * p] = a;
    words[HEADS + 1 + HEAD * p] = b;
    words[HEADS + 2 + HEAD * p] = c;
    words[HEADS + 3 + HEAD * p] = d;
    words[MASKS + p] = mask;
}

// The rest of the key of place p.
fn put_rest(words: &mut [u16], p: usize, key: Key)
    requires { (length words.old ≡ count) × (p < places) }
    ensures { words.new ≡ rest_in words.old p key }
{
    words[RESTS + REST * p] = key.service;
    words[RESTS + 1 + REST * p] = key::high(key.start);
    words[RESTS + 2 + REST * p] = key::low(key.start);
}

// Place p is taken by a table that holds nothing yet.
pub fn put_head(words: &mut [u16], p: usize, key: Key, version: u8, last: u8)
    ensures { words.new ≡ head_put words.old p key version last }
{
    if words.len() != WORDS {
        return;
    }
    if PLACES <= p {
        return;
    }
    put_row(
        words,
        p,
        TAKEN + u16::from(key.table),
        key.extension,
        u16::from(version),
        u16::from(last),
        0,
    );
    put_rest(words, p, key);
}

// Place p is free.
pub fn put_free(words: &mut [u16], p: usize)
    ensures { words.new ≡ freed_put words.old p }
{
    if words.len() != WORDS {
        return;
    }
    if PLACES <= p {
        return;
    }
    put_row(words, p, p as u16, 0, 0, 0, 1);
}

// Number k of a fresh record. The head of a free place is like no other, and each section has a length, so that the record passes
// the quick test for 18.
fn fresh_number(k: usize) -> u16
    requires { k < count }
    ensures { result ≡ fresh_number k }
{
    if k < HEADS {
        return 8;
    }
    if k < MASKS {
        if k % HEAD == 0 {
            return ((k - HEADS) / HEAD) as u16;
        }
        return 0;
    }
    if k < RESTS {
        return 1;
    }
    0
}

// A fresh record: four free places.
pub fn put_fresh(words: &mut [u16])
    ensures { words.new ≡ fresh_put words.old }
{
    if words.len() != WORDS {
        return;
    }
    for i in 0..WORDS {
        words[i] = fresh_number(i);
    }
}
