// Whether a lent record of 96 numbers is spoiled (18). One pass over the numbers before the rest of the keys says at once that a record which the library left
// is not; where it does not say so, each place is looked at.
#![tactic(auto)]

ghost use Rattle.std.specs.Prelude.{◌≡◌, true, false, ℕ, ◌+◌, ◌/◌, ◌%◌, ◌^◌, ◌<◌, ◌≤◌, length};
ghost use Rattle.berth.specs.Berth.{places, sections};
ghost use Rattle.base.specs.Below.{some};
ghost use Rattle.shelf.specs.Record.{wrong_at, spoiled_place, alike, spoiled_of};
ghost use Rattle.shelf.specs.Layout.{count, table_in, place_in, shelf_in, shelf_at};
ghost use Rattle.shelf_check.specs.Unless.{unless_spoiled};
ghost use Rattle.shelf_check.specs.Fine.{FineColumns, FineMasks, Apart, wide_number, any_alike, from_last, NoneAbove, OneHeld};

use berth::{PLACES, SECTIONS};
use refusal::Refusal;
use shelf::{HEAD, HEADS, MASKS, WORDS};

const SPOILED: u16 = Refusal::ShelfSpoiled as u16;

// 18 is for a version above 31, a last above 15, and a length outside 8 to 1,024.
const HIGHEST_VERSION: u16 = 31;

const HIGHEST_LAST: u16 = 15;

const SHORTEST: u16 = 8;

const LONGEST: u16 = berth::BERTH as u16;

const SPAN: u16 = LONGEST - SHORTEST;

// The most that each number of the heads may be: a version, a last, or anything.
const MOST: [u16; 16] = [
    65535, 65535, 31, 15, 65535, 65535, 31, 15, 65535, 65535, 31, 15, 65535, 65535, 31, 15,
];

// The first number of the head of an NRT-IT.
const LIST: u16 = shelf::TAKEN + key::NRT_IT as u16;

const BIT_32: u64 = 4294967296;

// Where the lengths of the second, the third and the fourth place begin.
const SECOND: usize = SECTIONS;

const THIRD: usize = 2 * SECTIONS;

const FOURTH: usize = 3 * SECTIONS;

fn higher(a: u16, b: u16) -> u16
    ensures { (a ≤ result) × (b ≤ result) }
{
    if a < b { b } else { a }
}

fn highest(a: u16, b: u16, c: u16, d: u16) -> u16
    ensures { (a ≤ result) × (b ≤ result) × (c ≤ result) × (d ≤ result) }
{
    let ab = higher(a, b);
    let cd = higher(c, d);
    higher(ab, cd)
}

// A length less 8, around the end, so that one bound serves for 8 to 1,024.
fn less_eight(x: u16) -> u16
    ensures { result ≤ 1016 → (8 ≤ x) × (x ≤ 1024) }
{
    ((u32::from(x) + 65528) % 65536) as u16
}

// Whether a length is outside 8 to 1,024, a version above 31 or a last above 15, in a place that is taken or free. It reads all sixteen of each and keeps a
// yes or no: without a way out the compiler asks of many at a time.
fn columns_stop(words: &[u16; WORDS]) -> bool
    ensures { result ≡ false → FineColumns words.now }
{
    let most = MOST;
    let mut stops = false;
    for i in 0..SECTIONS {
        let w = less_eight(words[i]);
        let x = less_eight(words[SECOND + i]);
        let y = less_eight(words[THIRD + i]);
        let z = less_eight(words[FOURTH + i]);
        let length = highest(w, x, y, z);
        stops |= (most[i] < words[HEADS + i]) | (SPAN < length);
    }
    stops
}

fn shifted(mask: u16, last: u16) -> u32
    ensures { result ≡ mask / 2 ^ (last % 32) }
{
    (mask as u32) >> (last as u32 % 32)
}

// Over 1 where in place p a number above last is held. Here and below p is one of four literals: a type of its own for it would be taken apart at each index.
fn above(words: &[u16; WORDS], p: usize) -> u32
    requires { p < places }
    ensures { result ≡ from_last words.now p }
{
    shifted(words[MASKS + p], words[HEADS + 3 + HEAD * p])
}

// Whether in each place nothing is held above last.
fn none_above(words: &[u16; WORDS]) -> bool
    ensures { result ≡ true → ((p : ℕ) → p < places → NoneAbove words.now p) }
{
    ((above(words, 0) <= 1) & (above(words, 1) <= 1))
        & ((above(words, 2) <= 1) & (above(words, 3) <= 1))
}

// Whether in place p nothing is held.
fn is_empty(words: &[u16; WORDS], p: usize) -> bool
    requires { p < places }
    ensures { result ≡ false → OneHeld words.now p }
{
    words[MASKS + p] == 0
}

// Whether a mask stops the pass: in a place nothing is held, or something above last.
fn masks_stop(words: &[u16; WORDS]) -> bool
    ensures { result ≡ false → FineMasks words.now }
{
    (((!none_above(words) | is_empty(words, 0)) | is_empty(words, 1)) | is_empty(words, 2))
        | is_empty(words, 3)
}

// The head of place p, and of an NRT-IT's key so much more as there is room for: where two of these differ, so do the tables.
fn wide_number(words: &[u16; WORDS], p: usize) -> u64
    requires { p < places }
    ensures { result ≡ wide_number words.now p }
{
    let number = u64::from(shelf::key_number(words, p));
    if words[HEADS + HEAD * p] != LIST {
        return number;
    }
    number + shelf::rest_number(words, p) % BIT_32 * BIT_32
}

// Whether no two of the heads begin alike, lists told apart by what follows.
fn lists_differ(words: &[u16; WORDS]) -> bool
    ensures { result ≡ true → Apart words.now }
{
    let first = wide_number(words, 0);
    let second = wide_number(words, 1);
    let third = wide_number(words, 2);
    let fourth = wide_number(words, 3);
    let of_three = ((first == second) | (first == third)) | (second == third);
    let any = ((of_three | (first == fourth)) | (second == fourth)) | (third == fourth);
    !any
}

// Whether the heads and the masks pass: in each place something is held and nothing above last, and no two have one key. One
// chain of tests with no way out in between, which the compiler makes of conditional compares and no branches; only where two heads begin
// alike, as those of two services' lists do, more of the keys is asked.
fn heads_pass(words: &[u16; WORDS]) -> bool
    ensures { result ≡ true → FineMasks words.now × Apart words.now }
{
    let first = shelf::key_number(words, 0);
    let second = shelf::key_number(words, 1);
    let third = shelf::key_number(words, 2);
    let fourth = shelf::key_number(words, 3);
    let masks = masks_stop(words);
    let first_keys_stop = ((masks | (first == second)) | (first == third)) | (second == third);
    let any_stops = ((first_keys_stop | (first == fourth)) | (second == fourth))
        | (third == fourth);
    if any_stops {
        return !masks & lists_differ(words);
    }
    true
}

// Whether the lengths, the versions and the lasts pass.
fn lengths_pass(words: &[u16; WORDS]) -> bool
    ensures { result ≡ true → FineColumns words.now }
{
    !columns_stop(words)
}

// Whether section n of the table in place p is held and above last, or has a length outside 8 to 1,024.
fn wrong_at(words: &[u16; WORDS], p: usize, n: usize) -> bool
    requires { (p < places) × (n < sections) }
    ensures { result ≡ wrong_at (table_in words.now p) n }
{
    let length = shelf::length_of(words, p, n);
    if length == 0 {
        return false;
    }
    if usize::from(shelf::last_of(words, p)) < n {
        return true;
    }
    if length < SHORTEST {
        return true;
    }
    LONGEST < length
}

// .. one of the sixteen.
fn any_wrong(words: &[u16; WORDS], p: usize) -> bool
    requires { p < places }
    ensures { result ≡ some sections (wrong_at (table_in words.now p)) }
{
    for n in 0..SECTIONS {
        if wrong_at(words, p, n) {
            return true;
        }
    }
    false
}

// Whether a table is in place p that is spoiled.
fn place_spoiled(words: &[u16; WORDS], p: usize) -> bool
    requires { p < places }
    ensures { result ≡ spoiled_place (place_in words.now p) }
{
    if words[HEADS + HEAD * p] / 256 != 1 {
        return false;
    }
    if HIGHEST_VERSION < shelf::version_of(words, p) {
        return true;
    }
    if HIGHEST_LAST < shelf::last_of(words, p) {
        return true;
    }
    if words[MASKS + p] == 0 {
        return true;
    }
    any_wrong(words, p)
}

// Whether tables with one key are in places p and q. The sign that a place is taken is a part of what is compared first.
fn one_key(words: &[u16; WORDS], p: usize, q: usize) -> bool
    requires { (p < places) × (q < places) }
    ensures { result ≡ alike (place_in words.now p) (place_in words.now q) }
{
    if words[HEADS + HEAD * p] / 256 != 1 {
        return false;
    }
    if shelf::key_number(words, p) != shelf::key_number(words, q) {
        return false;
    }
    key::same(shelf::key_in(words, p), shelf::key_in(words, q))
}

// Whether tables with one key are in two places, pair by pair.
fn key_twice(words: &[u16; WORDS]) -> bool
    ensures { result ≡ any_alike words.now }
{
    let first = one_key(words, 0, 1) | (one_key(words, 0, 2) | one_key(words, 1, 2));
    let rest = (one_key(words, 0, 3) | one_key(words, 1, 3)) | one_key(words, 2, 3);
    first | rest
}

// Whether the record is spoiled, place by place and then by keys. The compiler keeps it apart from the pass, which so needs no frame.
#[inline(never)]
fn each_asked(words: &[u16; WORDS]) -> bool
    ensures { result ≡ spoiled_of (shelf_in words.now) }
{
    let tables = ((place_spoiled(words, 0) | place_spoiled(words, 1)) | place_spoiled(words, 2))
        | place_spoiled(words, 3);
    tables | key_twice(words)
}

// Whether the record is spoiled. Where masks, lengths, versions and lasts are fine, the keys decide; else it is asked in full.
fn is_bad(words: &[u16; WORDS]) -> bool
    ensures { result ≡ spoiled_of (shelf_in words.now) }
{
    if !masks_stop(words) & lengths_pass(words) {
        return key_twice(words);
    }
    each_asked(words)
}

// The number, or 18 where the record that the numbers are is spoiled. A call that has its answer ends by this one, and so needs no frame.
pub fn unless_spoiled(words: &[u16], number: u16) -> u16
    ensures { result ≡ unless_spoiled (spoiled_of (shelf_at words.now)) number }
{
    let Ok(record) = <&[u16; WORDS]>::try_from(words) else {
        return SPOILED;
    };
    if is_bad(record) { SPOILED } else { number }
}

// Whether the record that the numbers are is spoiled. Any other count of numbers than 96 is.
pub fn is_spoiled(words: &[u16]) -> bool
    ensures { result ≡ spoiled_of (shelf_at words.now) }
{
    unless_spoiled(words, 0) != 0
}

// Whether one pass shows that the record is not spoiled. Numbers of a free place may stop it, so that its no says nothing.
// is_bad asks in its own way, so that the compiler puts this one into the offer.
pub fn passes(words: &[u16]) -> bool
    ensures { result ≡ true → spoiled_of (shelf_at words.now) ≡ false }
{
    let Ok(record) = <&[u16; WORDS]>::try_from(words) else {
        return false;
    };
    heads_pass(record) & lengths_pass(record)
}
