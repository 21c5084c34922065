// The items of an NRT-IT section, a programme list (Table 6.5 of source document 004): one at a place, or those from a place on, in ten
// numbers each, as many as a host lends room for. Where an item's parts lie is found first; then each number is put once.
#![tactic(auto)]

ghost use Rattle.std.specs.Prelude.{Some, ◌≡◌, ◌+◌, ◌*◌, ◌/◌, ◌%◌, ◌<◌, ◌≤◌, min, eqb, length};
ghost use Rattle.std.proofs.lemmas.List.Edits.{sets};
ghost use Rattle.answers.specs.Answers.{out as out_of};
ghost use Rattle.programme.specs.Field.{only, number};
ghost use Rattle.programme.specs.Reading.{read_of, step_of};
ghost use Rattle.programme.specs.Count.{count_of};
ghost use Rattle.programme_items.specs.Items.{item_back, walked, walk_of};
ghost use Rattle.programme_items.specs.Parts.{left_by, up_to, included, included_numbers, lies_of, numbers_to, chain, told_by, Narrow};

use programme::{Item, Loop};
use refusal::Refusal;

// Where an item's flags begin and end, counted from its place.
const FLAGS: usize = 4;

const FLAGS_END: usize = 6;

// The flags that say whether a field is there, among ten bits.
const PLAYBACK_LENGTH: u16 = 32;

const PLAYBACK_DELAY: u16 = 16;

const EXPIRATION: u16 = 8;

const CONTENT_SIZE: u16 = 4;

// The bytes of all four fields.
const ALL_FOUR: usize = 15;

// The numbers that fit a field's bits: 20, 32 and 40. What stands above them is reserved.
const SECONDS: u64 = 1048576;

const EXPIRATIONS: u64 = 4294967296;

const SIZES: u64 = 1099511627776;

// How many numbers tell an item.
pub const NUMBERS: usize = 10;

// Items that were handed out: how many, and the place after the last.
#[derive(Clone, Copy, Debug, PartialEq, Eq)]
pub struct Passed {
    pub count: usize,
    pub next: usize,
}

// An item's flags, the places of its name's length and of its descriptors' number, and where it ends.
#[derive(Clone, Copy)]
struct Parts {
    flags: u16,
    named: usize,
    counted: usize,
    next: usize,
}

// The value of a field that a flag may include, and the place after it.
#[derive(Clone, Copy)]
struct Taken {
    value: u64,
    next: usize,
}

// Whether a flag is 1.
fn is_set(flags: u16, flag: u16) -> bool
    requires { 0 < flag }
    ensures { result ≡ eqb (flags / flag % 2) 1 }
{
    flags / flag % 2 == 1
}

// How many bytes a field has that a flag includes.
fn bytes_of(flags: u16, flag: u16, bytes: usize) -> usize
    requires { 0 < flag }
    ensures { result ≡ only (eqb (flags / flag % 2) 1) bytes }
{
    if is_set(flags, flag) { bytes } else { 0 }
}

// How many bytes the four fields have that flags include.
fn bytes_included(flags: u16) -> usize
    ensures { (result ≡ included flags) × (result ≤ 15) }
{
    let playback_length = bytes_of(flags, PLAYBACK_LENGTH, 3);
    let playback_delay = bytes_of(flags, PLAYBACK_DELAY, 3);
    let expiration = bytes_of(flags, EXPIRATION, 4);
    let content_size = bytes_of(flags, CONTENT_SIZE, 5);
    playback_length + playback_delay + expiration + content_size
}

// Where fields end that flags include, from a place on; none where one of them passes the end. With a quick way where none of the four is there
// and where all are: a walk over items with all of them is slower where the fields are added up.
fn past_included(size: usize, from: usize, flags: u16) -> Option<usize>
    requires { (from ≤ size) × (size ≤ 65535) }
    ensures { result ≡ up_to size (from + included flags) }
{
    let there = flags / CONTENT_SIZE % 16;
    if there == 0 {
        return Some(from);
    }
    if there == 15 {
        let end = from + ALL_FOUR;
        if size < end {
            return None;
        }
        return Some(end);
    }
    let end = from + bytes_included(flags);
    if size < end {
        return None;
    }
    Some(end)
}

// Where the parts of the item at a place lie; none where one of its fields, or its loop, passes the end.
fn lies_at(bytes: &[u8], at: usize) -> Option<Parts>
    requires { (at ≤ length bytes.now) × (length bytes.now ≤ 65535) }
    ensures { result ≡ lies_of bytes.now at }
{
    let size = bytes.len();
    if size < at + FLAGS_END {
        return None;
    }
    let flags = (programme::number::<2>(&bytes[at + FLAGS..at + FLAGS_END]) / 64) as u16;
    let named = past_included(size, at + FLAGS_END, flags)?;
    if size <= named {
        return None;
    }
    let counted = named + 1 + usize::from(bytes[named]);
    if size <= counted {
        return None;
    }
    let count = bytes[counted];
    let next = programme::run_from(bytes, counted + 1, count)?;
    Some(Parts {
        flags,
        named,
        counted,
        next,
    })
}

// The value of a field of N bytes that a flag includes, with the place after it; 0 and the place itself where the flag is 0.
fn optional<const N: usize>(bytes: &[u8], at: usize, flags: u16, flag: u16, values: u64) -> Taken
    requires { (N ≤ 8) × (0 < flag) × (0 < values) × (at + only (eqb (flags / flag % 2) 1) N ≤ length bytes.now) }
    ensures value_value { result.value ≡ only (eqb (flags / flag % 2) 1) (number bytes.now at N % values) }
    ensures next_value { result.next ≡ at + only (eqb (flags / flag % 2) 1) N }
{
    if !is_set(flags, flag) {
        return Taken { value: 0, next: at };
    }
    let next = at + N;
    let value = programme::number::<N>(&bytes[at..next]) % values;
    Taken { value, next }
}

// Puts the four fields that flags may include, from a place of the payload, at a place of the numbers.
fn put_included(bytes: &[u8], at: usize, flags: u16, fields: &mut [u64], to: usize)
    requires { (at + included flags ≤ length bytes.now) × (to + 4 ≤ length fields.old) }
    ensures { fields.new ≡ sets fields.old to (included_numbers bytes.now at flags) }
{
    // The quick way where none of the four is there.
    if flags / CONTENT_SIZE % 16 == 0 {
        fields[to] = 0;
        fields[to + 1] = 0;
        fields[to + 2] = 0;
        fields[to + 3] = 0;
        return;
    }
    let playback = optional::<3>(bytes, at, flags, PLAYBACK_LENGTH, SECONDS);
    fields[to] = playback.value;
    let delay = optional::<3>(bytes, playback.next, flags, PLAYBACK_DELAY, SECONDS);
    fields[to + 1] = delay.value;
    let expires = optional::<4>(bytes, delay.next, flags, EXPIRATION, EXPIRATIONS);
    fields[to + 2] = expires.value;
    let size = optional::<5>(bytes, expires.next, flags, CONTENT_SIZE, SIZES);
    fields[to + 3] = size.value;
}

// Puts the numbers of the item at a place, whose parts lie so, at a place of the numbers.
fn put_item(bytes: &[u8], at: usize, parts: Parts, fields: &mut [u64], to: usize)
    requires parts_value { Some parts ≡ lies_of bytes.now at }
    requires bytes_len_bound { (length bytes.now ≤ 65535) × (to + 10 ≤ length fields.old) }
    ensures { fields.new ≡ sets fields.old to (numbers_to bytes.now at parts.next) }
{
    let counted = parts.counted;
    fields[to] = programme::number::<4>(&bytes[at..at + 4]);
    fields[to + 1] = u64::from(parts.flags);
    put_included(bytes, at + FLAGS_END, parts.flags, fields, to + 2);
    fields[to + 6] = (parts.named + 1) as u64;
    fields[to + 7] = u64::from(bytes[counted]);
    fields[to + 8] = (counted + 1) as u64;
    fields[to + 9] = parts.next as u64;
}

// Puts the items from a place on at the front of the numbers, so many at most, up to the first that passes the end, and answers how many
// numbers these are.
fn tell_items(bytes: &[u8], at: usize, most: usize, fields: &mut [u64]) -> usize
    requires { (length bytes.now ≤ 65535) × (10 * most ≤ length fields.old) }
    ensures { out_of result fields.new ≡ told_by fields.old (chain most bytes.now at) }
{
    if at < programme::FIRST_ITEM {
        return 0;
    }
    if bytes.len() < at {
        return 0;
    }
    let mut place = at;
    for i in 0..most {
        let Some(parts) = lies_at(bytes, place) else {
            return NUMBERS * i;
        };
        put_item(bytes, place, parts, fields, NUMBERS * i);
        place = parts.next;
    }
    NUMBERS * most
}

// How many items are left from a number on; none where the list has no item of that number.
fn left_from(payload: &[u8], number: u8) -> Result<Option<usize>, Refusal>
    ensures { result ≡ left_by number (count_of (read_of payload.now)) }
{
    let items = programme::count_items(payload)?;
    if number < items {
        Ok(Some(usize::from(items - number)))
    } else {
        Ok(None)
    }
}

// The item that ten numbers tell.
fn item_of(numbers: &[u64]) -> Item
    requires { Narrow numbers.now }
    ensures { result ≡ item_back numbers.now }
{
    let nameat = numbers[6] as usize;
    let place = numbers[8] as usize;
    let next = numbers[9] as usize;
    let descriptors = Loop {
        count: numbers[7] as u8,
        place,
        length: next - place,
    };
    Item {
        linkage: numbers[0] as u32,
        flags: numbers[1] as u16,
        playback: numbers[2] as u32,
        delay: numbers[3] as u32,
        expires: numbers[4] as u32,
        size: numbers[5],
        nameat,
        named: place - 1 - nameat,
        descriptors,
        next,
    }
}

// What stands at a place of the payload, taken for item `number` of its list: the item, none where it has no item of that number, or the
// refusal. Any place and any number may be asked.
pub fn item_at(payload: &[u8], at: usize, number: u8) -> Result<Option<Item>, Refusal>
    ensures { result ≡ step_of payload.now at number }
{
    let left = left_from(payload, number)?;
    let Some(_) = left else {
        return Ok(None);
    };
    let mut numbers = [0u64; NUMBERS];
    let told = tell_items(payload, at, 1, &mut numbers);
    if told == 0 {
        Err(Refusal::ProgrammePassesEnd)
    } else {
        Ok(Some(item_of(&numbers)))
    }
}

// The items from a place on, the one there taken for item `number` of the list, as many as the numbers have room for: how many they are
// and the place after the last, none where it has no item of that number, or the refusal. Any place and any number may be asked.
pub fn items_at(
    payload: &[u8],
    at: usize,
    number: u8,
    fields: &mut [u64],
) -> Result<Option<Passed>, Refusal>
    ensures { walked result fields.new ≡ walk_of payload.now at number fields.old }
{
    if fields.len() < NUMBERS {
        return match item_at(payload, at, number)? {
            None => Ok(None),
            Some(_) => Err(Refusal::OutputTooSmall),
        };
    }
    let Some(many) = left_from(payload, number)? else {
        return Ok(None);
    };
    let most = (fields.len() / NUMBERS).min(many);
    let told = tell_items(payload, at, most, fields);
    if told == 0 {
        return Err(Refusal::ProgrammePassesEnd);
    }
    let count = told / NUMBERS;
    let next = fields[told - 1] as usize;
    Ok(Some(Passed { count, next }))
}
