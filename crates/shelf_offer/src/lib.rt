// Offering a section to the shelf (document 01, "Offering a sound section"), over the numbers and the store that the host lends.
#![tactic(auto)]

ghost use Rattle.std.specs.Prelude.{◌≡◌, true, false, ◌<◌, ◌≤◌, length, Ok, IsErr};
ghost use Rattle.berth.specs.Berth.{berth_size, places, sections, store_size};
ghost use Rattle.base.specs.Bits.{bit};
ghost use Rattle.berth.specs.Calls.{put_in, wiped_where_in};
ghost use Rattle.key.specs.Theorems.{Proper};
ghost use Rattle.section.specs.Section.{read_of, header_of};
ghost use Rattle.refusal.specs.Refusal.{number_of};
ghost use Rattle.shelf.specs.Record.{place_at, spoiled_of};
ghost use Rattle.shelf.specs.Layout.{count, taken_in, shelf_in, shelf_at};
ghost use Rattle.shelf_write.specs.Calls.{held_put, head_put};
ghost use Rattle.shelf_offer.specs.Steps.{held_step, sound_step, step_of};
ghost use Rattle.shelf_check.specs.Unless.{unless_spoiled};
ghost use Rattle.answers.specs.Answers.{lent};
ghost use Rattle.shelf_offer.specs.Answer.{offered_code, offer_lent};

use refusal::Refusal;
use section::Header;

// What an offer that is accepted comes to.
#[derive(Clone, Copy, Debug, PartialEq, Eq)]
pub enum Offered {
    // The key was not held: the section begins the table.
    Began,
    // Another version: what was held is gone, and the section begins the table again.
    BeganAgain,
    // A number that was not held.
    Added,
    // The same bytes were held: nothing changes.
    Repeat,
}

// What an offer of a sound section that is accepted comes to where the record is not spoiled, and in which place.
#[derive(Clone, Copy)]
enum Step {
    Repeats,
    Begins(usize),
    BeginsAgain(usize),
    Adds(usize),
}

// The step of a sound section whose key is held in place p. Numbers and store are slices here and below, since what
// calls these writes to them: of one that is lent on as an array the proof does not get what it holds afterwards (`shelf_write`).
fn held_step(
    words: &[u16],
    store: &[u8],
    payload: &[u8],
    header: Header,
    p: usize,
) -> Result<Step, Refusal>
    requires words_len { (length words.now ≡ count) × (length store.now ≡ store_size) }
    requires p_lt_places { (p < places) × (taken_in words.now p ≡ true) }
    requires number_lt_sections { (header.number < sections) × (header.version < 32) × (header.last < 16) × (length payload.now ≤ berth_size) }
    ensures { spoiled_of (shelf_in words.now) ≡ false → result ≡ held_step (place_at (shelf_in words.now) p) store.now payload.now p header }
{
    if shelf::version_of(words, p) != u16::from(header.version) {
        return Ok(Step::BeginsAgain(p));
    }
    if shelf::last_of(words, p) != u16::from(header.last) {
        return Err(Refusal::Differs);
    }
    let number = usize::from(header.number);
    let length = usize::from(shelf::length_of(words, p, number));
    if length == 0 {
        return Ok(Step::Adds(p));
    }
    if length != payload.len() {
        return Err(Refusal::Differs);
    }
    if berth::stands(store, p, number, payload.len(), payload) {
        return Ok(Step::Repeats);
    }
    Err(Refusal::Differs)
}

// The step of a sound section: it reads all that it is lent, and writes nothing. A place of 4 is none, as `shelf` has it.
fn sound_step(words: &[u16], store: &[u8], payload: &[u8], header: Header) -> Result<Step, Refusal>
    requires words_len { (length words.now ≡ count) × (length store.now ≡ store_size) }
    requires number_lt_sections { (header.number < sections) × (header.version < 32) × (header.last < 16) × (length payload.now ≤ berth_size) }
    requires proper { Proper header.key }
    ensures { spoiled_of (shelf_at words.now) ≡ false → result ≡ sound_step (shelf_at words.now) store.now payload.now header }
{
    let p = shelf::place_of_said(words, header.key);
    if p < berth::PLACES {
        return held_step(words, store, payload, header, p);
    }
    let free = shelf::free_of(words);
    if free < berth::PLACES {
        return Ok(Step::Begins(free));
    }
    Err(Refusal::NoFreePlace)
}

// The numbers and the store are two parameters throughout, as the C interface lends them: a struct of the two slices comes by way of memory.
//
// Says in the numbers that a section is held, and stores it. The numbers come first: the next call reads them by wide loads, which wait
// for all that was written before them.
fn add(words: &mut [u16], store: &mut [u8], payload: &[u8], p: usize, n: usize)
    requires { length payload.now ≤ berth_size }
    ensures words_after { words.new ≡ held_put words.old p n (length payload.now) }
    ensures store_after { store.new ≡ put_in store.old p n payload.now }
{
    let size = payload.len() as u16;
    shelf_write::put_held(words, p, n, size);
    berth::put(store, p, n, payload);
}

// The answers as numbers, as C gets them: the kind from bit 8 up.
const BEGAN: u16 = 256;

const BEGAN_AGAIN: u16 = 512;

const ADDED: u16 = 768;

const REPEAT: u16 = 1024;

// Where a section has its number. One that is added is not read anew for it: that took 0.3 nanoseconds more (docs/SPEED.md).
const NUMBER: usize = 6;

// An answer in a number whose low 8 bits are the refusal.
fn code_of(answer: Result<Offered, Refusal>) -> u16
    ensures { result ≡ offered_code answer }
{
    match answer {
        Ok(Offered::Repeat) => REPEAT,
        Ok(Offered::Added) => ADDED,
        Ok(Offered::Began) => BEGAN,
        Ok(Offered::BeganAgain) => BEGAN_AGAIN,
        Err(refusal) => refusal as u16,
    }
}

// The answer of an offer that writes nothing, which is that number where the record is not spoiled.
fn settle(words: &[u16], passed: bool, number: u16) -> u16
    requires { passed ≡ true → spoiled_of (shelf_at words.now) ≡ false }
    ensures { result ≡ unless_spoiled (spoiled_of (shelf_at words.now)) number }
{
    if passed {
        return number;
    }
    shelf_check::unless_spoiled(words, number)
}

// The answer to a payload that is no sound section. It is read again, so that the offer itself need not know which refusal it was.
#[inline(never)]
fn refuse(words: &[u16], payload: &[u8], passed: bool) -> u16
    requires passed { passed ≡ true → spoiled_of (shelf_at words.now) ≡ false }
    requires refused { IsErr (read_of payload.now) }
    ensures { result ≡ unless_spoiled (spoiled_of (shelf_at words.now)) (number_of (read_of payload.now)) }
{
    let refusal = section::read(payload).unwrap_err();
    settle(words, passed, code_of(Err(refusal)))
}

// What follows is one call in stages, each with what the one before it found: they stand apart for the frames that they need (docs/SPEED.md), and
// `passed` says that the record need not be asked. Begins a table in place p, where the held sections give way whose bits are 1. The header is read again, so that all comes in registers.
#[inline(never)]
fn begin(words: &mut [u16], store: &mut [u8], payload: &[u8], p: usize, going: u16)
    requires { read_of payload.now ≡ Ok (header_of payload.now) }
    ensures words_after { words.new
        ≡ held_put (head_put words.old p (header_of payload.now).key (header_of payload.now).version (header_of payload.now).last) p (header_of payload.now).number (length payload.now) }
    ensures store_after { store.new
        ≡ put_in (wiped_where_in (bit going) store.old p) p (header_of payload.now).number payload.now }
{
    let header = section::read(payload).unwrap();
    berth::wipe_where(store, p, going);
    shelf_write::put_head(words, p, header.key, header.version, header.last);
    add(words, store, payload, p, usize::from(header.number));
}

// Carries a step out in a record that is not spoiled.
fn carried(words: &mut [u16], store: &mut [u8], payload: &[u8], step: Step) -> u16
    requires store_len { (length store.old ≡ store_size) × (spoiled_of (shelf_at words.old) ≡ false) }
    requires sound { read_of payload.now ≡ Ok (header_of payload.now) }
    requires is_step { step_of (shelf_at words.old) store.old payload.now ≡ Ok step }
    ensures { lent result words.new store.new ≡ offer_lent words.old store.old payload.now }
{
    match step {
        Step::Repeats => code_of(Ok(Offered::Repeat)),
        Step::Begins(p) => {
            begin(words, store, payload, p, 0);
            code_of(Ok(Offered::Began))
        }
        Step::BeginsAgain(p) => {
            let going = shelf::mask_of(words, p);
            begin(words, store, payload, p, going);
            code_of(Ok(Offered::BeganAgain))
        }
        Step::Adds(p) => {
            add(words, store, payload, p, usize::from(payload[NUMBER]));
            code_of(Ok(Offered::Added))
        }
    }
}

// The same, apart from a repeat, which nine offers in ten are and which needs no frame. The payload is taken apart at once, so that all
// comes in registers: a step with its place takes two.
#[inline(never)]
fn carry_out(words: &mut [u16], store: &mut [u8], payload: &[u8], step: Step) -> u16
    requires store_len { (length store.old ≡ store_size) × (spoiled_of (shelf_at words.old) ≡ false) }
    requires sound { read_of payload.now ≡ Ok (header_of payload.now) }
    requires is_step { step_of (shelf_at words.old) store.old payload.now ≡ Ok step }
    ensures { lent result words.new store.new ≡ offer_lent words.old store.old payload.now }
{
    let size = payload.len();
    let section = &payload[0..size];
    carried(words, store, section, step)
}

// The same in a record that has yet to be asked.
#[inline(never)]
fn ask_first(words: &mut [u16], store: &mut [u8], payload: &[u8], step: Step) -> u16
    requires store_len { length store.old ≡ store_size }
    requires sound { read_of payload.now ≡ Ok (header_of payload.now) }
    requires is_step { spoiled_of (shelf_at words.old) ≡ false → step_of (shelf_at words.old) store.old payload.now ≡ Ok step }
    ensures { lent result words.new store.new ≡ offer_lent words.old store.old payload.now }
{
    let size = payload.len();
    let section = &payload[0..size];
    if shelf_check::is_spoiled(words) {
        return code_of(Err(Refusal::ShelfSpoiled));
    }
    carry_out(words, store, section, step)
}

// Offers a sound section.
fn offer_sound(
    words: &mut [u16],
    store: &mut [u8],
    payload: &[u8],
    header: Header,
    passed: bool,
) -> u16
    requires words_len { (length words.old ≡ count) × (length store.old ≡ store_size) × (read_of payload.now ≡ Ok header) }
    requires words_value { passed ≡ true → spoiled_of (shelf_at words.old) ≡ false }
    ensures { lent result words.new store.new ≡ offer_lent words.old store.old payload.now }
{
    match sound_step(words, store, payload, header) {
        Err(refusal) => settle(words, passed, code_of(Err(refusal))),
        Ok(Step::Repeats) => settle(words, passed, code_of(Ok(Offered::Repeat))),
        Ok(step) => {
            if passed {
                carry_out(words, store, payload, step)
            } else {
                ask_first(words, store, payload, step)
            }
        }
    }
}

// Offers a payload to the record that the numbers are, and answers in a number whose low 8 bits are the refusal. A refused call and a
// repeat leave numbers and store as they were; the refusals are 17, 18, 1 to 8, 46, 9, 10. What the offer comes to is found before the record is
// asked in full, which only one that has not passed is.
pub fn offer_code(words: &mut [u16], store: &mut [u8], payload: &[u8]) -> u16
    ensures { lent result words.new store.new ≡ offer_lent words.old store.old payload.now }
{
    if store.len() != berth::STORE {
        return code_of(Err(Refusal::StoreSize));
    }
    if words.len() != shelf::WORDS {
        return code_of(Err(Refusal::ShelfSpoiled));
    }
    let passed = shelf_check::passes(words);
    match section::read(payload) {
        Ok(header) => offer_sound(words, store, payload, header, passed),
        Err(_) => refuse(words, payload, passed),
    }
}
