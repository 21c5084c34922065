// The answers about an NRT-IT section in numbers, as a host gets them.
#![tactic(auto)]

ghost use Rattle.std.specs.Prelude.{◌≡◌, ◌<◌};
ghost use Rattle.answers.specs.Answers.{out as out_of};
ghost use Rattle.programme.specs.Reading.{own_of};
ghost use Rattle.programme_answers.specs.Lent.{read_lent, passed_code, items_lent, loop_code, own_code};

use programme::Loop;
use programme_items::Passed;
use refusal::Refusal;

// How many numbers the fields before the items are answered in.
const FIELDS: usize = 4;

// What was found at a place, from bit 8 of the answer.
const ITEMS: u64 = 256;

const OVER: u64 = 512;

// Reads the fields before the items and puts them at the front of the buffer, or answers the refusal: here the answer becomes the number that C gets.
pub fn programme_read(payload: &[u8], fields: &mut [u32]) -> u8
    ensures { out_of result fields.new ≡ read_lent payload.now fields.old }
{
    match programme::read(payload) {
        Err(refusal) => u8::from(refusal),
        Ok(p) => {
            if fields.len() < FIELDS {
                return Refusal::OutputTooSmall as u8;
            }
            fields[0] = u32::from(p.service);
            fields[1] = p.start;
            fields[2] = u32::from(p.minutes);
            fields[3] = u32::from(p.items);
            0
        }
    }
}

// Items that were handed out in one number: each value begins at its bit.
fn passed_code(p: Passed) -> u64
    requires { (p.count < 65536) × (p.next < 65536) }
    ensures { result ≡ passed_code p }
{
    let count = p.count as u64 * answers::BIT_16;
    let next = p.next as u64 * answers::BIT_32;
    ITEMS + count + next
}

// The items from a place of the payload on, the one there taken for item `number` of its list, as many as there is room for: their
// numbers at the front of the buffer, how many they are and the place after the last; that it has no item of that number; or the refusal.
pub fn programme_items(payload: &[u8], at: usize, number: u8, fields: &mut [u64]) -> u64
    ensures { out_of result fields.new ≡ items_lent payload.now at number fields.old }
{
    match programme_items::items_at(payload, at, number, fields) {
        Ok(Some(passed)) => passed_code(passed),
        Ok(None) => OVER,
        Err(refusal) => u64::from(u8::from(refusal)),
    }
}

// A loop in one number: each value begins at its bit.
fn loop_code(l: Loop) -> u64
    requires { (l.place < 65536) × (l.length < 65536) }
    ensures { result ≡ loop_code l }
{
    let count = u64::from(l.count) * answers::BIT_8;
    let place = l.place as u64 * answers::BIT_16;
    let length = l.length as u64 * answers::BIT_32;
    count + place + length
}

// The table's own loop from a place, in one number: 0 in the low 8 bits, and count, place and length above; or the refusal alone.
pub fn programme_own(payload: &[u8], at: usize) -> u64
    ensures { result ≡ own_code (own_of payload.now at) }
{
    match programme::own_loop(payload, at) {
        Ok(own) => loop_code(own),
        Err(error) => error as u64,
    }
}
