// The words of the record that a call leaves: with one more held, or once the clock has moved.

#![tactic(auto)]

ghost use Rattle.std.specs.Prelude.{◌≡◌};
ghost use Rattle.clock_record.specs.Words.{book_in, words_with};
ghost use Rattle.clock_keep.specs.Keep.{moved, forgotten, kept_of};
ghost use Rattle.clock_keep.specs.Hold.{holding};

use clock_activation::{HELD, Held, is_past, mark, within};
use clock_record::{COUNT, MARKS, NOW, SIZE, STATES, TIMES, held_at};

// The fields of a place's second word end below this bit.
const BIT_27: u32 = 134217728;

// The words with one more behind those that are held, and with the states; the places past it are zeros. Where 32 are held the
// words are as they were.
pub fn hold(states: u32, h: Held, words: [u32; SIZE]) -> [u32; SIZE]
    ensures { result ≡ holding states h words }
{
    let n = words[COUNT] as usize;
    if HELD <= n {
        return words;
    }
    let mut next = words;
    for i in 0..HELD {
        next[TIMES + 2 * i] = if i < n { words[TIMES + 2 * i] } else { 0 };
        next[MARKS + 2 * i] = if i < n {
            words[MARKS + 2 * i] % BIT_27
        } else {
            0
        };
    }
    next[STATES] = states;
    next[COUNT] = n as u32 + 1;
    next[TIMES + 2 * n] = h.activation.time;
    next[MARKS + 2 * n] = mark(h);
    next
}

// One held after a move to that time.
fn after(to: u32, h: Held) -> Held
    ensures { result ≡ moved to h }
{
    Held {
        applied: h.applied | (h.activation.time <= to),
        ..h
    }
}

// Whether one held is applied and past its memory.
fn is_forgotten(to: u32, h: Held) -> bool
    ensures { result ≡ forgotten to h }
{
    h.applied & is_past(to, h.activation.time)
}

// The words after a move to that time: those that it reaches are applied, and those past their memory are gone. The others
// keep the order of their places.
pub fn keep(to: u32, states: u32, words: &[u32; SIZE]) -> [u32; SIZE]
    ensures { result ≡ words_with to states (kept_of to (book_in words.now).held) }
{
    let n = within(words[COUNT]);
    let mut next = [0u32; SIZE];
    let mut kept: usize = 0;
    for i in 0..n {
        let h = after(to, held_at(i, words));
        if !is_forgotten(to, h) {
            next[TIMES + 2 * kept] = h.activation.time;
            next[MARKS + 2 * kept] = mark(h);
            kept += 1;
        }
    }
    next[NOW] = to;
    next[STATES] = states;
    next[COUNT] = kept as u32;
    next
}
