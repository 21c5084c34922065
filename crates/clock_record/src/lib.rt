// A clock record: 67 words of 32 bits. The layout stands in specs/Words.antt. Whether a record is spoiled, and whether it
// holds an activation, is told from the words where they stand.

#![tactic(auto)]

ghost use Rattle.std.specs.Prelude.{◌≡◌, [], ◌∷◌, ◌<◌, ◌≤◌, eqb, take, get_or};
ghost use Rattle.clock_activation.specs.Limits.{most_held};
ghost use Rattle.clock_activation.specs.Activation.{nobody};
ghost use Rattle.clock_record.specs.Lists.{any_of};
ghost use Rattle.clock_record.specs.Held.{is_one, is_held, two_alike, wrong};
ghost use Rattle.clock_record.specs.Book.{spoiled};
ghost use Rattle.clock_record.specs.Words.{helds_in, book_in};
ghost use Rattle.clock_record.specs.Codes.{one_of, two_same, Numbered};

use clock_activation::{Activation, HELD, Held, code, held_of, is_past, within};
use clock_rule::{Action, is_above};

// How many words a record is.
pub const SIZE: usize = 67;

// Where its parts stand: the clock, the states, how many are held, and the two words of the first place. Those of place i
// stand 2i further.
pub const NOW: usize = 0;

pub const STATES: usize = 1;

pub const COUNT: usize = 2;

pub const TIMES: usize = 3;

pub const MARKS: usize = 4;

// Whether one held cannot stand in a record at that time. No part is left out, so that several are looked at at a time.
fn is_wrong(now: u32, h: Held) -> bool
    ensures { result ≡ wrong now h }
{
    let a = h.activation;
    let applied = h.applied;
    let above = is_above(a.application);
    let come = a.time <= now;
    let past = is_past(now, a.time);
    above | (!applied & come) | (applied & (!come | past))
}

// What stands for an activation where there is no place.
const NOTHING: Activation = Activation {
    application: 0,
    event: 0,
    action: Action::Prep,
    time: 0,
};

// What a place holds. Behind the last place there is nothing, since a public function asks nothing of its caller; the definitions have `nobody` there.
pub fn held_at(i: usize, words: &[u32; SIZE]) -> Held
    ensures { result ≡ get_or (helds_in words.now) i nobody }
{
    if HELD <= i {
        return Held {
            activation: NOTHING,
            applied: false,
        };
    }
    held_of(words[TIMES + 2 * i], words[MARKS + 2 * i])
}

// Whether one of the first n places cannot stand in a record at that time.
fn any_wrong(current: u32, n: usize, words: &[u32; SIZE]) -> bool
    requires { n ≤ most_held }
    ensures { result ≡ any_of (wrong current) (take n (helds_in words.now)) }
{
    let mut found = false;
    for i in 0..n {
        found |= is_wrong(current, held_at(i, words));
    }
    found
}

// Whether what is held is that activation. Its action has no part in that, so this is no derived equality.
fn is_one(a: Activation, h: Held) -> bool
    ensures { result ≡ is_one a h }
{
    let b = h.activation;
    (a.application == b.application) & (a.event == b.event) & (a.time == b.time)
}

// Whether one of the first n places holds an activation.
fn is_among(a: Activation, n: usize, words: &[u32; SIZE]) -> bool
    requires { n ≤ most_held }
    ensures { result ≡ is_held a (take n (helds_in words.now)) }
{
    let mut found = false;
    for i in 0..n {
        found |= is_one(a, held_at(i, words));
    }
    found
}

// Whether an activation is held.
pub fn is_held(a: Activation, words: &[u32; SIZE]) -> bool
    ensures { result ≡ is_held a (book_in words.now).held }
{
    let n = within(words[COUNT]);
    is_among(a, n, words)
}

// Writes the number of what each of the first n places holds. There is no heap, so the array has room for all.
fn write_codes(n: usize, words: &[u32; SIZE], codes: &mut [u64; HELD])
    requires { n ≤ most_held }
    ensures { Numbered (take n (helds_in words.now)) (take n codes.new) }
{
    for i in 0..n {
        codes[i] = code(held_at(i, words).activation);
    }
}

// Whether a number stands among others. It looks at all, so that several are compared at a time.
fn is_in(x: u64, codes: &[u64]) -> bool
    ensures { result ≡ any_of (eqb x) codes.now }
{
    let mut found = false;
    for y in codes {
        found |= x == *y;
    }
    found
}

// Whether one of four numbers stands among others: each of those is read once for the four.
fn four_in(a: u64, b: u64, c: u64, d: u64, codes: &[u64]) -> bool
    ensures { result ≡ any_of (one_of a b c d) codes.now }
{
    let mut found = false;
    for y in codes {
        let x = *y;
        found |= (a == x) | (b == x) | (c == x) | (d == x);
    }
    found
}

// Whether two of four numbers are equal.
fn two_of_four(a: u64, b: u64, c: u64, d: u64) -> bool
    ensures { result ≡ two_same (a ∷ b ∷ c ∷ d ∷ []) }
{
    (a == b) | (a == c) | (a == d) | (b == c) | (b == d) | (c == d)
}

// Whether two numbers are equal: four are compared with all that follow, while there are four.
fn two_same(codes: &[u64]) -> bool
    ensures { result ≡ two_same codes.now }
{
    let mut rest = codes;
    while let [a, b, c, d, after @ ..] = rest {
        if two_of_four(*a, *b, *c, *d) | four_in(*a, *b, *c, *d, after) {
            return true;
        }
        rest = after;
    }
    while let [x, after @ ..] = rest {
        if is_in(*x, after) {
            return true;
        }
        rest = after;
    }
    false
}

// Whether two of the first n places hold one activation.
fn two_alike(n: usize, words: &[u32; SIZE]) -> bool
    requires { n ≤ most_held }
    ensures { result ≡ two_alike (take n (helds_in words.now)) }
{
    let mut codes = [0u64; HELD];
    write_codes(n, words, &mut codes);
    two_same(&codes[..n])
}

// Whether a record is spoiled.
pub fn is_spoiled(words: &[u32; SIZE]) -> bool
    ensures { result ≡ spoiled (book_in words.now) }
{
    let n = words[COUNT] as usize;
    if HELD < n {
        return true;
    }
    if any_wrong(words[NOW], n, words) {
        return true;
    }
    two_alike(n, words)
}
