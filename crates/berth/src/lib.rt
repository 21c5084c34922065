// The berths of the store that the host lends (document 01, "The shelf"): section s of the table in place p begins at
// 1,024 × (16p + s), and the rest of its berth is zeros. A call that names no berth of a whole store changes nothing.
#![tactic(auto)]

ghost use Rattle.std.specs.Prelude.{◌≡◌, true, eqb, ◌+◌, ◌≤◌, length};
ghost use Rattle.base.specs.Bits.{bit};
ghost use Rattle.base.specs.Below.{every};
ghost use Rattle.base.specs.Bytes.{byte, same};
ghost use Rattle.berth.specs.Calls.{begin_in, put_in, wiped_in, wiped_where_in, stands_in, copied_in};

// A berth's bytes, which the largest section fills, the sections of a table, the places of a shelf, and the bytes of the whole store.
pub const BERTH: usize = section::LARGEST;

pub const SECTIONS: usize = section::SECTIONS;

pub const PLACES: usize = 4;

pub const STORE: usize = PLACES * SECTIONS * BERTH;

// Whether the bytes of a piece from a place on are the same. It reads all of them and keeps a yes or no: without a way out at each byte the
// compiler compares many at a time, and asks once of all the answers.
fn same_from(a: &[u8], b: &[u8], from: usize, piece: usize) -> bool
    requires { (from + piece ≤ length a.now) × (from + piece ≤ length b.now) }
    ensures { result ≡ every piece (λ k. eqb (byte a.now (from + k)) (byte b.now (from + k))) }
{
    let mut same = true;
    for i in 0..piece {
        same &= a[from + i] == b[from + i];
    }
    same
}

// Whether two runs of bytes are the same throughout, as one piece.
fn each_equal(a: &[u8], b: &[u8]) -> bool
    ensures { result ≡ same a.now b.now }
{
    if a.len() != b.len() {
        return false;
    }
    same_from(a, b, 0, a.len())
}

// The bytes of a piece that is compared at once.
const PIECE: usize = 64;

// The bytes of a piece of the shortest sections, which have at least as many.
const SHORT_PIECE: usize = 8;

// Whether two runs of a piece's bytes, or up to twice as many, are the same throughout. They are two pieces, which may overlap:
// the last is compared, and then the first, unless they are one and the same.
fn by_pieces(a: &[u8], b: &[u8], piece: usize) -> bool
    requires { (length a.now ≡ length b.now) × (piece ≤ length a.now) × (length a.now ≤ piece + piece) }
    ensures { result ≡ same a.now b.now }
{
    let size = a.len();
    if !same_from(a, b, size - piece, piece) {
        return false;
    }
    if size == piece {
        return true;
    }
    same_from(a, b, 0, piece)
}

// Whether two runs of bytes are the same throughout. From 64 to 128 bytes are two pieces of 64, and from 8 to 16 two of 8. The library's `==` took 1 to 3
// nanoseconds more for these and for up to 512 bytes on x86-64, of some 14 that a repeat takes, and is a call, of which a repeat has none.
fn equal(a: &[u8], b: &[u8]) -> bool
    ensures { result ≡ same a.now b.now }
{
    if a.len() != b.len() {
        return false;
    }
    let size = a.len();
    if PIECE <= size {
        if size <= 2 * PIECE {
            return by_pieces(a, b, PIECE);
        }
        return each_equal(a, b);
    }
    if SHORT_PIECE <= size {
        if size <= 2 * SHORT_PIECE {
            return by_pieces(a, b, SHORT_PIECE);
        }
    }
    each_equal(a, b)
}

// Where berth n of place p begins, in a store of that size that is whole and has the berth.
fn begin_of(size: usize, p: usize, n: usize) -> Option<usize>
    ensures { result ≡ begin_in size p n }
{
    if (size == STORE) & (p < PLACES) & (n < SECTIONS) {
        Some(BERTH * (SECTIONS * p + n))
    } else {
        None
    }
}

// Stores a section in berth n of place p: its bytes, and the rest of the berth is zeros.
pub fn put(store: &mut [u8], p: usize, n: usize, section: &[u8])
    ensures { store.new ≡ put_in store.old p n section.now }
{
    if BERTH < section.len() {
        return;
    }
    if let Some(from) = begin_of(store.len(), p, n) {
        let rest = from + section.len();
        store[from..rest].copy_from_slice(section);
        store[rest..from + BERTH].fill(0);
    }
}

// Zeroes berth n of place p.
pub fn wipe(store: &mut [u8], p: usize, n: usize)
    ensures { store.new ≡ wiped_in store.old p n }
{
    if let Some(from) = begin_of(store.len(), p, n) {
        store[from..from + BERTH].fill(0);
    }
}

// Zeroes all berths of place p.
pub fn wipe_all(store: &mut [u8], p: usize)
    ensures { store.new ≡ wiped_where_in (λ _. true) store.old p }
{
    if let Some(from) = begin_of(store.len(), p, 0) {
        store[from..from + SECTIONS * BERTH].fill(0);
    }
}

// The mask that has a bit for each section.
const EACH: u16 = 65535;

// Zeroes of the berths of place p those whose bit is 1. Where it is 1 for each, as when a whole table gives way, they go as one.
pub fn wipe_where(store: &mut [u8], p: usize, mask: u16)
    ensures { store.new ≡ wiped_where_in (bit mask) store.old p }
{
    if mask == EACH {
        wipe_all(store, p);
        return;
    }
    for n in 0..SECTIONS {
        if (mask >> n) % 2 == 1 {
            wipe(store, p, n);
        }
    }
}

// Whether the first count bytes of berth n of place p are this section.
pub fn stands(store: &[u8], p: usize, n: usize, count: usize, section: &[u8]) -> bool
    ensures { result ≡ stands_in store.now p n count section.now }
{
    if BERTH < count {
        return false;
    }
    match begin_of(store.len(), p, n) {
        Some(from) => equal(&store[from..from + count], section),
        None => false,
    }
}

// Copies the first count bytes of berth n of place p to the front of an output that has room for them.
pub fn copy_out(store: &[u8], p: usize, n: usize, count: usize, out: &mut [u8])
    ensures { out.new ≡ copied_in store.now p n count out.old }
{
    if BERTH < count {
        return;
    }
    if out.len() < count {
        return;
    }
    if let Some(from) = begin_of(store.len(), p, n) {
        out[..count].copy_from_slice(&store[from..from + count]);
    }
}
