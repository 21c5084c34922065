// Text that is written over an output that may be too short for it: a byte that has no room is only counted, so that writing a text
// over nothing tells its size, and writing it again leaves it. The output and the place in it are passed apart: of a struct that holds both, each
// function would have to promise that it holds the same loan still, beside what was written.
#![tactic(auto)]

ghost use Rattle.std.specs.Prelude.{◌≡◌, [], ◌∷◌, ◌++◌, ◌<◌};
ghost use Rattle.file_listing.specs.Words.{place as place_of, newline};
ghost use Rattle.text.specs.Words.{decimal, hex_digit, plain as plain_byte, shown as shownByte, escaped as escapedName};
ghost use Rattle.text.specs.Over.{next_place, Wrote};

pub const NEWLINE: u8 = 10;

// The powers of ten that a number can reach, from the highest down.
const POWERS: u8 = 12;

const HIGHEST: u64 = 1000000000000;

// The place behind a byte. The highest one stays: no output reaches it, and no text of any file.
fn next_place(at: usize) -> usize
    ensures { result ≡ next_place at }
{
    at.saturating_add(1)
}

// A byte, where there is room for it; the place behind it is answered in either case.
pub fn put(out: &mut [u8], at: usize, b: u8) -> usize
    ensures { Wrote (b ∷ []) out.old at out.new result }
{
    if at < out.len() {
        out[at] = b;
        return next_place(at);
    }
    next_place(at)
}

pub fn word(out: &mut [u8], at: usize, w: &[u8]) -> usize
    ensures { Wrote w.now out.old at out.new result }
{
    let mut end = at;
    for b in w {
        end = put(out, end, *b);
    }
    end
}

// The digit of a power of ten, where the number reaches it.
fn place(out: &mut [u8], at: usize, n: u64, power: u64) -> usize
    requires { 0 < power }
    ensures { Wrote (place_of power n) out.old at out.new result }
{
    if n < power {
        return at;
    }
    put(out, at, 48 + (n / power % 10) as u8)
}

// A number in decimal.
pub fn number(out: &mut [u8], at: usize, n: u64) -> usize
    ensures { Wrote (decimal n) out.old at out.new result }
{
    let mut end = at;
    let mut power = HIGHEST;
    for i in 0..POWERS {
        end = place(out, end, n, power);
        power /= 10;
    }
    put(out, end, 48 + (n % 10) as u8)
}

// A word and a number.
pub fn field(out: &mut [u8], at: usize, w: &[u8], n: u64) -> usize
    ensures { Wrote (w.now ++ decimal n) out.old at out.new result }
{
    let named = word(out, at, w);
    number(out, named, n)
}

// A line of a word and a number.
pub fn line(out: &mut [u8], at: usize, w: &[u8], n: u64) -> usize
    ensures { Wrote ((w.now ++ decimal n) ++ newline) out.old at out.new result }
{
    let told = field(out, at, w, n);
    put(out, told, NEWLINE)
}

// Two words, each with its number, and the same as a line.
pub fn pair(out: &mut [u8], at: usize, w: &[u8], n: u64, v: &[u8], m: u64) -> usize
    ensures { Wrote ((w.now ++ decimal n) ++ (v.now ++ decimal m)) out.old at out.new result }
{
    let told = field(out, at, w, n);
    field(out, told, v, m)
}

pub fn pair_line(out: &mut [u8], at: usize, w: &[u8], n: u64, v: &[u8], m: u64) -> usize
    ensures { Wrote ((w.now ++ decimal n) ++ ((v.now ++ decimal m) ++ newline)) out.old at out.new result }
{
    let told = field(out, at, w, n);
    line(out, told, v, m)
}

fn hex(d: u8) -> u8
    requires { d < 16 }
    ensures { result ≡ hex_digit d }
{
    if d < 10 {
        return 48 + d;
    }
    55 + d
}

// A byte that is shown as it is.
fn plain(b: u8) -> bool
    ensures { result ≡ plain_byte b }
{
    (32 <= b) & ((b <= 126) & (b != 92))
}

// A byte of a name, as it is or as \x and two hexadecimal digits.
fn shown(out: &mut [u8], at: usize, b: u8) -> usize
    ensures { Wrote (shownByte b) out.old at out.new result }
{
    if plain(b) {
        return put(out, at, b);
    }
    let slash = put(out, at, 92);
    let x = put(out, slash, 120);
    let high = put(out, x, hex(b / 16));
    put(out, high, hex(b % 16))
}

// A name, byte by byte.
pub fn escaped(out: &mut [u8], at: usize, name: &[u8]) -> usize
    ensures { Wrote (escapedName name.now) out.old at out.new result }
{
    let mut end = at;
    for b in name {
        end = shown(out, end, *b);
    }
    end
}
