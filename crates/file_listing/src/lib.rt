// The text that the lister prints for a shelf file (document 01, "The lister"), as a function of the file's bytes.
#![tactic(auto)]

ghost use Rattle.std.specs.Prelude.{◌≡◌, [], ◌∷◌, ◌++◌, ◌+◌, ◌<◌, ◌≤◌, length, drop};
ghost use Rattle.file_listing.specs.Words.{place as place_of, digits, decimal, lines};
ghost use Rattle.file_listing.specs.Growing.{room, empty, Grew};
ghost use Rattle.file.specs.Scan.{found_at};
ghost use Rattle.file_listing.specs.Listing.{added_words, head_line, section_line, missing_line, complete_line, refused_line, section_of, missing_of, end_of, table_text, text_of, listing, list_of};
ghost use Rattle.base.specs.Below.{every};
ghost use Rattle.answers.specs.Answers.{out as out_of};
ghost use Rattle.file_listing.specs.Answer.{list_lent};

use key::Key;
use refusal::Refusal;
use section::Header;

const NEWLINE: u8 = 10;

// The room for a text: a line of 78 bytes, sixteen of 26 and sixteen of 14.
const ROOM: usize = 718;

// The bytes of the longest text.
pub const LARGEST: usize = 421;

// A text that grows at its end. Each piece below says what it adds and in how many bytes at most, every number taken for five
// digits and a time for ten; so counted, no listing comes to more than 718. The size stands beside a fixed buffer, since the library
// has no heap. `text` counts what has no room; here the room is proved, which the laws of the lister speak of.
#[derive(Drop)]
struct Text {
    bytes: [u8; ROOM],
    size: usize,
}

impl Text {
    fn empty() -> Text
        ensures { result ≡ empty }
    {
        Text {
            bytes: [0; ROOM],
            size: 0,
        }
    }

    fn byte(&mut self, b: u8)
        requires { self.old.size < room }
        ensures { Grew (b ∷ []) 1 self.old self.new }
    {
        self.bytes[self.size] = b;
        self.size += 1;
    }

    fn word(&mut self, w: &[u8])
        requires { self.old.size + length w.now ≤ room }
        ensures { Grew w.now (length w.now) self.old self.new }
    {
        let end = self.size + w.len();
        self.bytes[self.size..end].copy_from_slice(w);
        self.size = end;
    }

    // The digit of a power of ten, where the number reaches it.
    fn place(&mut self, n: u32, power: u32)
        requires size_lt_room { self.old.size < room }
        requires power_nonzero { 0 < power }
        ensures { Grew (place_of power n) 1 self.old self.new }
    {
        if power <= n {
            self.byte(48 + (n / power % 10) as u8);
        }
    }

    // A number in decimal: the digits of so many powers of ten from the highest down, and the last digit.
    fn digits(&mut self, n: u32, powers: u32)
        requires { (powers ≤ 9) × (self.old.size + (powers + 1) ≤ room) }
        ensures { Grew (digits powers n) (powers + 1) self.old self.new }
    {
        let mut power = 10u32.pow(powers);
        for i in 0..powers {
            self.place(n, power);
            power /= 10;
        }
        self.byte(48 + (n % 10) as u8);
    }

    // A word and a number of up to five digits.
    fn field(&mut self, w: &[u8], n: u16)
        requires { self.old.size + (length w.now + 5) ≤ room }
        ensures { Grew (w.now ++ decimal n) (length w.now + 5) self.old self.new }
    {
        self.word(w);
        self.digits(u32::from(n), 4);
    }

    // What an NRT-IT's line says after its extension: the rest of its key, where a time has up to ten digits.
    fn added_words(&mut self, key: Key)
        requires { self.old.size + 31 ≤ room }
        ensures { Grew (added_words key) 31 self.old self.new }
    {
        if key.table == key::NRT_IT {
            self.field(b" service ", key.service);
            self.word(b" start ");
            self.digits(key.start, 9);
        }
    }

    fn head_line(&mut self, h: Header)
        requires { self.old.size + 78 ≤ room }
        ensures { Grew (head_line h) 78 self.old self.new }
    {
        self.field(b"table ", u16::from(h.key.table));
        self.field(b" key ", h.key.extension);
        self.added_words(h.key);
        self.field(b" version ", u16::from(h.version));
        self.field(b" last ", u16::from(h.last));
        self.byte(NEWLINE);
    }

    fn section_line(&mut self, n: u8, length: u16)
        requires { self.old.size + 26 ≤ room }
        ensures { Grew (section_line n length) 26 self.old self.new }
    {
        self.field(b"section ", u16::from(n));
        self.field(b" bytes ", length);
        self.byte(NEWLINE);
    }

    fn missing_line(&mut self, n: u8)
        requires { self.old.size + 14 ≤ room }
        ensures { Grew (missing_line n) 14 self.old self.new }
    {
        self.field(b"missing ", u16::from(n));
        self.byte(NEWLINE);
    }

    fn complete_line(&mut self)
        requires { self.old.size + 9 ≤ room }
        ensures { Grew complete_line 9 self.old self.new }
    {
        self.word(b"complete");
        self.byte(NEWLINE);
    }

    fn refused_line(&mut self, n: u8)
        requires { self.old.size + 14 ≤ room }
        ensures { Grew (refused_line n) 14 self.old self.new }
    {
        self.field(b"refused ", u16::from(n));
        self.byte(NEWLINE);
    }

    // The line of one section, where the file holds it.
    fn section_of(&mut self, n: u8, lengths: &[u16; section::SECTIONS])
        requires n_bound { n < 16 }
        requires size_bound { self.old.size + 26 ≤ room }
        ensures { Grew (section_of lengths.now n) 26 self.old self.new }
    {
        let length = lengths[usize::from(n)];
        if length != 0 {
            self.section_line(n, length);
        }
    }

    // The line of one number that the file lacks.
    fn missing_of(&mut self, n: u8, lengths: &[u16; section::SECTIONS])
        requires n_bound { n < 16 }
        requires size_bound { self.old.size + 14 ≤ room }
        ensures { Grew (missing_of lengths.now n) 14 self.old self.new }
    {
        if lengths[usize::from(n)] == 0 {
            self.missing_line(n);
        }
    }

    // A line for each section held, rising.
    fn section_lines(&mut self, last: u8, lengths: &[u16; section::SECTIONS])
        requires last_bound { last ≤ 15 }
        requires size_bound { self.old.size + 416 ≤ room }
        ensures { Grew (lines (last + 1) (section_of lengths.now)) 416 self.old self.new }
    {
        for n in 0..last + 1 {
            self.section_of(n, lengths);
        }
    }

    // A line for each number that lacks, rising. One loop for this and the one above would take the line as a closure with a promise of
    // its own, which is longer than both.
    fn missing_lines(&mut self, last: u8, lengths: &[u16; section::SECTIONS])
        requires last_bound { last ≤ 15 }
        requires size_bound { self.old.size + 224 ≤ room }
        ensures { Grew (lines (last + 1) (missing_of lengths.now)) 224 self.old self.new }
    {
        for n in 0..last + 1 {
            self.missing_of(n, lengths);
        }
    }

    // What the listing ends with: that the table is complete, or the numbers that lack.
    fn end_lines(&mut self, last: u8, lengths: &[u16; section::SECTIONS])
        requires last_bound { last ≤ 15 }
        requires size_bound { self.old.size + 224 ≤ room }
        ensures { Grew (end_of last lengths.now) 224 self.old self.new }
    {
        if all_held(last, lengths) {
            self.complete_line();
        } else {
            self.missing_lines(last, lengths);
        }
    }

    fn table(&mut self, h: Header, lengths: &[u16; section::SECTIONS])
        requires last_bound { h.last ≤ 15 }
        requires size_bound { self.old.size + 718 ≤ room }
        ensures { Grew (table_text h lengths.now) 718 self.old self.new }
    {
        self.head_line(h);
        self.section_lines(h.last, lengths);
        self.end_lines(h.last, lengths);
    }
}

// Every number from 0 to the last is held.
fn all_held(last: u8, lengths: &[u16; section::SECTIONS]) -> bool
    requires { last ≤ 15 }
    ensures { result ≡ every (last + 1) (found_at lengths.now) }
{
    let mut all = true;
    for number in 0..last + 1 {
        all &= lengths[usize::from(number)] != 0;
    }
    all
}

// The whole text for a file.
fn text_for(file: &[u8]) -> Text
    ensures { Grew (text_of file.now) 718 empty result }
{
    let mut text = Text::empty();
    match file::read_file(file) {
        Ok(table) => text.table(table.header, &table.lengths),
        Err(refusal) => text.refused_line(u8::from(refusal)),
    }
    text
}

// The listing of a file, at the front of the output; 15 where it does not fit.
pub fn list_file(file: &[u8], out: &mut [u8]) -> Result<usize, Refusal>
    ensures { listing result out.new ≡ list_of file.now out.old }
{
    let text = text_for(file);
    let size = text.size;
    if out.len() < size {
        return Err(Refusal::OutputTooSmall);
    }
    out[..size].copy_from_slice(&text.bytes[..size]);
    Ok(size)
}

// Lists a file; the answer is 15, or a size from bit 8 up, as a host gets it.
pub fn list_code(file: &[u8], out: &mut [u8]) -> u32
    ensures { out_of result out.new ≡ list_lent file.now out.old }
{
    answers::sized(list_file(file, out))
}
