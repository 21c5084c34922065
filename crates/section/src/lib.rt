// Reads one table section from a datagram's payload (document 01, "A section"): eight header bytes, then the body.
// A payload is one section, so a section that is longer or shorter than its payload is refused and never clipped.
#![tactic(auto)]

ghost use Rattle.std.specs.Prelude.{◌≡◌, ◌+◌, ◌<◌, ◌≤◌, length};
ghost use Rattle.base.specs.Bytes.{word};
ghost use Rattle.key.specs.Key.{nrt_it};
ghost use Rattle.section.specs.Section.{service_id, time_span_start, of_list, fault_of, read_of};
ghost use Rattle.section.specs.Answer.{reading_code, key_code, sound_code, added_code};

use key::Key;
use refusal::Refusal;

// What the header says, and where the body lies in the payload.
#[derive(Clone, Copy, Debug, PartialEq, Eq)]
pub struct Header {
    pub key: Key,
    pub version: u8,
    pub number: u8,
    pub last: u8,
    pub start: usize,
    pub length: usize,
}

// The header's bytes, and the bytes up to and with the section length, which the section length does not count.
pub const HEADER: usize = 8;

const BEFORE_LENGTH_COUNTS: usize = 3;

// The bytes of an NRT-IT up to the end of its key.
const KEY: usize = 14;

// What the section length counts: the rest of the header at least.
pub const SHORTEST: usize = HEADER - BEFORE_LENGTH_COUNTS;

const LONGEST: usize = 1021;

// The most bytes of a section.
pub const LARGEST: usize = BEFORE_LENGTH_COUNTS + LONGEST;

const HIGHEST_LAST: u8 = 15;

// The most sections of a table.
pub const SECTIONS: usize = HIGHEST_LAST as usize + 1;

// The highest version: it has five bits.
pub const HIGHEST_VERSION: u8 = 31;

// The 16-bit number at a place, high byte first.
fn word_at(payload: &[u8], at: usize) -> u16
    requires { at + 1 < length payload.now }
    ensures { result ≡ word payload.now at }
{
    u16::from_be_bytes([payload[at], payload[at + 1]])
}

// What follows the header of an NRT-IT: its service_id and its time_span_start; 0 of every other table, whose body is not looked at.
fn service_in(payload: &[u8], table: u8) -> u16
    requires { (8 ≤ length payload.now) × (table ≡ nrt_it → 14 ≤ length payload.now) }
    ensures { result ≡ of_list table (service_id payload.now) }
{
    if table != key::NRT_IT {
        return 0;
    }
    word_at(payload, 8)
}

fn start_in(payload: &[u8], table: u8) -> u32
    requires { (8 ≤ length payload.now) × (table ≡ nrt_it → 14 ≤ length payload.now) }
    ensures { result ≡ of_list table (time_span_start payload.now) }
{
    if table != key::NRT_IT {
        return 0;
    }
    key::start_of(word_at(payload, 10), word_at(payload, 12))
}

// The first refusal that applies, where one does.
fn fault_of(payload: &[u8]) -> Result<(), Refusal>
    ensures { result ≡ fault_of payload.now }
{
    if payload.len() < HEADER {
        return Err(Refusal::PayloadShort);
    }
    if payload[1] / 128 == 1 {
        return Err(Refusal::WrongIndicator);
    }
    if payload[1] / 64 % 2 == 0 {
        return Err(Refusal::WrongIndicator);
    }
    let counted = usize::from(payload[1] % 16) * 256 + usize::from(payload[2]);
    if counted < SHORTEST {
        return Err(Refusal::LengthOutOfRange);
    }
    if LONGEST < counted {
        return Err(Refusal::LengthOutOfRange);
    }
    let size = BEFORE_LENGTH_COUNTS + counted;
    if payload.len() < size {
        return Err(Refusal::LongerThanPayload);
    }
    if size < payload.len() {
        return Err(Refusal::ShorterThanPayload);
    }
    let number = payload[6];
    let last = payload[7];
    if last < number {
        return Err(Refusal::NumberAboveLast);
    }
    if HIGHEST_LAST < last {
        return Err(Refusal::LastAbove15);
    }
    if payload[5] % 2 == 0 {
        return Err(Refusal::NotCurrent);
    }
    if (payload[0] == key::NRT_IT) & (payload.len() < KEY) {
        return Err(Refusal::KeyShort);
    }
    Ok(())
}

// The section that the payload is, or the first refusal that applies. The refusal is found apart, so that what is read behind it is small
// enough to stand in those that call it.
pub fn read(payload: &[u8]) -> Result<Header, Refusal>
    ensures { result ≡ read_of payload.now }
{
    fault_of(payload)?;
    let table = payload[0];
    let extension = word_at(payload, 3);
    let service = service_in(payload, table);
    let start = start_in(payload, table);
    let key = Key {
        table,
        extension,
        service,
        start,
    };
    let version = payload[5] / 2 % 32;
    let number = payload[6];
    let last = payload[7];
    let length = payload.len() - HEADER;
    Ok(Header {
        key,
        version,
        number,
        last,
        start: HEADER,
        length,
    })
}

// A sound section in one number: each field begins at its bit.
fn sound_code(h: Header) -> u64
    ensures { result ≡ sound_code h }
{
    let key = h.key;
    let table = u64::from(key.table) * answers::BIT_8;
    let extension = u64::from(key.extension) * answers::BIT_16;
    let version = u64::from(h.version) * answers::BIT_32;
    let number = u64::from(h.number) * answers::BIT_40;
    let last = u64::from(h.last) * answers::BIT_48;
    table + extension + version + number + last
}

// The rest of its key, which of every table but an NRT-IT is 0.
fn added_code(h: Header) -> u64
    ensures { result ≡ added_code h }
{
    let key = h.key;
    let service = u64::from(key.service) * answers::BIT_8;
    let start = u64::from(key.start) * answers::BIT_24;
    service + start
}

// The section that the payload is, in one number as a host gets it: 0 in the low 8 bits and the fields above, or the
// refusal alone.
pub fn read_code(payload: &[u8]) -> u64
    ensures { result ≡ reading_code (read_of payload.now) }
{
    match read(payload) {
        Ok(header) => sound_code(header),
        Err(refusal) => refusal as u64,
    }
}

// The rest of the key of the section that the payload is, in one number as a host gets it: 0 in the low 8 bits and the two fields above, or the
// refusal alone.
pub fn key_code(payload: &[u8]) -> u64
    ensures { result ≡ key_code (read_of payload.now) }
{
    match read(payload) {
        Ok(header) => added_code(header),
        Err(refusal) => refusal as u64,
    }
}
