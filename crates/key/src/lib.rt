// What tells one table from another (document 01, "The shelf", and document 02, request 4).
#![tactic(auto)]

ghost use Rattle.std.specs.Prelude.{◌≡◌, ◌+◌, ◌*◌, ◌/◌, ◌%◌};
ghost use Rattle.key.specs.Key.{key_from, same_key};

// Of an NRT-IT service is its service_id and start its time_span_start; of every other table both are 0.
#[derive(Clone, Copy, Debug, PartialEq, Eq)]
pub struct Key {
    pub table: u8,
    pub extension: u16,
    pub service: u16,
    pub start: u32,
}

// The table id of an NRT-IT.
pub const NRT_IT: u8 = 0xDF;

// The key that four numbers say. Of a table other than an NRT-IT the last two mean nothing.
pub fn from(table: u8, extension: u16, service: u16, start: u32) -> Key
    ensures { result ≡ key_from table extension service start }
{
    if table != NRT_IT {
        return Key {
            table,
            extension,
            service: 0,
            start: 0,
        };
    }
    Key {
        table,
        extension,
        service,
        start,
    }
}

// Whether two keys are one. This is the derived `==` under a name that has a promise: files and the shelf compare keys by it, so that what they run is held to
// `same_key` here.
pub fn same(a: Key, b: Key) -> bool
    ensures { result ≡ same_key a b }
{
    a == b
}

// Numbers that are lent have 16 bits, and a start has 32: its higher half, its lower half, and the start of the two.
pub fn high(start: u32) -> u16
    ensures { result ≡ start / 65536 }
{
    (start / 65536) as u16
}

pub fn low(start: u32) -> u16
    ensures { result ≡ start % 65536 }
{
    (start % 65536) as u16
}

pub fn start_of(high: u16, low: u16) -> u32
    ensures { result ≡ high * 65536 + low }
{
    u32::from(high) * 65536 + u32::from(low)
}
