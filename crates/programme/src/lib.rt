// Reads an NRT-IT section, a programme list, by Table 6.5 of source document 004 (document 02, request 3): the fields before its
// items, an item at a place, and the table's own loop. Names and loops are answered as places in the payload, so nothing is copied.
#![tactic(auto)]

ghost use Rattle.std.specs.Prelude.{◌≡◌, ◌≤◌, length};
ghost use Rattle.programme.specs.Field.{number_in};
ghost use Rattle.programme.specs.Run.{run_of};
ghost use Rattle.programme.specs.Reading.{read_of, own_at, own_of};
ghost use Rattle.programme.specs.Count.{count_of};

use refusal::Refusal;

// The place of the first item, behind the header and the fields before the items.
pub const FIRST_ITEM: usize = 17;

// Where the fields before the items begin.
const SERVICE: usize = 8;

const START: usize = 10;

const MINUTES: usize = 14;

const ITEMS: usize = 16;

// What the fields before the items say: the service, when the time span begins and how many minutes it has, how many items.
#[derive(Clone, Copy, Debug, PartialEq, Eq)]
pub struct Programme {
    pub service: u16,
    pub start: u32,
    pub minutes: u16,
    pub items: u8,
}

// A loop of so many descriptors, by place and length.
#[derive(Clone, Copy, Debug, PartialEq, Eq)]
pub struct Loop {
    pub count: u8,
    pub place: usize,
    pub length: usize,
}

// A content item. The flags are ten bits, the first highest; a field that its flag does not include is 0.
#[derive(Clone, Copy, Debug, PartialEq, Eq)]
pub struct Item {
    pub linkage: u32,
    pub flags: u16,
    pub playback: u32,
    pub delay: u32,
    pub expires: u32,
    pub size: u64,
    pub nameat: usize,
    pub named: usize,
    pub descriptors: Loop,
    pub next: usize,
}

// So many bytes stand in a number of 64 bits.
const MOST: usize = 8;

// The number in a field's first bytes, so many, high byte first; 0 where it has fewer. No field has more than eight.
pub fn number<const N: usize>(field: &[u8]) -> u64
    ensures { N ≤ 8 → result ≡ number_in N field.now }
{
    if MOST < N {
        return 0;
    }
    if field.len() < N {
        return 0;
    }
    let mut number: u64 = 0;
    for i in 0..N {
        let high = number * 256;
        number = high + u64::from(field[i]);
    }
    number
}

// How many items a section has, or its first refusal. A step needs no more of the fields before the items.
pub fn count_items(payload: &[u8]) -> Result<u8, Refusal>
    ensures { result ≡ count_of (read_of payload.now) }
{
    let header = section::read(payload)?;
    if header.key.table != key::NRT_IT {
        return Err(Refusal::ProgrammeOtherTable);
    }
    if payload.len() < FIRST_ITEM {
        return Err(Refusal::ProgrammePassesEnd);
    }
    Ok(payload[ITEMS])
}

// The fields before the items of a payload, or its first refusal.
pub fn read(payload: &[u8]) -> Result<Programme, Refusal>
    ensures { result ≡ read_of payload.now }
{
    let items = count_items(payload)?;
    let service = number::<2>(&payload[SERVICE..START]) as u16;
    let start = number::<4>(&payload[START..MINUTES]) as u32;
    let minutes = (number::<2>(&payload[MINUTES..ITEMS]) % 2048) as u16;
    Ok(Programme {
        service,
        start,
        minutes,
        items,
    })
}

// Where so many descriptors from a place end, by the step of every descriptor loop; none where one of them passes the end.
pub fn run_from(bytes: &[u8], from: usize, count: u8) -> Option<usize>
    ensures { result ≡ run_of count bytes.now from }
{
    let mut at = from;
    for i in 0..count {
        let Ok(Some(descriptor)) = descriptors::step_at(bytes, at) else {
            return None;
        };
        at = descriptor.next;
    }
    Some(at)
}

// The table's own loop from a place, where it is the payload's last part.
fn own_in(bytes: &[u8], at: usize) -> Result<Loop, Refusal>
    requires { length bytes.now ≤ 65535 }
    ensures { result ≡ own_at bytes.now at }
{
    let size = bytes.len();
    if at < FIRST_ITEM {
        return Err(Refusal::ProgrammePassesEnd);
    }
    if size <= at {
        return Err(Refusal::ProgrammePassesEnd);
    }
    let count = bytes[at];
    let place = at + 1;
    let Some(end) = run_from(bytes, place, count) else {
        return Err(Refusal::ProgrammePassesEnd);
    };
    if end < size {
        return Err(Refusal::ProgrammeBytesLeft);
    }
    let length = end - place;
    Ok(Loop {
        count,
        place,
        length,
    })
}

// The table's own loop, from the place behind the last item, or the refusal. Any place may be asked.
pub fn own_loop(payload: &[u8], at: usize) -> Result<Loop, Refusal>
    ensures { result ≡ own_of payload.now at }
{
    let _items = count_items(payload)?;
    own_in(payload, at)
}
