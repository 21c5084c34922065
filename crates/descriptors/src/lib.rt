// A descriptor loop: a run of tag 8, length 8, then that many bytes, to the end of the lent bytes. A caller walks it by
// asking for a step at place 0, and then at each answer's next place, until the walk is over or refused.
#![tactic(auto)]

ghost use Rattle.std.specs.Prelude.{◌≡◌, ◌+◌, ◌≤◌, ◌||◌, length, eqb};
ghost use Rattle.descriptors.specs.Loop.{step_of, view_of};
ghost use Rattle.descriptors.specs.Answer.{descriptor_code, step_code};
ghost use Rattle.descriptors.specs.Mark.{mark_at, is_trigger_tap};

use refusal::Refusal;

// The bytes of a tag and a length.
const HEAD: usize = 2;

// What marks a trigger Tap: the tag of a content type, and the type's bytes in small letters and in capitals. Where the mark
// has no letter the two have one byte.
const MARK_TAG: u8 = 0x72;

const MARK_LENGTH: usize = 24;

const MARK: [u8; 24] = *b"application/atsc-trigger";

const MARK_IN_CAPITALS: [u8; 24] = *b"APPLICATION/ATSC-TRIGGER";

// What a step found, from bit 8 of its answer in one number.
const FOUND: u64 = 256;

const OVER: u64 = 512;

// The places that 40 bits tell apart.
const NEAR: u64 = 1099511627776;

// A descriptor: its tag, where its content starts, how many bytes that is, and the place after it.
#[derive(Clone, Copy, Debug, PartialEq, Eq)]
pub struct Descriptor {
    pub tag: u8,
    pub start: usize,
    pub length: usize,
    pub next: usize,
}

// What stands at a place of the loop: a descriptor, or none at the loop's end. It is refused where the descriptor runs past the loop or the place
// is beyond the loop's end. Any place may be asked.
pub fn step_at(bytes: &[u8], at: usize) -> Result<Option<Descriptor>, Refusal>
    ensures { result ≡ step_of bytes.now at }
{
    let size = bytes.len();
    if at == size {
        return Ok(None);
    }
    if size < at {
        return Err(Refusal::DescriptorRunsPast);
    }
    let left = size - at;
    if left < HEAD {
        return Err(Refusal::DescriptorRunsPast);
    }
    let length = usize::from(bytes[at + 1]);
    if left - HEAD < length {
        return Err(Refusal::DescriptorRunsPast);
    }
    let tag = bytes[at];
    let start = at + HEAD;
    let next = at + HEAD + length;
    Ok(Some(Descriptor {
        tag,
        start,
        length,
        next,
    }))
}

fn descriptor_code(d: Descriptor) -> u64
    ensures { result ≡ descriptor_code d }
{
    let tag = u64::from(d.tag) * answers::BIT_16;
    let next = d.next as u64 % NEAR * answers::BIT_24;
    FOUND + tag + next
}

// What stands at a place of the loop, in one number as a host gets it: the refusal alone, or 0 in the low 8 bits and what was
// found above.
pub fn step_code(bytes: &[u8], at: usize) -> u64
    ensures { result ≡ step_code (step_of bytes.now at) }
{
    match step_at(bytes, at) {
        Ok(Some(d)) => descriptor_code(d),
        Ok(None) => OVER,
        Err(refusal) => refusal as u64,
    }
}

// The content of the descriptor at a place, as a part of the loop's bytes; empty where no descriptor can be read.
pub fn view(bytes: &[u8], at: usize) -> &[u8]
    ensures { result.now ≡ view_of bytes.now at }
{
    let Ok(Some(d)) = step_at(bytes, at) else {
        return &bytes[..0];
    };
    &bytes[d.start..d.next]
}

// Whether a byte is the mark's, in its small letter or in its capital.
fn is_either(found: u8, small: u8, capital: u8) -> bool
    ensures { result ≡ (eqb found small || eqb found capital) }
{
    (found == small) | (found == capital)
}

// Whether the bytes from a place on are the mark, letters across case. All are looked at, and the arrays are made before the
// loop: one without an exit, over bytes that stand, is one of wide steps.
fn is_mark(bytes: &[u8], start: usize) -> bool
    requires { start + 24 ≤ length bytes.now }
    ensures { result ≡ mark_at bytes.now start }
{
    let small = MARK;
    let capitals = MARK_IN_CAPITALS;
    let mut same = true;
    for i in 0..MARK_LENGTH {
        same &= is_either(bytes[start + i], small[i], capitals[i]);
    }
    same
}

// Whether the descriptor at a place marks a trigger Tap. Where none can be read, it does not.
pub fn is_trigger_tap(bytes: &[u8], at: usize) -> bool
    ensures { result ≡ is_trigger_tap bytes.now at }
{
    let Ok(Some(d)) = step_at(bytes, at) else {
        return false;
    };
    if d.tag != MARK_TAG {
        return false;
    }
    if d.length != MARK_LENGTH {
        return false;
    }
    is_mark(bytes, d.start)
}
