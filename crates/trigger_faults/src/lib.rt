// Whether a payload is a trigger: the first fault from the left, field by field, or where its parts are.
#![tactic(auto)]

ghost use Rattle.std.specs.Prelude.{◌≡◌, ◌+◌, ◌≤◌, length};
ghost use Rattle.base.specs.Bytes.{word};
ghost use Rattle.trigger_faults.specs.Kinds.{type_of, Typed};
ghost use Rattle.trigger_faults.specs.Fields.{wrong_length, is_uri, some_high};
ghost use Rattle.trigger_faults.specs.Parts.{head_fault, target_fault, user_fault, parts_of};

use refusal::Refusal;

const LARGEST: usize = 4096;

const TRIGGER_EVENT: u8 = 0;

const HIGHEST_ASCII: u8 = 127;

// Places and sizes of fields: what an application id's length counts begins at the first; a target begins with its type and
// length; a length has two bytes.
pub const NAME_AT: usize = 3;

pub const TARGET_HEAD: usize = 3;

pub const LENGTH: usize = 2;

const MODULE_LENGTH: usize = 6;

const TAP_LENGTH: usize = 2;

// What the type of a target is kept for; each but the last has the number that A/93 gives the type.
#[derive(Clone, Copy, Debug, PartialEq, Eq)]
pub enum Kind {
    None = 0,
    Module = 1,
    Tap = 2,
    AbsoluteUri = 3,
    LidUri = 4,
    HttpUri = 5,
    // Any other type.
    Reserved = 6,
}

impl From<u8> for Kind {
    ghost from_gives = { Typed };

    fn from(number: u8) -> Kind {
        match number {
            0 => Kind::None,
            1 => Kind::Module,
            2 => Kind::Tap,
            3 => Kind::AbsoluteUri,
            4 => Kind::LidUri,
            5 => Kind::HttpUri,
            _ => Kind::Reserved,
        }
    }
}

// Where the target's type and where the user data's length stands, in a payload without a fault.
#[derive(Clone, Copy, Debug, PartialEq, Eq)]
pub struct Placed {
    pub target: usize,
    pub user: usize,
}

// The 16-bit number at a place, high byte first.
fn word_at(payload: &[u8], at: usize) -> u16
    requires { at + 2 ≤ length payload.now }
    ensures { result ≡ word payload.now at }
{
    u16::from_be_bytes([payload[at], payload[at + 1]])
}

// Whether a target type forbids a length.
fn is_wrong_length(kind: Kind, count: usize) -> bool
    ensures { result ≡ wrong_length (type_of kind) count }
{
    if count == 0 {
        return false;
    }
    match kind {
        Kind::None => true,
        Kind::Module => count != MODULE_LENGTH,
        Kind::Tap => count != TAP_LENGTH,
        _ => false,
    }
}

fn is_uri(kind: Kind) -> bool
    ensures { result ≡ is_uri (type_of kind) }
{
    matches!(kind, Kind::AbsoluteUri | Kind::LidUri | Kind::HttpUri)
}

// Whether a byte above 127 is among those of a part. All are looked at: a loop without an exit is one of wide steps.
fn is_high(payload: &[u8], at: usize, count: usize) -> bool
    requires { at + count ≤ length payload.now }
    ensures { result ≡ some_high payload.now at count }
{
    let mut high = false;
    for i in 0..count {
        high |= HIGHEST_ASCII < payload[at + i];
    }
    high
}

// The first fault of a payload up to its application id, where one is.
fn head_fault(payload: &[u8]) -> Result<(), Refusal>
    ensures { result ≡ head_fault payload.now }
{
    let size = payload.len();
    if LARGEST < size {
        return Err(Refusal::TriggerTooLong);
    }
    if size < 1 {
        return Err(Refusal::TriggerCutOff);
    }
    if payload[0] != TRIGGER_EVENT {
        return Err(Refusal::TriggerOtherEvent);
    }
    if size < NAME_AT {
        return Err(Refusal::TriggerCutOff);
    }
    let length = usize::from(word_at(payload, 1));
    if length == 1 {
        return Err(Refusal::TriggerForbiddenIdLength);
    }
    if size < NAME_AT + length {
        return Err(Refusal::TriggerCutOff);
    }
    Ok(())
}

// The first fault of a target whose type stands at a place, where one is.
fn target_fault(payload: &[u8], at: usize) -> Result<(), Refusal>
    requires { at ≤ 65538 }
    ensures { result ≡ target_fault payload.now at }
{
    let size = payload.len();
    if size < at + TARGET_HEAD {
        return Err(Refusal::TriggerCutOff);
    }
    let kind = Kind::from(payload[at]);
    let length = usize::from(word_at(payload, at + 1));
    let after = at + TARGET_HEAD + length;
    let wrong = is_wrong_length(kind, length);
    if wrong {
        return Err(Refusal::TriggerWrongTargetLength);
    }
    if size < after {
        return Err(Refusal::TriggerCutOff); // in the target's bytes
    }
    if is_uri(kind) {
        if is_high(payload, at + TARGET_HEAD, length) {
            return Err(Refusal::TriggerHighUriByte);
        }
    }
    Ok(())
}

// The first fault of user data whose length stands at a place, where one is.
fn user_fault(payload: &[u8], at: usize) -> Result<(), Refusal>
    requires { at ≤ 131076 }
    ensures { result ≡ user_fault payload.now at }
{
    let size = payload.len();
    if size < at + LENGTH {
        return Err(Refusal::TriggerCutOff);
    }
    let length = usize::from(word_at(payload, at));
    let end = at + LENGTH + length;
    if size < end {
        return Err(Refusal::TriggerCutOff);
    }
    if end < size {
        return Err(Refusal::TriggerBytesLeft);
    }
    Ok(())
}

// The places of a payload's parts, or the first fault from the left.
pub fn parts_of(payload: &[u8]) -> Result<Placed, Refusal>
    ensures { result ≡ parts_of payload.now }
{
    head_fault(payload)?;
    let target = NAME_AT + usize::from(word_at(payload, 1));
    target_fault(payload, target)?;
    let user = target + TARGET_HEAD + usize::from(word_at(payload, target + 1));
    user_fault(payload, user)?;
    Ok(Placed { target, user })
}
