// An A/93 trigger: read whole from a payload, or refused by the first fault from the left; and whether it belongs to an
// application. Texts and bytes are answered as places in the payload, so nothing is copied.
#![tactic(auto)]

ghost use Rattle.std.specs.Prelude.{◌≡◌, ◌+◌, ◌≤◌, length, Ok};
ghost use Rattle.base.specs.Bytes.{word};
ghost use Rattle.trigger_faults.specs.Parts.{head_fault, target_fault, placed_in, Sound};
ghost use Rattle.trigger.specs.Belongs.{belongs_of};
ghost use Rattle.trigger.specs.Trigger.{description_of, id_of, module_of, target_of, trigger_of, read_of};

use refusal::Refusal;
use trigger_faults::{Kind, LENGTH, NAME_AT, Placed, TARGET_HEAD};

// Where an application id begins, behind its description.
const ID_AT: usize = 5;

// Bytes of the payload, by place and length.
#[derive(Clone, Copy, Debug, PartialEq, Eq)]
pub struct Extent {
    pub place: usize,
    pub length: usize,
}

// A module's numbers: its download's, its group's and its own.
#[derive(Clone, Copy, Debug, PartialEq, Eq)]
pub struct Module {
    pub download: u16,
    pub group: u16,
    pub number: u16,
}

// A target of a type that A/93 keeps for later.
#[derive(Clone, Copy, Debug, PartialEq, Eq)]
pub struct Reserved {
    pub kind: u8,
    pub bytes: Extent,
}

#[derive(Clone, Copy, Debug, PartialEq, Eq)]
pub enum Target {
    None,
    Module(Module),
    Tap(u16),
    AbsoluteUri(Extent),
    LidUri(Extent),
    HttpUri(Extent),
    Reserved(Reserved),
}

// What a trigger says. The application id's length is as it was read: 0 where the trigger is for every application.
#[derive(Clone, Copy, Debug, PartialEq, Eq)]
pub struct Trigger {
    pub idlength: u16,
    pub description: u16,
    pub id: Extent,
    pub target: Target,
    pub user: Extent,
}

// The 16-bit number at a place. Its like in `trigger_faults` and in `section` is as private: it asks for a place in the payload, and a public
// function asks nothing.
fn word_at(payload: &[u8], at: usize) -> u16
    requires { at + 2 ≤ length payload.now }
    ensures { result ≡ word payload.now at }
{
    u16::from_be_bytes([payload[at], payload[at + 1]])
}

// The description of a payload whose application id has a length.
fn description_of(payload: &[u8], given: u16) -> u16
    requires { (head_fault payload.now ≡ Ok tt) × (given ≡ word payload.now 1) }
    ensures { result ≡ description_of payload.now }
{
    if given == 0 {
        return 0;
    }
    word_at(payload, NAME_AT)
}

// Where an application id of a length lies.
fn id_of(given: u16) -> Extent
    requires { given ≡ 1 → ⊥ }
    ensures { result ≡ id_of given }
{
    if given == 0 {
        return Extent {
            place: NAME_AT,
            length: 0,
        };
    }
    let length = usize::from(given) - LENGTH;
    Extent {
        place: ID_AT,
        length,
    }
}

// The three numbers of a module from a place on.
fn module_at(payload: &[u8], at: usize) -> Module
    requires { at + 6 ≤ length payload.now }
    ensures { result ≡ module_of payload.now at }
{
    let download = word_at(payload, at);
    let group = word_at(payload, at + 2);
    let number = word_at(payload, at + 4);
    Module {
        download,
        group,
        number,
    }
}

// The target whose type stands at a place.
fn target_of(payload: &[u8], at: usize) -> Target
    requires { target_fault payload.now at ≡ Ok tt }
    ensures { result ≡ target_of payload.now at }
{
    let kind = payload[at];
    let length = usize::from(word_at(payload, at + 1));
    let place = at + TARGET_HEAD;
    if length == 0 {
        return Target::None;
    }
    let bytes = Extent { place, length };
    match Kind::from(kind) {
        Kind::Module => Target::Module(module_at(payload, place)),
        Kind::Tap => Target::Tap(word_at(payload, place)),
        Kind::AbsoluteUri => Target::AbsoluteUri(bytes),
        Kind::LidUri => Target::LidUri(bytes),
        Kind::HttpUri => Target::HttpUri(bytes),
        _ => Target::Reserved(Reserved { kind, bytes }),
    }
}

// The trigger that a payload without a fault is, by the places of its target's type and of its user data's length.
fn trigger_of(payload: &[u8], placed: Placed) -> Trigger
    requires { Sound payload.now × (placed ≡ placed_in payload.now) }
    ensures { result ≡ trigger_of payload.now }
{
    let idlength = word_at(payload, 1);
    let description = description_of(payload, idlength);
    let id = id_of(idlength);
    let target = target_of(payload, placed.target);
    let length = usize::from(word_at(payload, placed.user));
    let place = placed.user + LENGTH;
    let user = Extent { place, length };
    Trigger {
        idlength,
        description,
        id,
        target,
        user,
    }
}

// The trigger that a payload is, or the first fault from the left.
pub fn read_trigger(payload: &[u8]) -> Result<Trigger, Refusal>
    ensures { result ≡ read_of payload.now }
{
    let placed = trigger_faults::parts_of(payload)?;
    Ok(trigger_of(payload, placed))
}

// Whether a trigger that was read from a payload belongs to the application with an id. Any trigger may be handed in with
// any payload: one that names an application by bytes that do not lie in the payload belongs to none.
pub fn belongs(payload: &[u8], trigger: Trigger, application: &[u8]) -> bool
    ensures { result ≡ belongs_of payload.now trigger application.now }
{
    let idlength = trigger.idlength;
    if idlength == 0 {
        return true;
    }
    let place = trigger.id.place;
    let count = trigger.id.length;
    let size = payload.len();
    if size < place {
        return false;
    }
    if size - place < count {
        return false;
    }
    let end = place + count;
    &payload[place..end] == application
}
