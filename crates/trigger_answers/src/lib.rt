// The reading of a trigger in numbers, as a host gets them.
#![tactic(auto)]

ghost use Rattle.std.specs.Prelude.{◌≡◌, [], ◌∷◌};
ghost use Rattle.answers.specs.Answers.{done, out as out_of};
ghost use Rattle.trigger_faults.specs.Kinds.{type_of};
ghost use Rattle.trigger.specs.Answer.{target_numbers, numbers_of};
ghost use Rattle.trigger_answers.specs.Narrow.{Narrow, NarrowTarget, NarrowTrigger};
ghost use Rattle.trigger_answers.specs.Lent.{trigger_lent, can_be_read_by, belongs_lent};

use refusal::Refusal;
use trigger::{Extent, Target, Trigger};
use trigger_faults::Kind;

// How many numbers a trigger is answered in.
const NUMBERS: usize = 11;

// Where among them the application id's length as read stands, its place and how many bytes it has, and those of the user data.
const ID_LENGTH: usize = 0;

const ID_PLACE: usize = 2;

const ID_BYTES: usize = 3;

const USER_PLACE: usize = 9;

const USER_BYTES: usize = 10;

// The bytes of a trigger before its id.
const BEFORE_ID: usize = 3;

// A target that is bytes of the payload, in numbers.
fn bytes_numbers(kind: Kind, of: u16, bytes: Extent) -> [u16; 5]
    requires { Narrow bytes }
    ensures { result ≡ type_of kind ∷ of ∷ bytes.place ∷ bytes.length ∷ 0 ∷ [] }
{
    [kind as u16, of, bytes.place as u16, bytes.length as u16, 0]
}

// A target in numbers: its kind, its type, and up to three numbers of it. Of a kind that is not reserved the type is the kind's number.
fn target_numbers(target: Target) -> [u16; 5]
    requires { NarrowTarget target }
    ensures { result ≡ target_numbers target }
{
    match target {
        Target::None => [0; 5],
        Target::Module(m) => [
            Kind::Module as u16,
            Kind::Module as u16,
            m.download,
            m.group,
            m.number,
        ],
        Target::Tap(n) => [Kind::Tap as u16, Kind::Tap as u16, n, 0, 0],
        Target::AbsoluteUri(e) => bytes_numbers(Kind::AbsoluteUri, Kind::AbsoluteUri as u16, e),
        Target::LidUri(e) => bytes_numbers(Kind::LidUri, Kind::LidUri as u16, e),
        Target::HttpUri(e) => bytes_numbers(Kind::HttpUri, Kind::HttpUri as u16, e),
        Target::Reserved(r) => bytes_numbers(Kind::Reserved, u16::from(r.kind), r.bytes),
    }
}

// A trigger's numbers.
fn numbers_of(t: Trigger) -> [u16; NUMBERS]
    requires { NarrowTrigger t }
    ensures { result ≡ numbers_of t }
{
    let [kind, of, first, second, third] = target_numbers(t.target);
    [
        t.idlength,
        t.description,
        t.id.place as u16,
        t.id.length as u16,
        kind,
        of,
        first,
        second,
        third,
        t.user.place as u16,
        t.user.length as u16,
    ]
}

// Reads the payload as a trigger and puts its numbers at the front of the buffer, or leaves it as it was.
fn read_into(payload: &[u8], fields: &mut [u16]) -> Result<(), Refusal>
    ensures { out_of (done result) fields.new ≡ trigger_lent payload.now fields.old }
{
    let trigger = trigger::read_trigger(payload)?;
    if fields.len() < NUMBERS {
        return Err(Refusal::OutputTooSmall);
    }
    fields[..NUMBERS].copy_from_slice(&numbers_of(trigger));
    Ok(())
}

// Reads the payload as a trigger and puts its numbers at the front of the buffer, or answers the refusal.
pub fn trigger_read(payload: &[u8], fields: &mut [u16]) -> u8
    ensures { out_of result fields.new ≡ trigger_lent payload.now fields.old }
{
    answers::done(read_into(payload, fields))
}

// Whether the numbers can be those that a reading of a payload of so many bytes left.
#[tactic(auto, using(crate::proofs::Laws::read_laws))]
fn can_be_read(size: usize, fields: &[u16]) -> bool
    ensures { result ≡ can_be_read_by size fields.now }
{
    if fields.len() < NUMBERS {
        return false;
    }
    if usize::from(fields[ID_PLACE]) < BEFORE_ID {
        return false;
    }
    usize::from(fields[USER_PLACE]) + usize::from(fields[USER_BYTES]) == size
}

// Whether a trigger, by the numbers that its reading left, belongs to the application with an id. Numbers that cannot be this
// payload's belong to none.
pub fn trigger_belongs(payload: &[u8], fields: &[u16], application: &[u8]) -> bool
    ensures { result ≡ belongs_lent payload.now fields.now application.now }
{
    if can_be_read(payload.len(), fields) {
        let idlength = fields[ID_LENGTH];
        let place = usize::from(fields[ID_PLACE]);
        let length = usize::from(fields[ID_BYTES]);
        let id = Extent { place, length };
        let user = Extent {
            place: 0,
            length: 0,
        };
        let trigger = Trigger {
            idlength,
            description: 0,
            id,
            target: Target::None,
            user,
        };
        return trigger::belongs(payload, trigger, application);
    }
    false
}
