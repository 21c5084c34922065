// An activation, what is kept of one, and the two words that a record keeps it in (document 01, "Applications and the clock").

#![tactic(auto)]

ghost use Rattle.std.specs.Prelude.{◌≡◌, min};
ghost use Rattle.clock_rule.specs.Numbers.{action_no};
ghost use Rattle.clock_activation.specs.Limits.{most_held};
ghost use Rattle.clock_activation.specs.Activation.{past};
ghost use Rattle.clock_activation.specs.Code.{Coded};
ghost use Rattle.clock_activation.specs.Places.{held_in, mark_of};

use clock_rule::Action;

// The most activations held, waiting and remembered together.
pub const HELD: usize = 32;

// How many milliseconds before the clock an applied activation is remembered.
pub const MEMORY: u32 = 60_000;

// What a field of a place's second word is multiplied by to begin at that bit.
const BIT_16: u32 = 65536;

const BIT_24: u32 = 16777216;

const BIT_26: u32 = 67108864;

// An action on an application at a media time in milliseconds.
#[derive(Clone, Copy, Debug, PartialEq, Eq)]
pub struct Activation {
    pub application: u8,
    pub event: u16,
    pub action: Action,
    pub time: u32,
}

// An activation that is held: it was applied, or it waits.
#[derive(Clone, Copy, Debug, PartialEq, Eq)]
pub struct Held {
    pub activation: Activation,
    pub applied: bool,
}

// How many places there are of that many held.
pub fn within(count: u32) -> usize
    ensures { result ≡ min count most_held }
{
    (count as usize).min(HELD)
}

// A number for an activation: that of one alike is the same, and that of a later one is higher.
#[tactic(auto, unfolding(crate::specs::Code::code_of))]
pub fn code(a: Activation) -> u64
    ensures { Coded a result }
{
    let time = u64::from(a.time);
    let application = u64::from(a.application);
    let event = u64::from(a.event);
    (time * 256 + application) * 65_536 + event
}

// Whether a time is more than the memory before the clock.
#[tactic(auto, unfolding(crate::specs::Activation::past))]
pub fn is_past(now: u32, time: u32) -> bool
    ensures { result ≡ past now time }
{
    MEMORY < now.saturating_sub(time)
}

// The action with a number; those above 2 are one. A word's two bits are always an action, so that no refusal of `TryFrom` could be met.
pub fn action_of(number: u32) -> Action
    ensures { result ≡ action_no number }
{
    match number {
        0 => Action::Prep,
        1 => Action::Exec,
        2 => Action::Susp,
        _ => Action::Kill,
    }
}

// What is held by the two words of a place.
#[tactic(auto, unfolding(crate::specs::Places::held_in))]
pub fn held_of(time: u32, word: u32) -> Held
    ensures { result ≡ held_in time word }
{
    Held {
        activation: Activation {
            application: (word / BIT_16 % 256) as u8,
            event: (word % BIT_16) as u16,
            action: action_of(word / BIT_24 % 4),
            time,
        },
        applied: word / BIT_26 % 2 == 1,
    }
}

// The second word of a place; the first is the time.
#[tactic(auto, unfolding(crate::specs::Places::mark_of))]
pub fn mark(h: Held) -> u32
    ensures { result ≡ mark_of h }
{
    let a = h.activation;
    let event = u32::from(a.event);
    let application = u32::from(a.application) * BIT_16;
    let row = u32::from(a.action) * BIT_24;
    let applied = u32::from(h.applied) * BIT_26;
    event + application + row + applied
}
