// What an action does to an application's state (document 01, "Applications and the clock").

#![tactic(auto)]

ghost use Rattle.std.specs.Prelude.{◌≡◌};
ghost use Rattle.clock_rule.specs.Rule.{acted, above, applied};
ghost use Rattle.clock_rule.specs.Numbers.{Row, Column, Decoded};

use refusal::Refusal;

// How many applications there are.
pub const APPLICATIONS: usize = 8;

// The states and the actions have their numbers in document 01's order.
#[derive(Clone, Copy, Debug, PartialEq, Eq)]
pub enum State {
    Released = 0,
    Ready = 1,
    Active = 2,
    Suspended = 3,
}

#[derive(Clone, Copy, Debug, PartialEq, Eq)]
pub enum Action {
    Prep = 0,
    Exec = 1,
    Susp = 2,
    Kill = 3,
}

// An application.
#[derive(Clone, Copy, Debug, PartialEq, Eq)]
pub struct App {
    pub state: State,
}

// The number of a state: its column in the rule.
impl From<State> for u32 {
    ghost from_gives = { Column };

    fn from(state: State) -> u32 {
        state as u32
    }
}

// The number of an action: its row in the rule.
impl From<Action> for u32 {
    ghost from_gives = { Row };

    fn from(action: Action) -> u32 {
        action as u32
    }
}

// The action with a number.
impl TryFrom<u8> for Action {
    type Error = Refusal;

    ghost try_from_gives = { Decoded };

    fn try_from(number: u8) -> Result<Action, Refusal> {
        match number {
            0 => Ok(Action::Prep),
            1 => Ok(Action::Exec),
            2 => Ok(Action::Susp),
            3 => Ok(Action::Kill),
            _ => Err(Refusal::NoSuchAction),
        }
    }
}

// The state that an action leaves an application in.
fn act(action: Action, state: State) -> State
    ensures { result ≡ acted action state }
{
    match (action, state) {
        (Action::Prep, State::Released) => State::Ready,
        (Action::Susp, State::Active) => State::Suspended,
        (Action::Prep | Action::Susp, _) => state,
        (Action::Exec, _) => State::Active,
        (Action::Kill, _) => State::Released,
    }
}

// Whether there is no such application: they are numbered from 0.
pub fn is_above(application: u8) -> bool
    ensures { result ≡ above application }
{
    APPLICATIONS <= usize::from(application)
}

// The applications after an action on one of them. An action on none of them changes none.
pub fn apply(apps: [App; APPLICATIONS], application: u8, action: Action) -> [App; APPLICATIONS]
    ensures { result ≡ applied apps application action }
{
    let at = usize::from(application);
    let mut next = apps;
    if at < APPLICATIONS {
        next[at].state = act(action, next[at].state);
    }
    next
}
