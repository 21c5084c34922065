// The word of the eight applications' states, two bits each. The layout of a record stands in crates/clock_record/specs/Words.antt.
#![tactic(auto)]

ghost use Rattle.std.specs.Prelude.{◌≡◌};
ghost use Rattle.clock_states.specs.States.{state_no, apps_in, states_word};

use clock_rule::{APPLICATIONS, App, State};

// The state with a number; those above 2 are one. Two bits always name a state, so a TryFrom would have an error that nobody meets.
fn state_of(number: u32) -> State
    ensures { result ≡ state_no number }
{
    match number {
        0 => State::Released,
        1 => State::Ready,
        2 => State::Active,
        _ => State::Suspended,
    }
}

// The applications, of whose states a word has two bits each.
pub fn apps_in(word: u32) -> [App; APPLICATIONS]
    ensures { result ≡ apps_in word }
{
    let mut apps = [App {
        state: State::Released,
    }; APPLICATIONS];
    let mut rest = word;
    for app in apps.iter_mut() {
        *app = App {
            state: state_of(rest % 4),
        };
        rest /= 4;
    }
    apps
}

// The word of eight states, the last one's digit the highest.
pub fn states_word(apps: [App; APPLICATIONS]) -> u32
    ensures { result ≡ states_word apps }
{
    let mut word = 0;
    for i in (0..APPLICATIONS).rev() {
        word = word * 4 + u32::from(apps[i].state);
    }
    word
}
