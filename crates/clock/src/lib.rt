// The clock that applies activations to applications (document 01, "Applications and the clock").
// An offer and a move take the clock record and hand back the next one. Any record may be handed in: a spoiled one is refused.

#![tactic(auto)]

ghost use Rattle.std.specs.Prelude.{◌≡◌};
ghost use Rattle.clock_record.specs.Book.{fresh};
ghost use Rattle.clock_states.specs.States.{apps_in, states_word};
ghost use Rattle.clock.specs.Record.{book_of, clock_of, left_by, offer_to, move_to};
ghost use Rattle.clock.specs.Offer.{offer_in};
ghost use Rattle.clock.specs.Move.{move_in};
ghost use Rattle.clock.specs.Ask.{sound_in, time_in, state_in};

use clock_activation::{Activation, Held, is_past, within};
use clock_due::run;
use clock_keep::{hold, keep};
use clock_record::{COUNT, NOW, STATES, is_held, is_spoiled};
use clock_rule::{State, apply, is_above};
use clock_states::{apps_in, states_word};
use refusal::Refusal;

// A clock record, in words: the clock, the applications' states, and the activations held. The layout stands in
// crates/clock_record/specs/Words.antt.
#[derive(Drop, Debug, PartialEq, Eq)]
pub struct Clock {
    pub words: [u32; clock_record::SIZE],
}

// What became of an activation that was accepted.
#[derive(Clone, Copy, Debug, PartialEq, Eq)]
pub enum Heard {
    Applied,
    Waiting,
}

// The answer to a call, and the next record, which comes back on a refusal too, as document 01 names it: so this is no `Result` of both.
#[derive(Drop)]
pub struct Handed<T> {
    pub clock: Clock,
    pub answer: Result<T, Refusal>,
}

// The states' word has its states below this bit.
const BIT_16: u32 = 65536;

// The states' word with nothing beside the states.
fn states_in(word: u32) -> u32
    ensures { result ≡ states_word (apps_in word) }
{
    word % BIT_16
}

impl Clock {
    // The most activations held, the milliseconds that an applied one is remembered, and the applications.
    pub const HELD: usize = clock_activation::HELD;

    pub const MEMORY: u32 = clock_activation::MEMORY;

    pub const APPLICATIONS: usize = clock_rule::APPLICATIONS;

    // A clock at 0 with every application Released and nothing held.
    pub fn fresh() -> Clock
        ensures { result ≡ clock_of fresh }
    {
        Clock {
            words: [0u32; clock_record::SIZE],
        }
    }

    // Every call but that for a fresh one refuses a spoiled record before all else.
    fn sound(&self) -> Result<(), Refusal>
        ensures { result ≡ sound_in (book_of self.now) }
    {
        if is_spoiled(&self.words) {
            return Err(Refusal::ClockSpoiled);
        }
        Ok(())
    }

    // One at or before the clock is applied now, and a later one waits.
    fn hear(&mut self, a: Activation) -> Result<Heard, Refusal>
        ensures value { result ≡ (offer_in (book_of self.old) a).answer }
        ensures record_after { self.new ≡ left_by self.old (offer_in (book_of self.old) a) }
    {
        self.sound()?;
        if is_above(a.application) {
            return Err(Refusal::ClockAbove);
        }
        let now = self.words[NOW];
        if is_past(now, a.time) {
            return Err(Refusal::ClockPast);
        }
        if is_held(a, &self.words) {
            return Err(Refusal::ClockAlreadyHeld);
        }
        if Clock::HELD <= within(self.words[COUNT]) {
            return Err(Refusal::ClockFull);
        }
        if a.time <= now {
            let action = a.action;
            let apps = apply(apps_in(self.words[STATES]), a.application, action);
            let done = Held {
                activation: a,
                applied: true,
            };
            self.words = hold(states_word(apps), done, self.words);
            return Ok(Heard::Applied);
        }
        let waiting = Held {
            activation: a,
            applied: false,
        };
        self.words = hold(states_in(self.words[STATES]), waiting, self.words);
        Ok(Heard::Waiting)
    }

    // Each waiting one that a move reaches is applied.
    fn advance(&mut self, to: u32) -> Result<usize, Refusal>
        ensures value { result ≡ (move_in (book_of self.old) to).answer }
        ensures record_after { self.new ≡ left_by self.old (move_in (book_of self.old) to) }
    {
        self.sound()?;
        if to < self.words[NOW] {
            return Err(Refusal::ClockMovedBack);
        }
        let ran = run(to, &self.words);
        self.words = keep(to, ran.states, &self.words);
        Ok(ran.count)
    }

    // Hears an activation: one at or before the clock is applied now, and a later one waits. Refused are, in this order,
    // a spoiled record, an application above 7, a time more than 60,000 before the clock, one that is held (the first heard
    // stands, whatever the action), and where 32 are held. A refusal hands the record back as it was. By value, as document 01
    // names it: the call takes the record and hands back the next one.
    pub fn offer(self, a: Activation) -> Handed<Heard>
        ensures { result ≡ offer_to self a }
    {
        let mut clock = self;
        let answer = clock.hear(a);
        Handed { clock, answer }
    }

    // Moves the clock: each waiting activation that it reaches is applied, in order of time, then application, then event,
    // and the answer is how many. Refused are a spoiled record and then a move back, and the record is then as it was. By value, as
    // `offer`.
    pub fn move_to(self, to: u32) -> Handed<usize>
        ensures { result ≡ move_to self to }
    {
        let mut clock = self;
        let answer = clock.advance(to);
        Handed { clock, answer }
    }

    // The clock's time. A spoiled record is refused.
    pub fn time_now(&self) -> Result<u32, Refusal>
        ensures { result ≡ time_in (book_of self.now) }
    {
        self.sound()?; // a spoiled record tells no time
        Ok(self.words[NOW])
    }

    // The state of an application. A spoiled record is refused, and then an application above 7.
    pub fn state_of(&self, application: u8) -> Result<State, Refusal>
        ensures { result ≡ state_in (book_of self.now) application }
    {
        self.sound()?;
        if is_above(application) {
            Err(Refusal::ClockAbove)
        } else {
            let apps = apps_in(self.words[STATES]);
            let app = apps[usize::from(application)];
            Ok(app.state)
        }
    }
}
