// The clock's calls over a record that the host lends in 67 words. The record goes in and out by a copy of its words, and each
// call is answered in one number.

#![tactic(auto)]

ghost use Rattle.std.specs.Prelude.{◌≡◌};
ghost use Rattle.clock.specs.Codes.{heard_code, moved_code, time_code, state_code};
ghost use Rattle.clock_answers.specs.Calls.{FewIn, record_in, fresh_on, offer_on, move_on, time_on, state_on, fresh_call, offer_call, move_call, time_call, state_call};

use clock::{Clock, Heard};
use clock_activation::Activation;
use clock_record::SIZE;
use clock_rule::{Action, State};
use refusal::Refusal;

// What became of an activation, from bit 8 of the answer, as C gets it.
const APPLIED: u16 = 256;

const WAITING: u16 = 512;

// What a field is multiplied by to begin at that bit of the answer.
const BIT_8: u16 = 256;

// The record that the words are: another number of words than 67 is none, and a record that is none is spoiled.
fn record_in(words: &[u32]) -> Result<Clock, Refusal>
    ensures { result ≡ record_in words.now }
{
    match <[u32; SIZE]>::try_from(words) {
        Ok(words) => Ok(Clock { words }),
        Err(_) => Err(Refusal::ClockSpoiled),
    }
}

fn fresh(words: &mut [u32]) -> Result<(), Refusal>
    ensures value { result ≡ (fresh_on words.old).answer }
    ensures words_after { words.new ≡ (fresh_on words.old).words }
{
    record_in(words)?;
    words.copy_from_slice(&Clock::fresh().words);
    Ok(())
}

// Makes the words a fresh clock.
pub fn clock_fresh(words: &mut [u32]) -> u8
    ensures value { result ≡ (fresh_call words.old).answer }
    ensures words_after { words.new ≡ (fresh_call words.old).words }
{
    answers::done(fresh(words))
}

fn offer(
    words: &mut [u32],
    application: u8,
    event: u16,
    action: u8,
    time: u32,
) -> Result<Heard, Refusal>
    ensures value { result ≡ (offer_on words.old application event action time).answer }
    ensures words_after { words.new ≡ (offer_on words.old application event action time).words }
{
    let action = Action::try_from(action)?;
    let clock = record_in(words)?;
    let next = clock.offer(Activation {
        application,
        event,
        action,
        time,
    });
    let heard = next.answer?;
    words.copy_from_slice(&next.clock.words);
    Ok(heard)
}

fn heard_code(heard: Result<Heard, Refusal>) -> u16
    ensures { result ≡ heard_code heard }
{
    match heard {
        Ok(Heard::Applied) => APPLIED,
        Ok(Heard::Waiting) => WAITING,
        Err(refusal) => refusal as u16,
    }
}

// Offers an activation to the clock.
pub fn clock_offer(words: &mut [u32], application: u8, event: u16, action: u8, time: u32) -> u16
    ensures value { result ≡ (offer_call words.old application event action time).answer }
    ensures words_after { words.new ≡ (offer_call words.old application event action time).words }
{
    heard_code(offer(words, application, event, action, time))
}

fn move_to(words: &mut [u32], to: u32) -> Result<usize, Refusal>
    ensures value { result ≡ (move_on words.old to).answer }
    ensures words_after { words.new ≡ (move_on words.old to).words }
{
    let clock = record_in(words)?;
    let next = clock.move_to(to);
    let applied = next.answer?;
    words.copy_from_slice(&next.clock.words);
    Ok(applied)
}

// At most 32 are held, so that the number stands in 16 bits.
fn moved_code(moved: Result<usize, Refusal>) -> u16
    requires { FewIn moved }
    ensures { result ≡ moved_code moved }
{
    match moved {
        Ok(applied) => applied as u16 * BIT_8,
        Err(refusal) => refusal as u16,
    }
}

// Moves the clock.
pub fn clock_move(words: &mut [u32], to: u32) -> u16
    ensures value { result ≡ (move_call words.old to).answer }
    ensures words_after { words.new ≡ (move_call words.old to).words }
{
    moved_code(move_to(words, to))
}

fn time(words: &[u32]) -> Result<u32, Refusal>
    ensures { result ≡ time_on words.now }
{
    record_in(words)?.time_now()
}

fn time_code(asked: Result<u32, Refusal>) -> u64
    ensures { result ≡ time_code asked }
{
    match asked {
        Ok(time) => u64::from(time) * answers::BIT_32,
        Err(refusal) => refusal as u64,
    }
}

// The clock's time.
pub fn clock_time(words: &[u32]) -> u64
    ensures { result ≡ time_call words.now }
{
    time_code(time(words))
}

fn state(words: &[u32], application: u8) -> Result<State, Refusal>
    ensures { result ≡ state_on words.now application }
{
    record_in(words)?.state_of(application)
}

fn state_code(asked: Result<State, Refusal>) -> u16
    ensures { result ≡ state_code asked }
{
    match asked {
        Ok(state) => state as u16 * BIT_8,
        Err(refusal) => refusal as u16,
    }
}

// The state of an application.
pub fn clock_state(words: &[u32], application: u8) -> u16
    ensures { result ≡ state_call words.now application }
{
    state_code(state(words, application))
}
