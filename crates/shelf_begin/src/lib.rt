// Begins a shelf (document 01, "The shelf"): four free places and a zeroed store.
#![tactic(auto)]

ghost use Rattle.std.specs.Prelude.{◌≡◌};
ghost use Rattle.shelf_begin.specs.On.{leaving, begin_on};
ghost use Rattle.answers.specs.Answers.{lent};
ghost use Rattle.shelf_begin.specs.Answer.{begin_lent};

use berth::STORE;
use refusal::Refusal;

// A fresh record in the numbers, and the store is all zeros. Where one of the two has another size, both stay as they were.
pub fn begin_shelf(words: &mut [u16], store: &mut [u8]) -> Result<(), Refusal>
    ensures { leaving result words.new store.new ≡ begin_on words.old store.old }
{
    if store.len() != STORE {
        return Err(Refusal::StoreSize);
    }
    if words.len() != shelf::WORDS {
        return Err(Refusal::ShelfSpoiled);
    }
    store.fill(0);
    shelf_write::put_fresh(words);
    Ok(())
}

// Begins a shelf, and answers in a number: 0, or the refusal.
pub fn begin_code(words: &mut [u16], store: &mut [u8]) -> u8
    ensures { lent result words.new store.new ≡ begin_lent words.old store.old }
{
    answers::done(begin_shelf(words, store))
}
