// Releasing a table (document 01, "The shelf"): its place is free again, and its sixteen berths are zeroed.
#![tactic(auto)]

ghost use Rattle.std.specs.Prelude.{◌≡◌};
ghost use Rattle.shelf_release.specs.On.{leaving, release_on};
ghost use Rattle.answers.specs.Answers.{lent};
ghost use Rattle.shelf_release.specs.Answer.{release_lent};

use key::Key;
use refusal::Refusal;

// Frees the place of the table with that key and zeroes all its berths.
pub fn release_table(words: &mut [u16], store: &mut [u8], key: Key) -> Result<(), Refusal>
    ensures { leaving result words.new store.new ≡ release_on words.old store.old key }
{
    let p = shelf_ask::held_in(words, store.len(), key)?;
    berth::wipe_all(store, p);
    shelf_write::put_free(words, p);
    Ok(())
}

// Releases a table, and answers in a number: 0, or the refusal.
pub fn release_code(words: &mut [u16], store: &mut [u8], key: Key) -> u8
    ensures { lent result words.new store.new ≡ release_lent words.old store.old key }
{
    answers::done(release_table(words, store, key))
}
