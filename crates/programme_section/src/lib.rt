// The text for staff: what one section of a programme list holds.
#![tactic(auto)]

ghost use Rattle.std.specs.Prelude.{◌≡◌, ◌<◌, length};
ghost use Rattle.text.specs.Over.{Wrote};
ghost use Rattle.programme.specs.Run.{end_of};
ghost use Rattle.programme.specs.Reading.{own_run, own_of};
ghost use Rattle.programme_section.specs.Section.{own_text, own_read, items_text, items_read, section_text, section_read};

use refusal::Refusal;

// Where the writing stands behind a part of the text, and whether what it tells was read to its end without refusal.
#[derive(Clone, Copy, Debug, PartialEq, Eq)]
pub struct Done {
    pub at: usize,
    pub whole: bool,
}

// Where the table's own descriptors end: the place of the first byte left over, where bytes are. Where one passes the end it is 0, as in `end_of` of the
// definitions. The output and the place in it are passed apart here and below: see `text`.
fn own_end(payload: &[u8], at: usize) -> usize
    requires { at < length payload.now }
    ensures { result ≡ end_of (own_run payload.now at) }
{
    let count = payload[at];
    programme::run_from(payload, at + 1, count).unwrap_or(0)
}

// The table's own loop behind the items, or its refusal.
fn own(out: &mut [u8], at: usize, n: u8, payload: &[u8], place: usize) -> Done
    ensures wrote { Wrote (own_text n payload.now place (own_of payload.now place)) out.old at out.new result.at }
    ensures whole_value { result.whole ≡ own_read payload.now (own_of payload.now place) }
{
    match programme::own_loop(payload, place) {
        Ok(own) => {
            let end = programme_lines::list_line(out, at, own);
            Done {
                at: end,
                whole: true,
            }
        }
        Err(refusal) => {
            if refusal == Refusal::ProgrammeBytesLeft {
                let left = own_end(payload, place);
                let end = programme_lines::refused_at(out, at, n, u8::from(refusal), left);
                return Done {
                    at: end,
                    whole: false,
                };
            }
            let end = programme_lines::refused_at(out, at, n, u8::from(refusal), place);
            Done {
                at: end,
                whole: false,
            }
        }
    }
}

// The items of a section and the table's own loop behind them. A refused item ends the section.
fn items(out: &mut [u8], at: usize, n: u8, payload: &[u8], count: u8) -> Done
    ensures wrote { Wrote (items_text n payload.now count 0 17) out.old at out.new result.at }
    ensures whole_value { result.whole ≡ items_read payload.now count 0 17 }
{
    let mut end = at;
    let mut place = programme::FIRST_ITEM;
    for k in 0..count {
        match programme_items::item_at(payload, place, k) {
            Ok(Some(item)) => {
                let from = item.nameat;
                let to = from + item.named;
                end = programme_lines::item_text(out, end, k, item, &payload[from..to]);
                place = item.next;
            }
            Err(refusal) => {
                let told = programme_lines::refused_at(out, end, n, u8::from(refusal), place);
                return Done {
                    at: told,
                    whole: false,
                };
            }
            Ok(None) => {
                return Done {
                    at: end,
                    whole: false,
                };
            }
        }
    }
    own(out, end, n, payload, place)
}

// The text of section n of a table, whose bytes are the payload.
pub fn section(out: &mut [u8], at: usize, n: u8, payload: &[u8]) -> Done
    ensures wrote { Wrote (section_text n payload.now) out.old at out.new result.at }
    ensures whole_value { result.whole ≡ section_read payload.now }
{
    match programme::read(payload) {
        Err(refusal) => {
            let end = programme_lines::refused_at(out, at, n, u8::from(refusal), section::HEADER);
            Done {
                at: end,
                whole: false,
            }
        }
        Ok(p) => {
            let told = programme_lines::programme_line(out, at, n, p);
            items(out, told, n, payload, p.items)
        }
    }
}
