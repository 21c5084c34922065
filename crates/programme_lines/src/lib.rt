// The lines of the text for staff: of a section of a programme list and of its items. Each is written as the crate text writes, the output and the
// place in it apart.
#![tactic(auto)]

ghost use Rattle.std.specs.Prelude.{[], ◌++◌, ◌≡◌, ◌<◌, ◌/◌, ◌%◌, if◌then◌else◌};
ghost use Rattle.file_listing.specs.Words.{newline};
ghost use Rattle.file_listing.specs.Listing.{added_words, head_line};
ghost use Rattle.text.specs.Words.{decimal};
ghost use Rattle.text.specs.Over.{Wrote};
ghost use Rattle.programme_lines.specs.Lines.{refused_at, programme_line, item_line, flags_line, included_lines, name_line, descriptors_line, list_line, item_text};

use key::Key;
use programme::{Item, Loop, Programme};
use section::Header;

// What an NRT-IT's line says after its extension: the rest of its key.
fn added_words(out: &mut [u8], at: usize, key: Key) -> usize
    ensures { Wrote (added_words key) out.old at out.new result }
{
    if key.table != key::NRT_IT {
        return at;
    }
    text::pair(
        out,
        at,
        b" service ",
        u64::from(key.service),
        b" start ",
        u64::from(key.start),
    )
}

pub fn head_line(out: &mut [u8], at: usize, h: Header) -> usize
    ensures { Wrote (head_line h) out.old at out.new result }
{
    let key = h.key;
    let told = text::pair(
        out,
        at,
        b"table ",
        u64::from(key.table),
        b" key ",
        u64::from(key.extension),
    );
    let added = added_words(out, told, key);
    text::pair_line(
        out,
        added,
        b" version ",
        u64::from(h.version),
        b" last ",
        u64::from(h.last),
    )
}

// The line of a section that is refused, or that ends with a refusal.
pub fn refused_at(out: &mut [u8], at: usize, section: u8, number: u8, place: usize) -> usize
    ensures { Wrote (refused_at section number place) out.old at out.new result }
{
    let told = text::field(out, at, b"section ", u64::from(section));
    text::pair_line(
        out,
        told,
        b" refused ",
        u64::from(number),
        b" place ",
        place as u64,
    )
}

pub fn programme_line(out: &mut [u8], at: usize, section: u8, p: Programme) -> usize
    ensures { Wrote (programme_line section p) out.old at out.new result }
{
    let told = text::field(out, at, b"section ", u64::from(section));
    let start = text::pair(
        out,
        told,
        b" service ",
        u64::from(p.service),
        b" start ",
        u64::from(p.start),
    );
    text::pair_line(
        out,
        start,
        b" minutes ",
        u64::from(p.minutes),
        b" items ",
        u64::from(p.items),
    )
}

fn item_line(out: &mut [u8], at: usize, k: u8, linkage: u32) -> usize
    ensures { Wrote (item_line k linkage) out.old at out.new result }
{
    text::pair_line(
        out,
        at,
        b"item ",
        u64::from(k),
        b" linkage ",
        u64::from(linkage),
    )
}

// A flag among ten bits, by the number that its bit stands for.
fn flag(flags: u16, bit: u16) -> u64
    requires { 0 < bit }
    ensures { result ≡ flags / bit % 2 }
{
    u64::from(flags / bit % 2)
}

fn flags_line(out: &mut [u8], at: usize, flags: u16) -> usize
    ensures { Wrote (flags_line flags) out.old at out.new result }
{
    let fragment = text::pair(
        out,
        at,
        b"updates ",
        flag(flags, 512),
        b" fragment ",
        flag(flags, 256),
    );
    let master = text::pair(
        out,
        fragment,
        b" protected ",
        flag(flags, 128),
        b" master ",
        flag(flags, 64),
    );
    text::pair_line(
        out,
        master,
        b" internet ",
        flag(flags, 2),
        b" broadcast ",
        flag(flags, 1),
    )
}

// A line that is there only where its flag is 1.
fn line_where(out: &mut [u8], at: usize, there: bool, w: &[u8], n: u64) -> usize
    ensures { Wrote (if◌then◌else◌ there ((w.now ++ decimal n) ++ newline) []) out.old at out.new result }
{
    if there {
        return text::line(out, at, w, n);
    }
    at
}

// The lines of the fields that the flags include.
fn optional_lines(out: &mut [u8], at: usize, i: Item) -> usize
    ensures { Wrote (included_lines i) out.old at out.new result }
{
    let flags = i.flags;
    let playback = line_where(
        out,
        at,
        flag(flags, 32) == 1,
        b"playback ",
        u64::from(i.playback),
    );
    let delay = line_where(
        out,
        playback,
        flag(flags, 16) == 1,
        b"delay ",
        u64::from(i.delay),
    );
    let expires = line_where(
        out,
        delay,
        flag(flags, 8) == 1,
        b"expires ",
        u64::from(i.expires),
    );
    line_where(out, expires, flag(flags, 4) == 1, b"size ", i.size)
}

fn name_line(out: &mut [u8], at: usize, name: &[u8]) -> usize
    ensures { Wrote (name_line name.now) out.old at out.new result }
{
    let told = text::word(out, at, b"name ");
    let named = text::escaped(out, told, name);
    text::put(out, named, text::NEWLINE)
}

// The line of an item's descriptors, and of the table's own.
fn descriptors_line(out: &mut [u8], at: usize, l: Loop) -> usize
    ensures { Wrote (descriptors_line l) out.old at out.new result }
{
    text::pair_line(
        out,
        at,
        b"descriptors ",
        u64::from(l.count),
        b" bytes ",
        l.length as u64,
    )
}

pub fn list_line(out: &mut [u8], at: usize, l: Loop) -> usize
    ensures { Wrote (list_line l) out.old at out.new result }
{
    text::pair_line(
        out,
        at,
        b"list descriptors ",
        u64::from(l.count),
        b" bytes ",
        l.length as u64,
    )
}

// The lines of item k of a section, whose name has these bytes.
pub fn item_text(out: &mut [u8], at: usize, k: u8, i: Item, name: &[u8]) -> usize
    ensures { Wrote (item_text name.now k i) out.old at out.new result }
{
    let item = item_line(out, at, k, i.linkage);
    let flags = flags_line(out, item, i.flags);
    let included = optional_lines(out, flags, i);
    let named = name_line(out, included, name);
    let l = i.descriptors;
    descriptors_line(out, named, l)
}
