// The shelf and its files. The record is 96 numbers that the host lends. A table is named by the four numbers of a key, of which the last two mean
// nothing but of an NRT-IT.
ghost use Rattle.std.specs.Prelude.{◌≡◌};
ghost use Rattle.answers.specs.Answers.{lent, out as out_of};
ghost use Rattle.shelf_begin.specs.Answer.{begin_lent};
ghost use Rattle.shelf_offer.specs.Answer.{offer_lent};
ghost use Rattle.shelf_ask.specs.Answer.{whole_lent, complete_lent, missing_lent, copy_lent, table_lent};
ghost use Rattle.shelf_release.specs.Answer.{release_lent};
ghost use Rattle.shelf_save.specs.Answer.{save_lent};
ghost use Rattle.shelf_load.specs.Answer.{load_lent};
ghost use Rattle.key.specs.Key.{key_from};

// Begins a fresh shelf: four free places and a zeroed store.
pub fn khumsafil_raw_shelf_begin(record: &mut [u16], store: &mut [u8]) -> u8
    ensures { lent result «record».new store.new ≡ begin_lent «record».old store.old }
{
    shelf_begin::begin_code(record, store)
}

// Offers a payload.
pub fn khumsafil_raw_shelf_offer(record: &mut [u16], store: &mut [u8], payload: &[u8]) -> u16
    ensures { lent result «record».new store.new ≡ offer_lent «record».old store.old payload.now }
{
    shelf_offer::offer_code(record, store, payload)
}

// Whether a table is held and complete: the plain truth, for a lamp.
pub fn khumsafil_raw_shelf_is_complete(
    record: &[u16],
    store: &[u8],
    table: u8,
    extension: u16,
    service: u16,
    start: u32,
) -> bool
    ensures { result ≡ complete_lent «record».now store.now (key_from table extension service start) }
{
    shelf_ask::is_complete(record, store, key::from(table, extension, service, start))
}

// Whether a table is complete, and why it cannot be told where it cannot.
pub fn khumsafil_raw_shelf_complete(
    record: &[u16],
    store: &[u8],
    table: u8,
    extension: u16,
    service: u16,
    start: u32,
) -> u16
    ensures { result ≡ whole_lent «record».now store.now (key_from table extension service start) }
{
    shelf_ask::complete_code(record, store, key::from(table, extension, service, start))
}

// The lowest missing number of a table.
pub fn khumsafil_raw_shelf_lowest_missing(
    record: &[u16],
    store: &[u8],
    table: u8,
    extension: u16,
    service: u16,
    start: u32,
) -> u32
    ensures { result ≡ missing_lent «record».now store.now (key_from table extension service start) }
{
    shelf_ask::missing_code(record, store, key::from(table, extension, service, start))
}

// Which table is in a place.
pub fn khumsafil_raw_shelf_table(record: &[u16], store: &[u8], place: u8, fields: &mut [u16]) -> u8
    ensures { out_of result fields.new ≡ table_lent «record».now store.now place fields.old }
{
    shelf_ask::table_code(record, store, place, fields)
}

// Copies a section out.
pub fn khumsafil_raw_shelf_copy_section(
    record: &[u16],
    store: &[u8],
    table: u8,
    extension: u16,
    service: u16,
    start: u32,
    number: u8,
    out: &mut [u8],
) -> u32
    ensures { out_of result out.new ≡ copy_lent «record».now store.now (key_from table extension service start) number out.old }
{
    shelf_ask::copy_code(
        record,
        store,
        key::from(table, extension, service, start),
        number,
        out,
    )
}

// Releases a table.
pub fn khumsafil_raw_shelf_release(
    record: &mut [u16],
    store: &mut [u8],
    table: u8,
    extension: u16,
    service: u16,
    start: u32,
) -> u8
    ensures { lent result «record».new store.new ≡ release_lent «record».old store.old (key_from table extension service start) }
{
    shelf_release::release_code(record, store, key::from(table, extension, service, start))
}

// Saves a table as a file.
pub fn khumsafil_raw_shelf_save(
    record: &[u16],
    store: &[u8],
    table: u8,
    extension: u16,
    service: u16,
    start: u32,
    out: &mut [u8],
) -> u32
    ensures { out_of result out.new ≡ save_lent «record».now store.now (key_from table extension service start) out.old }
{
    let saved = key::from(table, extension, service, start);
    shelf_save::save_code(record, store, saved, out)
}

// Loads a file.
pub fn khumsafil_raw_shelf_load(record: &mut [u16], store: &mut [u8], file: &[u8]) -> u8
    ensures { lent result «record».new store.new ≡ load_lent «record».old store.old file.now }
{
    shelf_load::load_code(record, store, file)
}
