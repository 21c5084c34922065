// Exports `khumsafil::shelves` to C. Each export passes its arguments on, under the same clauses.
ghost use Rattle.std.specs.Prelude.{◌≡◌};
ghost use Rattle.answers.specs.Answers.{lent, out as out_of};
ghost use Rattle.shelf_begin.specs.Answer.{begin_lent};
ghost use Rattle.shelf_offer.specs.Answer.{offer_lent};
ghost use Rattle.shelf_ask.specs.Answer.{whole_lent, complete_lent, missing_lent, copy_lent, table_lent};
ghost use Rattle.shelf_release.specs.Answer.{release_lent};
ghost use Rattle.shelf_save.specs.Answer.{save_lent};
ghost use Rattle.shelf_load.specs.Answer.{load_lent};
ghost use Rattle.key.specs.Key.{key_from};

// Begins a fresh shelf: four free places and a zeroed store.
#[unsafe(no_mangle)]
pub extern "C" fn khumsafil_raw_shelf_begin(record: &mut [u16], store: &mut [u8]) -> u8
    ensures { lent result «record».new store.new ≡ begin_lent «record».old store.old }
{
    khumsafil::shelves::khumsafil_raw_shelf_begin(record, store)
}

// Offers a payload.
#[unsafe(no_mangle)]
pub extern "C" fn khumsafil_raw_shelf_offer(
    record: &mut [u16],
    store: &mut [u8],
    payload: &[u8],
) -> u16
    ensures { lent result «record».new store.new ≡ offer_lent «record».old store.old payload.now }
{
    khumsafil::shelves::khumsafil_raw_shelf_offer(record, store, payload)
}

// Whether a table is held and complete: the plain truth, for a lamp.
#[unsafe(no_mangle)]
pub extern "C" fn khumsafil_raw_shelf_is_complete(
    record: &[u16],
    store: &[u8],
    table: u8,
    extension: u16,
    service: u16,
    start: u32,
) -> bool
    ensures { result ≡ complete_lent «record».now store.now (key_from table extension service start) }
{
    khumsafil::shelves::khumsafil_raw_shelf_is_complete(
        record, store, table, extension, service, start,
    )
}

// Whether a table is complete, and why it cannot be told where it cannot.
#[unsafe(no_mangle)]
pub extern "C" fn khumsafil_raw_shelf_complete(
    record: &[u16],
    store: &[u8],
    table: u8,
    extension: u16,
    service: u16,
    start: u32,
) -> u16
    ensures { result ≡ whole_lent «record».now store.now (key_from table extension service start) }
{
    khumsafil::shelves::khumsafil_raw_shelf_complete(
        record, store, table, extension, service, start,
    )
}

// The lowest missing number of a table.
#[unsafe(no_mangle)]
pub extern "C" fn khumsafil_raw_shelf_lowest_missing(
    record: &[u16],
    store: &[u8],
    table: u8,
    extension: u16,
    service: u16,
    start: u32,
) -> u32
    ensures { result ≡ missing_lent «record».now store.now (key_from table extension service start) }
{
    khumsafil::shelves::khumsafil_raw_shelf_lowest_missing(
        record, store, table, extension, service, start,
    )
}

// Which table is in a place.
#[unsafe(no_mangle)]
pub extern "C" fn khumsafil_raw_shelf_table(
    record: &[u16],
    store: &[u8],
    place: u8,
    fields: &mut [u16],
) -> u8
    ensures { out_of result fields.new ≡ table_lent «record».now store.now place fields.old }
{
    khumsafil::shelves::khumsafil_raw_shelf_table(record, store, place, fields)
}

// Copies a section out.
#[unsafe(no_mangle)]
pub extern "C" fn khumsafil_raw_shelf_copy_section(
    record: &[u16],
    store: &[u8],
    table: u8,
    extension: u16,
    service: u16,
    start: u32,
    number: u8,
    out: &mut [u8],
) -> u32
    ensures { out_of result out.new ≡ copy_lent «record».now store.now (key_from table extension service start) number out.old }
{
    khumsafil::shelves::khumsafil_raw_shelf_copy_section(
        record, store, table, extension, service, start, number, out,
    )
}

// Releases a table.
#[unsafe(no_mangle)]
pub extern "C" fn khumsafil_raw_shelf_release(
    record: &mut [u16],
    store: &mut [u8],
    table: u8,
    extension: u16,
    service: u16,
    start: u32,
) -> u8
    ensures { lent result «record».new store.new ≡ release_lent «record».old store.old (key_from table extension service start) }
{
    khumsafil::shelves::khumsafil_raw_shelf_release(record, store, table, extension, service, start)
}

// Saves a table as a file.
#[unsafe(no_mangle)]
pub extern "C" fn khumsafil_raw_shelf_save(
    record: &[u16],
    store: &[u8],
    table: u8,
    extension: u16,
    service: u16,
    start: u32,
    out: &mut [u8],
) -> u32
    ensures { out_of result out.new ≡ save_lent «record».now store.now (key_from table extension service start) out.old }
{
    khumsafil::shelves::khumsafil_raw_shelf_save(
        record, store, table, extension, service, start, out,
    )
}

// Loads a file.
#[unsafe(no_mangle)]
pub extern "C" fn khumsafil_raw_shelf_load(record: &mut [u16], store: &mut [u8], file: &[u8]) -> u8
    ensures { lent result «record».new store.new ≡ load_lent «record».old store.old file.now }
{
    khumsafil::shelves::khumsafil_raw_shelf_load(record, store, file)
}
