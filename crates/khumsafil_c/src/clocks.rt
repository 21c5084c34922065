// Exports `khumsafil::clocks` to C. Each export passes its arguments on, under the same clauses.
ghost use Rattle.std.specs.Prelude.{◌≡◌};
ghost use Rattle.clock_answers.specs.Calls.{fresh_call, offer_call, move_call, time_call, state_call};

// Makes the record a fresh clock.
#[unsafe(no_mangle)]
pub extern "C" fn khumsafil_raw_clock_fresh(record: &mut [u32]) -> u8
    ensures value { result ≡ (fresh_call «record».old).answer }
    ensures record_after { «record».new ≡ (fresh_call «record».old).words }
{
    khumsafil::clocks::khumsafil_raw_clock_fresh(record)
}

// Offers an activation to the clock.
#[unsafe(no_mangle)]
pub extern "C" fn khumsafil_raw_clock_offer(
    record: &mut [u32],
    application: u8,
    event: u16,
    action: u8,
    time: u32,
) -> u16
    ensures value { result ≡ (offer_call «record».old application event action time).answer }
    ensures record_after { «record».new ≡ (offer_call «record».old application event action time).words }
{
    khumsafil::clocks::khumsafil_raw_clock_offer(record, application, event, action, time)
}

// Moves the clock.
#[unsafe(no_mangle)]
pub extern "C" fn khumsafil_raw_clock_move(record: &mut [u32], to: u32) -> u16
    ensures value { result ≡ (move_call «record».old to).answer }
    ensures record_after { «record».new ≡ (move_call «record».old to).words }
{
    khumsafil::clocks::khumsafil_raw_clock_move(record, to)
}

// The clock's time.
#[unsafe(no_mangle)]
pub extern "C" fn khumsafil_raw_clock_time(record: &[u32]) -> u64
    ensures { result ≡ time_call «record».now }
{
    khumsafil::clocks::khumsafil_raw_clock_time(record)
}

// The state of an application.
#[unsafe(no_mangle)]
pub extern "C" fn khumsafil_raw_clock_state(record: &[u32], application: u8) -> u16
    ensures { result ≡ state_call «record».now application }
{
    khumsafil::clocks::khumsafil_raw_clock_state(record, application)
}
