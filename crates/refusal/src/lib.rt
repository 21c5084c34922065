// Why a call is refused: one error for every layer, so that each hands on what the layer below refused with `?`.
#![tactic(auto)]

ghost use Rattle.std.specs.Prelude.{◌≡◌};
ghost use Rattle.refusal.specs.Refusal.{number, Numbered};

// The numbers of refusal of document 01, 40 to 46 and 59 of document 02, and 255, which is the boundary's own.
#[derive(Clone, Copy, Debug, PartialEq, Eq)]
pub enum Refusal {
    // Payload under 8 bytes.
    PayloadShort = 1,
    // Syntax indicator 1 or private indicator 0.
    WrongIndicator = 2,
    // Section length under 5 or over 1,021.
    LengthOutOfRange = 3,
    // Section longer than its payload.
    LongerThanPayload = 4,
    // Section shorter than its payload.
    ShorterThanPayload = 5,
    // Section number above last.
    NumberAboveLast = 6,
    // Last number above 15.
    LastAbove15 = 7,
    // Current/next is 0.
    NotCurrent = 8,
    // New key, no free place.
    NoFreePlace = 9,
    // Differs from what is held.
    Differs = 10,
    // File number cut off, not shortest, or above 65,535.
    BadNumber = 11,
    // Every other fault of a file but those of its sections.
    BadFile = 12,
    // Loading a key already held.
    KeyHeld = 13,
    // Table not held.
    TableNotHeld = 14,
    // Output too small.
    OutputTooSmall = 15,
    // Section not held.
    SectionNotHeld = 16,
    // A lent store not 65,536 bytes.
    StoreSize = 17,
    // Shelf record spoiled.
    ShelfSpoiled = 18,
    // Descriptor runs past the loop, or the place asked is beyond its end.
    DescriptorRunsPast = 19,
    // Trigger ends inside a field.
    TriggerCutOff = 20,
    // Event type not 0.
    TriggerOtherEvent = 21,
    // Application id length 1.
    TriggerForbiddenIdLength = 22,
    // A length that the target's type forbids.
    TriggerWrongTargetLength = 23,
    // URI byte above 127.
    TriggerHighUriByte = 24,
    // Bytes after the user data.
    TriggerBytesLeft = 25,
    // Trigger over 4,096 bytes.
    TriggerTooLong = 26,
    // Application above 7.
    ClockAbove = 30,
    // Clock moved back.
    ClockMovedBack = 31,
    // Time more than 60,000 before the clock.
    ClockPast = 32,
    // That activation is held.
    ClockAlreadyHeld = 33,
    // 32 held.
    ClockFull = 34,
    // Clock record spoiled.
    ClockSpoiled = 35,
    // Body too long.
    WriterBodyTooLong = 40,
    // Version above 31.
    WriterVersionAbove31 = 41,
    // K above the last.
    WriterKAboveLast = 42,
    // A field or loop passes the end.
    ProgrammePassesEnd = 43,
    // Bytes left over.
    ProgrammeBytesLeft = 44,
    // Table id not the NRT-IT's.
    ProgrammeOtherTable = 45,
    // An NRT-IT too short to hold its key.
    KeyShort = 46,
    // The writer asked for the NRT-IT's id.
    AskedForNrtIt = 59,
    // No such action: the boundary's own.
    NoSuchAction = 255,
}

// The number of a refusal.
impl From<Refusal> for u8 {
    ghost from_gives = { Numbered };

    fn from(refusal: Refusal) -> u8 {
        refusal as u8
    }
}
