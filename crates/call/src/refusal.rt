// Why an entry point refuses: document 01's table, and what the requests add to it.
ghost use Rattle.std.specs.Prelude.{◌≡◌};
ghost use Rattle.call.specs.Refusal.{number_of};

#[derive(Clone, Copy, PartialEq, Eq)]
pub enum Refusal {
    // A float argument is NaN or infinite.
    NotFinite,
    // An argument is outside its range.
    OutOfRange,
    // A configuration number or parameter that the call looks at is not finite or out of range.
    BadParameter,
    // A state number that the call looks at is unsound.
    UnsoundState,
    // A sample count that the call would raise stands at its stop.
    CountAtStop,
    // A number that the call would store is unsound.
    UnsoundResult,
    // A record's header or payload is cut off.
    Cut,
    // A tag, a mark or an edition that is none.
    Unknown,
    // A length that is not the tag's.
    WrongLength,
    // A record that may not stand where it stands.
    WrongPlace,
    // A buffer without room for the record.
    NoRoom,
    // A row of filters longer than it may be.
    LongRow,
    // A car that is not in the row.
    NoSuchCar,
}

impl From<Refusal> for u32 {
    ghost from_gives = { λ r n. n ≡ number_of r };

    fn from(refusal: Refusal) -> u32 {
        match refusal {
            Refusal::NotFinite => 1,
            Refusal::OutOfRange => 2,
            Refusal::BadParameter => 3,
            Refusal::UnsoundState => 4,
            Refusal::CountAtStop => 5,
            Refusal::UnsoundResult => 6,
            Refusal::Cut => 7,
            Refusal::Unknown => 8,
            Refusal::WrongLength => 9,
            Refusal::WrongPlace => 10,
            Refusal::NoRoom => 11,
            Refusal::LongRow => 12,
            Refusal::NoSuchCar => 13,
        }
    }
}
