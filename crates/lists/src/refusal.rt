// Why a call is refused (RULES 2.2).
ghost use Rattle.std.specs.Prelude.{◌≡◌};
ghost use Rattle.lists.specs.Refusals.{number_of, refusal_number};

// A condition that refuses a call. What it means in one function is said there.
#[derive(Clone, Copy, Debug, PartialEq, Eq)]
pub enum Refusal {
    SideTooLarge,
    WrongLength,
    OutOfRange,
    PositionOutside,
    RadiusOutside,
    UnknownKind,
    CutShort,
    MapTooShort,
    LevelsTooShort,
    ListTooLong,
    OutOfOrder,
    HeaderUnread,
    WrongMaxval,
    PlaceOutside,
    LowAboveHigh,
    ListChanged,
    BeyondList,
    LastChange,
    StreamTooLong,
    TooLate,
}

impl From<Refusal> for u8 {
    // The number of a refusal.
    fn from(refusal: Refusal) -> u8
        ensures { result ≡ refusal_number refusal }
    {
        match refusal {
            Refusal::SideTooLarge => 1,
            Refusal::WrongLength => 2,
            Refusal::OutOfRange => 3,
            Refusal::PositionOutside => 4,
            Refusal::RadiusOutside => 5,
            Refusal::UnknownKind => 6,
            Refusal::CutShort => 7,
            Refusal::MapTooShort => 8,
            Refusal::LevelsTooShort => 9,
            Refusal::ListTooLong => 10,
            Refusal::OutOfOrder => 11,
            Refusal::HeaderUnread => 12,
            Refusal::WrongMaxval => 13,
            Refusal::PlaceOutside => 14,
            Refusal::LowAboveHigh => 15,
            Refusal::ListChanged => 16,
            Refusal::BeyondList => 17,
            Refusal::LastChange => 18,
            Refusal::StreamTooLong => 19,
            Refusal::TooLate => 20,
        }
    }
}

// The number of an answer, 0 if it is not refused.
pub fn number_of<T: Drop>(answer: Result<T, Refusal>) -> u8
    ensures { result ≡ number_of answer }
{
    match answer {
        Ok(_) => 0,
        Err(refusal) => u8::from(refusal),
    }
}
