// Documents 01's and 02's refusals, each with its number: what a call answers that does nothing.
#![tactic(auto)]

use thiserror::Error;

// 1 to 8 are faults of a record, and the first one from its front decides.
#[derive(Clone, Copy, Debug, PartialEq, Eq, Drop, Error)]
pub enum Refusal {
    #[error("the bytes end early")]
    EndsEarly = 1,
    #[error("the kind is unknown")]
    UnknownKind = 2,
    #[error("no serial on the roster or more than 128, or more mourned than there are")]
    BadCount = 3,
    #[error("a serial is 0")]
    ZeroSerial = 4,
    #[error("a serial stands twice on the roster")]
    Twice = 5,
    #[error("the own serial, or a mourned one, is not on the roster")]
    NotOnRoster = 6,
    #[error("mourned serials are repeated or out of roster order")]
    OutOfOrder = 7,
    #[error("bytes follow the record")]
    BytesAfter = 8,
    #[error("the record's roster is not the group's")]
    OtherGroup = 9,
    #[error("this controller is back with another record")]
    OtherRecord = 10,
    #[error("no history fits this record and those taken")]
    NoHistory = 11,
    #[error("the place is off the roster")]
    OffRoster = 12,
    #[error("a lent buffer is too short")]
    TooShort = 13,
    #[error("the event is not allowed, or there is no record of the place yet")]
    NotAllowed = 14,
    #[error("the history has a bit for a place off the roster")]
    BitOffRoster = 15,
    #[error("the serial is known already, or the place has a second one")]
    KnownSerial = 16,
    #[error("the roster is too long to play the game out")]
    TooMany = 17,
}
