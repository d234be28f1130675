// Why a call is refused: document 01's section "Refusal numbers", in its order, and 18 to 20 of document 02.
//
// One enum serves the whole library, so that a host prints every refusal by one table.
#![tactic(auto)]

ghost use Rattle.std.specs.Prelude.{◌≡◌, Some};
ghost use Rattle.refusal.specs.Numbers.{refusal_number};
ghost use Rattle.refusal.specs.Text.{refusal_text};

use std::{error, fmt};

// Each with the papers' number.
#[derive(Clone, Copy, PartialEq, Eq, Debug)]
pub enum Refusal {
    RoomFull = 1,
    // Retired: never given. Its number stays reserved.
    AlreadySeated = 2,
    NotSeated = 3,
    PacketSize = 4,
    UnexpectedKind = 5,
    WrongLength = 6,
    ZeroPing = 7,
    NoSuchRoute = 8,
    NotConnected = 9,
    OutputTooShort = 10,
    RoomNotWhole = 11,
    ListSize = 12,
    KeyNotHeld = 13,
    ListNotWhole = 14,
    UnknownFamily = 15,
    NodeCutShort = 16,
    BytesAfterNodes = 17,
    BadFrame = 18,
    ClockBack = 19,
    BucketsNotWhole = 20,
}

impl Refusal {
    // The papers' number of a refusal.
    pub fn number(self) -> u8
        ensures { result ≡ refusal_number self }
    {
        self as u8
    }
}

// The papers' words for a refusal: document 01's from the table "Given exactly when", document 02's for a key not seated, a keep, a tick's output and
// 18 to 20. An arrival's output is worded as a tick's, by document 02's "arrival checks 10 (2,048)"; and 2, which no call gives any more, has "retired"
// before it.
impl fmt::Display for Refusal {
    ghost output = { λ why. Some (refusal_text why) };

    fn fmt<W: fmt::Write>(&self, f: &mut fmt::Formatter<W>) -> fmt::Result {
        f.write_str(match self {
            Refusal::RoomFull => "arrival with all 40 seats taken, of a key not seated",
            Refusal::AlreadySeated => "retired: arrival of a key already seated",
            Refusal::NotSeated => "seat above 39, or empty",
            Refusal::PacketSize => "packet of 0 or more than 2,032 bytes",
            Refusal::UnexpectedKind => "a kind this end does not take",
            Refusal::WrongLength => "wrong length for the kind",
            Refusal::ZeroPing => "ping number 0",
            Refusal::NoSuchRoute =>
                "room: number names no route; laptop's end: answer with 1 to 15, or kind 2 or 3 below 16",
            Refusal::NotConnected => "data on a waiting route",
            Refusal::OutputTooShort => {
                "lent output too short: under 2,048 for packet and leave, under the exact length for a writer; a keep that is too short; tick output under 5,120; arrival output under 2,048"
            }
            Refusal::RoomNotWhole => "room not whole",
            Refusal::ListSize => "list size not 1 to 16",
            Refusal::KeyNotHeld => "key to remove is not held",
            Refusal::ListNotWhole =>
                "list longer than its size, not strictly rising in distance, or holding an unknown family",
            Refusal::UnknownFamily => "unknown family byte",
            Refusal::NodeCutShort => "node cut short",
            Refusal::BytesAfterNodes => "bytes left after four nodes",
            Refusal::BadFrame =>
                "a length under 17 or above 2,048; a reader holding 2 or more bytes that start no unfinished frame",
            Refusal::ClockBack => "a clock that goes back",
            Refusal::BucketsNotWhole => "buckets that hold a wrong, doubled or base key",
        })
    }
}

impl error::Error for Refusal {}
