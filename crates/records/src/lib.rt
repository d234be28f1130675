// Records in a lent output. Document 01, "The room": "What is sent is a run of records in the lent output: seat (1 byte), length (2), the packet."
//
// The writers stand in `record`, one for each kind of packet that the relay sends; the reader stands here. Nothing else writes or reads a record.
// `entry` writes what a run of stored calls puts before the records of a call.
#![tactic(auto)]

ghost use Rattle.std.specs.Prelude.{◌≡◌};
ghost use Rattle.records.specs.Read.{first_record, shown_first};

use refusal::Refusal;
use seat::Seat;

pub mod entry;
pub mod record;

// The bytes before the packet: the seat and the length.
pub const HEAD: usize = 3;

// What an accepted call answers: its seat, and how many bytes it wrote.
#[derive(Clone, Copy, PartialEq, Eq, Debug)]
pub struct Accepted {
    pub seat: Seat,
    pub bytes: usize,
}

// What a call answers.
pub type Answer = Result<Accepted, Refusal>;

// What stands at the front of bytes: a record for a seat, and how many bytes it takes, of which those behind the head are the packet; the beginning
// of a record that the bytes end inside; or, where there are no bytes, nothing.
// Three outcomes, each with its own next step for a reader of many records, so an enum of its own says it plainer than an `Option` within a `Result`.
#[derive(Clone, Copy, PartialEq, Eq)]
pub enum RecordRead {
    Record(Seat, usize),
    CutShort,
    None,
}

// The record at the front of bytes, which more may follow.
#[tactic(auto, unfolding(crate::specs::Read::first_record, crate::specs::Read::shown_first, crate::specs::Read::sized, wire::specs::Numbers::number_of, rules::specs::Outcome::record_bytes, wire::specs::Numbers::bytes_of))]
pub fn read(bytes: &[u8]) -> RecordRead
    ensures { result ≡ shown_first (first_record bytes.now) }
{
    match bytes {
        [] => RecordRead::None,
        [seat, high, low, packet @ ..] => {
            let size = usize::from(u16::from_be_bytes([*high, *low]));
            if packet.len() < size {
                return RecordRead::CutShort;
            }
            RecordRead::Record(Seat(*seat), HEAD + size)
        }
        _ => RecordRead::CutShort,
    }
}
