// Stored calls: a history as bytes, one call behind the other. Document 01, "Examples": "A stored call is 1 byte for the call (0 arrive, 1 leave, 2
// packet), 1 for the seat (0 where it names none), a 2-byte length and the bytes the call is given; no other form is one."
//
// Whether there is such a seat, and whether the bytes are a packet, is for the relay to judge.
#![tactic(auto)]

ghost use Rattle.std.specs.Prelude.{◌≡◌};
ghost use Rattle.stored.specs.Stored.{first_call, formed, kind_of, shown_first};

use key::Key;
use seat::Seat;

// The bytes before those that the call is given.
pub const HEAD: usize = 4;

// Which call is stored: "1 byte for the call (0 arrive, 1 leave, 2 packet)".
#[derive(Clone, Copy, PartialEq, Eq, Debug)]
pub enum StoredKind {
    Arrive = 0,
    Leave = 1,
    Packet = 2,
}

// A byte that no stored call begins with.
#[derive(Clone, Copy, PartialEq, Eq, Debug)]
pub struct UnknownKind(pub u8);

impl TryFrom<u8> for StoredKind {
    type Error = UnknownKind;

    ghost try_from_gives = { λ code kind. kind ≡ kind_of code };

    fn try_from(code: u8) -> Result<Self, UnknownKind> {
        match code {
            0 => Ok(StoredKind::Arrive),
            1 => Ok(StoredKind::Leave),
            2 => Ok(StoredKind::Packet),
            _ => Err(UnknownKind(code)),
        }
    }
}

// A call. The key of an arrival is the 32 bytes behind the head, and a packet as many as are told.
#[derive(Clone, Copy, PartialEq, Eq, Debug)]
pub enum StoredCall {
    Arrive,
    Leave(Seat),
    Packet(Seat, usize),
}

// The call with these parts, where they are the form of one, and how many bytes it takes.
#[tactic(auto, using(crate::proofs::FormLaws::lengths), unfolding(crate::specs::Stored::shown_first, crate::specs::Stored::shown_call, crate::specs::Stored::formed))]
fn formed(code: u8, seat: Seat, given: &[u8]) -> Option<(StoredCall, usize)>
    ensures { result ≡ shown_first (formed code seat.0 given.now) }
{
    let call = match StoredKind::try_from(code).ok()? {
        StoredKind::Arrive if seat.0 == 0 && given.len() == Key::BYTES => StoredCall::Arrive,
        StoredKind::Leave if given.is_empty() => StoredCall::Leave(seat),
        StoredKind::Packet => StoredCall::Packet(seat, given.len()),
        _ => return None,
    };
    Some((call, HEAD + given.len()))
}

// The stored call at the front of bytes, which more may follow, and how many bytes it takes.
#[tactic(auto, unfolding(crate::specs::Stored::first_call, crate::specs::Stored::headed, crate::specs::Stored::shown_first, wire::specs::Numbers::number_of))]
pub fn read(bytes: &[u8]) -> Option<(StoredCall, usize)>
    ensures { result ≡ shown_first (first_call bytes.now) }
{
    let [code, seat, high, low, rest @ ..] = bytes else {
        return None;
    };
    let size = usize::from(u16::from_be_bytes([*high, *low]));
    formed(*code, Seat(*seat), rest.get(..size)?)
}
