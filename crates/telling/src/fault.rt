// What is wrong with bytes at whose front no stored call stands: "1 byte for the call (0 arrive, 1 leave, 2 packet), 1 for the seat (0 where it names
// none), a 2-byte length and the bytes the call is given; no other form is one."
use crate::count::Bytes;
use key::Key;
use seat::Seat;
use std::fmt;
use stored::{StoredKind, UnknownKind};

#[derive(Clone, Copy)]
pub struct Fault<'a>(pub &'a [u8]);

impl fmt::Display for Fault<'_> {
    fn fmt<W: fmt::Write>(&self, f: &mut fmt::Formatter<W>) -> fmt::Result {
        let [code, seat, high, low, ..] = self.0 else {
            return f.write_str("what was read ends inside a head");
        };
        let seat = Seat(*seat);
        let size = usize::from(u16::from_be_bytes([*high, *low]));
        let given = Bytes(size);
        match StoredKind::try_from(*code) {
            Ok(StoredKind::Arrive) if seat.0 != 0 => write!(f, "an arrival that names {seat}"),
            Ok(StoredKind::Arrive) if size != Key::BYTES => {
                write!(f, "an arrival with {given}, which are no key")
            }
            Ok(StoredKind::Leave) => write!(f, "a leave with {given}"),
            // The form is right, so the bytes that the call is given are cut short: by the end of the input, or of what the program reads of it.
            Ok(_) => write!(
                f,
                "what was read ends inside the {given} that the call is given"
            ),
            Err(UnknownKind(call)) => write!(f, "no call has the byte {call}"),
        }
    }
}
