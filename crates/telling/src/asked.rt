// What a packet asks for, as the relay reads it.
use crate::count::Bytes;
use crate::from_client::FromClient;
use packet::relay;
use std::fmt;

#[derive(Clone, Copy)]
pub struct Asked<'a>(pub &'a [u8]);

impl fmt::Display for Asked<'_> {
    fn fmt<W: fmt::Write>(&self, f: &mut fmt::Formatter<W>) -> fmt::Result {
        let packet = self.0;
        match relay::read(packet) {
            Ok(shown) => write!(f, "{}", FromClient { packet, shown }),
            Err(_) => unread(f, packet),
        }
    }
}

// A packet that the relay's reader refuses. The answer says why, unless a ground comes before those of the reader.
fn unread<W: fmt::Write>(f: &mut fmt::Formatter<W>, packet: &[u8]) -> fmt::Result {
    let count = Bytes(packet.len());
    match packet.first() {
        Some(kind) => write!(
            f,
            "a packet that the relay does not take ({count}, kind {kind})"
        ),
        None => write!(f, "a packet that the relay does not take ({count})"),
    }
}
