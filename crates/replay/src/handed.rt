// What a call hands out: "a run of records in the lent output: seat (1 byte), length (2), the packet".
use crate::who::Client;
use records::{HEAD, RecordRead};
use std::io;
use telling::from_relay::FromRelay;

// Tells each record. What the relay writes is whole records, so no bytes are left over.
pub(crate) fn tell_all(rt: &HostRuntime, memory: &[u8], bytes: &[u8]) -> io::Result<()> {
    let mut rest = bytes;
    while let RecordRead::Record(seat, end) = records::read(rest) {
        // In two prints: one that borrows from the room and from the record has no proof yet.
        print!(rt; "  to {}: ", Client { memory, seat })?;
        println!(rt; "{}", FromRelay(&rest[HEAD..end]))?;
        rest = &rest[end..];
    }
    if !rest.is_empty() {
        println!(rt; "  the output ends inside a record")?;
    }
    Ok(())
}
