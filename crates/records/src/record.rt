// The writers of records, one for each kind of packet that the relay sends. Each writes behind the first `at` bytes and answers where the next record
// goes. Where the packet is not one that a client's reader takes, or its record does not fit, nothing changes and the answer is `at`: a place
// in each case, from which the next writer goes on, and so no `Option`.
ghost use Rattle.packet_laws.specs.FromRelay.{FromRelay, routing_response, connect_notice, disconnect_notice, ping, pong, oob_received, routed_data};
ghost use Rattle.records.specs.Output.{WritesRecord, WritesPacket};

use crate::HEAD;
use key::Key;
use packet::ConnectionNumber;
use refusal::Refusal;
use seat::Seat;

// A record for a seat: `write` writes its packet behind the head. Where no head fits, that is at the end of the output, where no packet fits either.
fn append<F: FnOnce(&mut [u8]) -> Result<usize, Refusal>>(
    out: &mut [u8],
    at: usize,
    seat: Seat,
    write: F,
) -> usize
    requires callable { F.IsAlwaysCallable write }
    requires writer { (p : FromRelay) × WritesPacket F.FnOnce write p }
    ensures { (p : FromRelay) → WritesPacket F.FnOnce write p → WritesRecord seat.0 p out.old at result out.new }
{
    let start = at.saturating_add(HEAD).min(out.len());
    let Ok(size) = write(&mut out[start..]) else {
        return at;
    };
    out[at] = seat.0;
    // A packet was written, so `start` is this end; said so, the compiler knows that the length has two bytes, and writes them without a loop.
    let end = at + HEAD;
    wire::write_number(size as u64, &mut out[at + 1..end]);
    end + size
}

// A connect notification for a seat.
pub fn connected(out: &mut [u8], at: usize, seat: Seat, number: ConnectionNumber) -> usize
    ensures { WritesRecord seat.0 (connect_notice number.0) out.old at result out.new }
{
    append(
        out,
        at,
        seat,
        |rest| packet_write::connect_notification(number, rest),
    )
}

// A disconnect notification for a seat.
pub fn disconnected(out: &mut [u8], at: usize, seat: Seat, number: ConnectionNumber) -> usize
    ensures { WritesRecord seat.0 (disconnect_notice number.0) out.old at result out.new }
{
    append(
        out,
        at,
        seat,
        |rest| packet_write::disconnect_notification(number, rest),
    )
}

// A routing response for a seat: its number, or 0.
pub fn response(out: &mut [u8], at: usize, seat: Seat, number: ConnectionNumber, key: Key) -> usize
    ensures { WritesRecord seat.0 (routing_response number.0 key.0) out.old at result out.new }
{
    append(
        out,
        at,
        seat,
        |rest| packet_write::routing_response(number, key, rest),
    )
}

// A pong for a seat.
pub fn answered(out: &mut [u8], at: usize, seat: Seat, ping: u64) -> usize
    ensures { WritesRecord seat.0 (pong ping) out.old at result out.new }
{
    append(out, at, seat, |rest| packet_write::pong(ping, rest))
}

// A ping for a seat.
pub fn pinged(out: &mut [u8], at: usize, seat: Seat, number: u64) -> usize
    ensures { WritesRecord seat.0 (ping number) out.old at result out.new }
{
    append(out, at, seat, |rest| packet_write::ping(number, rest))
}

// An out-of-band packet for a seat.
pub fn out_of_band(out: &mut [u8], at: usize, seat: Seat, key: Key, data: &[u8]) -> usize
    ensures { WritesRecord seat.0 (oob_received key.0 «data».now) out.old at result out.new }
{
    append(
        out,
        at,
        seat,
        |rest| packet_write::oob_received(key, data, rest),
    )
}

// A data packet for a seat.
pub fn data(out: &mut [u8], at: usize, seat: Seat, number: ConnectionNumber, data: &[u8]) -> usize
    ensures { WritesRecord seat.0 (routed_data number.0 «data».now) out.old at result out.new }
{
    append(out, at, seat, |rest| packet_write::data(number, data, rest))
}
