// The two readers. What a kind does not have is set to 0.
ghost use Rattle.std.specs.Prelude.{◌≡◌, pos, MatchResult};
ghost use Rattle.packet_laws.specs.FromClient.{relay_read, relay_key};
ghost use Rattle.packet_laws.specs.FromRelay.{client_read, client_key};
ghost use Rattle.banavoge_laws.specs.Answers.{refusal_code, OfBytes};
ghost use Rattle.banavoge_laws.specs.Fields.{places, places_of, ReadsFields, ReadsKey};
ghost use Rattle.fields.specs.Fields.{client_fields, relay_fields};

use crate::answer;
use fields::Fields;
use key::Key;
use packet::{client, relay as relay_end};
use refusal::Refusal;

// Hands the fields of what was read to the host's places and answers the kind, or minus the refusal's number.
fn tell(
    read: Result<Fields, Refusal>,
    number: &mut u8,
    ping: &mut u64,
    start: &mut usize,
    length: &mut usize,
) -> i32
    ensures { MatchResult read (λ fields. (result ≡ pos fields.kind) × (places number.new ping.new start.new length.new ≡ places_of fields)) (λ why. (result ≡ refusal_code why) × (places number.new ping.new start.new length.new ≡ places number.old ping.old start.old length.old)) }
{
    match read {
        Ok(fields) => {
            *number = fields.number;
            *ping = fields.ping;
            *start = fields.start;
            *length = fields.length;
            i32::from(fields.kind)
        }
        Err(why) => answer::refused(why),
    }
}

// The relay's reader: the kind of a packet from a client, or minus 4, 5, 6 or 7.
pub fn banavoge_relay_read(
    packet: &[u8],
    number: &mut u8,
    ping: &mut u64,
    start: &mut usize,
    length: &mut usize,
) -> i32
    ensures { OfBytes packet.now (ReadsFields client_fields (relay_read packet.now) result (places number.old ping.old start.old length.old) (places number.new ping.new start.new length.new)) }
{
    let read = relay_end::read(packet).map(fields::of_client);
    tell(read, number, ping, start, length)
}

// The client's reader: the kind of a packet from the relay, or minus 4, 5, 6, 7 or 8.
pub fn banavoge_client_read(
    packet: &[u8],
    number: &mut u8,
    ping: &mut u64,
    start: &mut usize,
    length: &mut usize,
) -> i32
    ensures { OfBytes packet.now (ReadsFields relay_fields (client_read packet.now) result (places number.old ping.old start.old length.old) (places number.new ping.new start.new length.new)) }
{
    let read = client::read(packet).map(fields::of_relay);
    tell(read, number, ping, start, length)
}

// Hands a key to the host's 32 bytes and answers the kind. Each end's reader is taken apart below, where its key is found: one `map` for both would need a
// closure over the packet with a contract of its own, longer than the two arms.
fn tell_key(found: Key, fields: Fields, key: &mut [u8; 32]) -> i32
    ensures value { result ≡ pos fields.kind }
    ensures key_after { key.new ≡ found.0 }
{
    let Key(bytes) = found;
    *key = bytes;
    i32::from(fields.kind)
}

// The key of a routing request or an out-of-band send, and the answer of `banavoge_relay_read`; zeros where a packet has no key.
pub fn banavoge_relay_key(packet: &[u8], key: &mut [u8; 32]) -> i32
    ensures { ReadsKey client_fields relay_key (relay_read packet.now) result key.old key.new }
{
    match relay_end::read(packet) {
        Ok(shown) => tell_key(relay_end::key(packet, shown), fields::of_client(shown), key),
        Err(why) => answer::refused(why),
    }
}

// The key of a routing response or an out-of-band packet, and the answer of `banavoge_client_read`; zeros where a packet has no key.
pub fn banavoge_client_key(packet: &[u8], key: &mut [u8; 32]) -> i32
    ensures { ReadsKey relay_fields client_key (client_read packet.now) result key.old key.new }
{
    match client::read(packet) {
        Ok(shown) => tell_key(client::key(packet, shown), fields::of_relay(shown), key),
        Err(why) => answer::refused(why),
    }
}
