// The two readers of packets. What a kind does not have is set to 0.
ghost use Rattle.packet_laws.specs.FromClient.{relay_read, relay_key};
ghost use Rattle.packet_laws.specs.FromRelay.{client_read, client_key};
ghost use Rattle.banavoge_laws.specs.Answers.{OfBytes};
ghost use Rattle.banavoge_laws.specs.Fields.{places, ReadsFields, ReadsKey};
ghost use Rattle.fields.specs.Fields.{client_fields, relay_fields};

#[unsafe(no_mangle)]
pub extern "C" fn banavoge_relay_read(
    packet: &[u8],
    number: &mut u8,
    ping: &mut u64,
    start: &mut usize,
    length: &mut usize,
) -> i32
    ensures { OfBytes packet.now (ReadsFields client_fields (relay_read packet.now) result (places number.old ping.old start.old length.old) (places number.new ping.new start.new length.new)) }
{
    banavoge::readers::banavoge_relay_read(packet, number, ping, start, length)
}

#[unsafe(no_mangle)]
pub extern "C" fn banavoge_client_read(
    packet: &[u8],
    number: &mut u8,
    ping: &mut u64,
    start: &mut usize,
    length: &mut usize,
) -> i32
    ensures { OfBytes packet.now (ReadsFields relay_fields (client_read packet.now) result (places number.old ping.old start.old length.old) (places number.new ping.new start.new length.new)) }
{
    banavoge::readers::banavoge_client_read(packet, number, ping, start, length)
}

#[unsafe(no_mangle)]
pub extern "C" fn banavoge_relay_key(packet: &[u8], key: &mut [u8; 32]) -> i32
    ensures { ReadsKey client_fields relay_key (relay_read packet.now) result key.old key.new }
{
    banavoge::readers::banavoge_relay_key(packet, key)
}

#[unsafe(no_mangle)]
pub extern "C" fn banavoge_client_key(packet: &[u8], key: &mut [u8; 32]) -> i32
    ensures { ReadsKey relay_fields client_key (client_read packet.now) result key.old key.new }
{
    banavoge::readers::banavoge_client_key(packet, key)
}
