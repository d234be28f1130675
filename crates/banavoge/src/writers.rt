// The writers: the byte count, or minus the refusal number; on a refusal the output is as before.
ghost use Rattle.banavoge_laws.specs.Answers.{ToldAs, written_code};
ghost use Rattle.packet_write.specs.Written.{ClientWrites, RelayWrites, PingWrites, PongWrites, DataWrites};
ghost use Rattle.packet_laws.specs.FromClient.{routing_request, drop_route, oob_send};
ghost use Rattle.packet_laws.specs.FromRelay.{routing_response, connect_notice, disconnect_notice, oob_received};

use crate::answer;
use key::Key;
use packet::ConnectionNumber;

// The client's routing request: minus 10.
pub fn banavoge_routing_request(key: &[u8; 32], out: &mut [u8]) -> i32
    ensures { ToldAs written_code (ClientWrites (routing_request key.now) out.old out.new) result }
{
    answer::written(packet_write::routing_request(Key(*key), out))
}

// The relay's routing response, with the number given or 0: minus 8 or 10.
pub fn banavoge_routing_response(number: u8, key: &[u8; 32], out: &mut [u8]) -> i32
    ensures { ToldAs written_code (RelayWrites (routing_response number key.now) out.old out.new) result }
{
    answer::written(packet_write::routing_response(ConnectionNumber(number), Key(*key), out))
}

// The relay's connect notification: minus 8 or 10.
pub fn banavoge_connect_notification(number: u8, out: &mut [u8]) -> i32
    ensures { ToldAs written_code (RelayWrites (connect_notice number) out.old out.new) result }
{
    answer::written(packet_write::connect_notification(ConnectionNumber(number), out))
}

// The relay's disconnect notification: minus 8 or 10.
pub fn banavoge_disconnect_notification(number: u8, out: &mut [u8]) -> i32
    ensures { ToldAs written_code (RelayWrites (disconnect_notice number) out.old out.new) result }
{
    answer::written(packet_write::disconnect_notification(ConnectionNumber(number), out))
}

// The client's drop: minus 10.
pub fn banavoge_drop(number: u8, out: &mut [u8]) -> i32
    ensures { ToldAs written_code (ClientWrites (drop_route number) out.old out.new) result }
{
    answer::written(packet_write::drop_route(ConnectionNumber(number), out))
}

// Either end's ping: minus 7 or 10.
pub fn banavoge_ping(n: u64, out: &mut [u8]) -> i32
    ensures { ToldAs written_code (PingWrites n out.old out.new) result }
{
    answer::written(packet_write::ping(n, out))
}

// Either end's pong: minus 7 or 10.
pub fn banavoge_pong(n: u64, out: &mut [u8]) -> i32
    ensures { ToldAs written_code (PongWrites n out.old out.new) result }
{
    answer::written(packet_write::pong(n, out))
}

// The client's out-of-band send: minus 4, 6 or 10.
pub fn banavoge_oob_send(key: &[u8; 32], data: &[u8], out: &mut [u8]) -> i32
    ensures { ToldAs written_code (ClientWrites (oob_send key.now «data».now) out.old out.new) result }
{
    answer::written(packet_write::oob_send(Key(*key), data, out))
}

// The relay's out-of-band packet: minus 4, 6 or 10.
pub fn banavoge_oob_received(key: &[u8; 32], data: &[u8], out: &mut [u8]) -> i32
    ensures { ToldAs written_code (RelayWrites (oob_received key.now «data».now) out.old out.new) result }
{
    answer::written(packet_write::oob_received(Key(*key), data, out))
}

// Either end's data: minus 4, 5, 6 or 10.
pub fn banavoge_data(number: u8, data: &[u8], out: &mut [u8]) -> i32
    ensures { ToldAs written_code (DataWrites number «data».now out.old out.new) result }
{
    answer::written(packet_write::data(ConnectionNumber(number), data, out))
}
