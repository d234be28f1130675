// The writers of packets: the byte count, or minus the refusal number; on a refusal the output is as before.
ghost use Rattle.banavoge_laws.specs.Answers.{ToldAs, written_code};
ghost use Rattle.packet_write.specs.Written.{ClientWrites, RelayWrites, PingWrites, PongWrites, DataWrites};
ghost use Rattle.packet_laws.specs.FromClient.{routing_request, drop_route, oob_send};
ghost use Rattle.packet_laws.specs.FromRelay.{routing_response, connect_notice, disconnect_notice, oob_received};

#[unsafe(no_mangle)]
pub extern "C" fn banavoge_routing_request(key: &[u8; 32], out: &mut [u8]) -> i32
    ensures { ToldAs written_code (ClientWrites (routing_request key.now) out.old out.new) result }
{
    banavoge::writers::banavoge_routing_request(key, out)
}

#[unsafe(no_mangle)]
pub extern "C" fn banavoge_routing_response(number: u8, key: &[u8; 32], out: &mut [u8]) -> i32
    ensures { ToldAs written_code (RelayWrites (routing_response number key.now) out.old out.new) result }
{
    banavoge::writers::banavoge_routing_response(number, key, out)
}

#[unsafe(no_mangle)]
pub extern "C" fn banavoge_connect_notification(number: u8, out: &mut [u8]) -> i32
    ensures { ToldAs written_code (RelayWrites (connect_notice number) out.old out.new) result }
{
    banavoge::writers::banavoge_connect_notification(number, out)
}

#[unsafe(no_mangle)]
pub extern "C" fn banavoge_disconnect_notification(number: u8, out: &mut [u8]) -> i32
    ensures { ToldAs written_code (RelayWrites (disconnect_notice number) out.old out.new) result }
{
    banavoge::writers::banavoge_disconnect_notification(number, out)
}

#[unsafe(no_mangle)]
pub extern "C" fn banavoge_drop(number: u8, out: &mut [u8]) -> i32
    ensures { ToldAs written_code (ClientWrites (drop_route number) out.old out.new) result }
{
    banavoge::writers::banavoge_drop(number, out)
}

#[unsafe(no_mangle)]
pub extern "C" fn banavoge_ping(n: u64, out: &mut [u8]) -> i32
    ensures { ToldAs written_code (PingWrites n out.old out.new) result }
{
    banavoge::writers::banavoge_ping(n, out)
}

#[unsafe(no_mangle)]
pub extern "C" fn banavoge_pong(n: u64, out: &mut [u8]) -> i32
    ensures { ToldAs written_code (PongWrites n out.old out.new) result }
{
    banavoge::writers::banavoge_pong(n, out)
}

#[unsafe(no_mangle)]
pub extern "C" fn banavoge_oob_send(key: &[u8; 32], data: &[u8], out: &mut [u8]) -> i32
    ensures { ToldAs written_code (ClientWrites (oob_send key.now «data».now) out.old out.new) result }
{
    banavoge::writers::banavoge_oob_send(key, data, out)
}

#[unsafe(no_mangle)]
pub extern "C" fn banavoge_oob_received(key: &[u8; 32], data: &[u8], out: &mut [u8]) -> i32
    ensures { ToldAs written_code (RelayWrites (oob_received key.now «data».now) out.old out.new) result }
{
    banavoge::writers::banavoge_oob_received(key, data, out)
}

#[unsafe(no_mangle)]
pub extern "C" fn banavoge_data(number: u8, data: &[u8], out: &mut [u8]) -> i32
    ensures { ToldAs written_code (DataWrites number «data».now out.old out.new) result }
{
    banavoge::writers::banavoge_data(number, data, out)
}
