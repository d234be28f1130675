// The calls of the relay on a room in the host's memory. Every call tests the room in full before it uses it.
ghost use Rattle.relay_laws.specs.Calls.{Arrives, Departs, Sends, Ticks};
ghost use Rattle.banavoge_laws.specs.Answers.{ToldAs};
ghost use Rattle.banavoge_laws.specs.RelayCalls.{count_code, told, arrival_told};

#[unsafe(no_mangle)]
pub extern "C" fn banavoge_arrive(
    room: &mut [u8],
    key: &[u8; 32],
    out: &mut [u8],
    seat: &mut u8,
) -> i32
    ensures { ToldAs (arrival_told seat.old) (Arrives 40 32 key.now room.old out.old room.new out.new) (told result seat.new) }
{
    banavoge::relay_calls::banavoge_arrive(room, key, out, seat)
}

#[unsafe(no_mangle)]
pub extern "C" fn banavoge_leave(room: &mut [u8], seat: u8, out: &mut [u8]) -> i32
    ensures { ToldAs count_code (Departs 40 32 seat room.old out.old room.new out.new) result }
{
    banavoge::relay_calls::banavoge_leave(room, seat, out)
}

#[unsafe(no_mangle)]
pub extern "C" fn banavoge_packet(room: &mut [u8], seat: u8, packet: &[u8], out: &mut [u8]) -> i32
    ensures { ToldAs count_code (Sends 40 32 seat packet.now room.old out.old room.new out.new) result }
{
    banavoge::relay_calls::banavoge_packet(room, seat, packet, out)
}

#[unsafe(no_mangle)]
pub extern "C" fn banavoge_tick(room: &mut [u8], time: u64, number: u64, out: &mut [u8]) -> i32
    ensures { ToldAs count_code (Ticks 40 32 time number room.old out.old room.new out.new) result }
{
    banavoge::relay_calls::banavoge_tick(room, time, number, out)
}
