// A run of stored calls on a room in the host's memory.
ghost use Rattle.relay.specs.Play.{Plays};
ghost use Rattle.banavoge_laws.specs.Answers.{ToldAs};
ghost use Rattle.banavoge_laws.specs.Runs.{counts, telling, run_told};

#[unsafe(no_mangle)]
pub extern "C" fn banavoge_play(
    room: &mut [u8],
    calls: &[u8],
    allowance: usize,
    out: &mut [u8],
    played: &mut usize,
    read: &mut usize,
    written: &mut usize,
) -> i32
    ensures { ToldAs (run_told (counts played.old read.old written.old)) (Plays 40 32 allowance calls.now room.old out.old room.new out.new) (telling result played.new read.new written.new) }
{
    banavoge::runs::banavoge_play(room, calls, allowance, out, played, read, written)
}
