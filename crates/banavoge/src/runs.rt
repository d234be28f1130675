// A run of stored calls on a room in the host's memory: the room is tested once, and the calls are played one after the other.
ghost use Rattle.std.specs.Prelude.{◌≡◌, pos};
ghost use Rattle.relay.specs.Play.{Plays};
ghost use Rattle.banavoge_laws.specs.Answers.{ToldAs};
ghost use Rattle.banavoge_laws.specs.Runs.{stop_number, counts, telling, run_told};

use crate::answer;
use relay::play;
use relay::play::Stop;

// Why a run stopped, as a number.
#[tactic(auto, unfolding(banavoge_laws::specs::Runs::stop_number))]
fn stop_code(why: Stop) -> i32
    ensures { result ≡ pos (stop_number why) }
{
    why as i32
}

// Plays stored calls, at most `allowance` of them: 0 at their end, 1 where none stands, 2 at the allowance, 3 with too little output left; or minus 11.
#[tactic(auto, unfolding(banavoge_laws::specs::Runs::run_told, banavoge_laws::specs::Runs::run_code, banavoge_laws::specs::Runs::run_counts))]
pub fn banavoge_play(
    room: &mut [u8],
    calls: &[u8],
    allowance: usize,
    out: &mut [u8],
    played: &mut usize,
    read: &mut usize,
    written: &mut usize,
) -> i32
    ensures { ToldAs (run_told (counts played.old read.old written.old)) (Plays 40 32 allowance calls.now room.old out.old room.new out.new) (telling result played.new read.new written.new) }
{
    match play::play(room, calls, allowance, out) {
        Ok(run) => {
            *played = run.played;
            *read = run.read;
            *written = run.written;
            stop_code(run.why)
        }
        Err(why) => answer::refused(why),
    }
}
