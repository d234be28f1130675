// Stored calls, played one after the other. The room is tested once: each step leaves a whole room for the next.
ghost use Rattle.std.specs.Prelude.{◌≡◌, true};
ghost use Rattle.room_laws.specs.Whole.{room_whole};
ghost use Rattle.relay_laws.specs.Calls.{answer_of};
ghost use Rattle.relay.specs.Steps.{Ready};
ghost use Rattle.relay.specs.Play.{Plays};
ghost use Rattle.relay.specs.PlaySteps.{Reads, Makes, Takes, RunsOn};

use crate::{arrive, calls, leave, packet_call};
use key::Key;
use records::{Answer, entry};
use refusal::Refusal;
use room::{Room, Sizes, whole};
use stored::StoredCall;

// Output for the head of a call and for what any call may write.
const LEAST_SPACE: usize = entry::HEAD + calls::LEAST_OUTPUT;

// Where the key of a stored arrival ends.
const KEY_END: usize = stored::HEAD + Key::BYTES;

// Why a run of stored calls stopped.
#[derive(Clone, Copy, PartialEq, Eq, Debug)]
pub enum Stop {
    // Every call was played.
    End = 0,
    // What comes next is no stored call.
    NoCall = 1,
    // As many calls as allowed were played.
    Allowance = 2,
    // The output left is too short for another call.
    Output = 3,
}

// A stored call that was played: how many bytes of the stored calls it took, and how many of the output.
#[derive(Clone, Copy)]
struct Played {
    read: usize,
    written: usize,
}

// What a run came to: why it stopped, how many calls were played, how many bytes of the stored calls they took, and how many were written.
#[derive(Clone, Copy, PartialEq, Eq, Debug)]
pub struct Run {
    pub why: Stop,
    pub played: usize,
    pub read: usize,
    pub written: usize,
}

// The call at the front of the stored ones is made on a whole room.
fn make(memory: &mut [u8], sizes: Sizes, call: StoredCall, calls: &[u8], out: &mut [u8]) -> Answer
    requires { Ready sizes memory.old out.old × Reads calls.now call }
    ensures { Makes sizes.seats sizes.numbers calls.now memory.old out.old (answer_of result) memory.new out.new }
{
    match call {
        StoredCall::Arrive => {
            let key = Key::read(&calls[stored::HEAD..KEY_END]);
            arrive::step(memory, sizes, key, out)
        }
        StoredCall::Leave(seat) => leave::step(memory, sizes, seat, out),
        StoredCall::Packet(seat, size) => {
            let end = stored::HEAD + size;
            packet_call::step(memory, sizes, seat, &calls[stored::HEAD..end], out)
        }
    }
}

// The next stored call is played, unless there is a ground to stop.
fn play_next(
    memory: &mut [u8],
    sizes: Sizes,
    calls: &[u8],
    allowance: usize,
    out: &mut [u8],
) -> Result<Played, Stop>
    requires { room_whole sizes.seats sizes.numbers memory.old ≡ true }
    ensures { Takes sizes.seats sizes.numbers allowance calls.now memory.old out.old result memory.new out.new }
{
    if calls.is_empty() {
        return Err(Stop::End);
    }
    if allowance == 0 {
        return Err(Stop::Allowance);
    }
    let (call, read) = stored::read(calls).ok_or(Stop::NoCall)?;
    if out.len() < LEAST_SPACE {
        return Err(Stop::Output);
    }
    let answer = make(memory, sizes, call, calls, &mut out[entry::HEAD..]);
    let written = entry::write(answer, out);
    Ok(Played { read, written })
}

// Call after call, on a whole room.
fn play_all(memory: &mut [u8], sizes: Sizes, calls: &[u8], allowance: usize, out: &mut [u8]) -> Run
    requires { room_whole sizes.seats sizes.numbers memory.old ≡ true }
    ensures { RunsOn sizes.seats sizes.numbers allowance calls.now memory.old out.old result memory.new out.new }
{
    let mut played = 0;
    let mut read = 0;
    let mut written = 0;
    // A `loop`: it ends only by a stop, and how many calls there are is not known before.
    loop {
        let left = allowance - played;
        match play_next(memory, sizes, &calls[read..], left, &mut out[written..]) {
            Ok(call) => {
                played += 1;
                read += call.read;
                written += call.written;
            }
            Err(why) => {
                return Run {
                    why,
                    played,
                    read,
                    written,
                };
            }
        }
    }
}

// Plays the stored calls, at most `allowance` of them: 11.
pub fn play(
    memory: &mut [u8],
    calls: &[u8],
    allowance: usize,
    out: &mut [u8],
) -> Result<Run, Refusal>
    ensures { Plays 40 32 allowance calls.now memory.old out.old memory.new out.new result }
{
    if !whole::is_whole(memory, Room::SIZES) {
        return Err(Refusal::RoomNotWhole);
    }
    Ok(play_all(memory, Room::SIZES, calls, allowance, out))
}
