// The public calls: each tests the lent output and the lent room in full, and then takes the step. Document 01's sizes, 40 seats and 32 numbers,
// which `Room` names, are put in here and in `play`; the steps have them as a parameter.
ghost use Rattle.std.specs.Prelude.{◌≡◌};
ghost use Rattle.relay_laws.specs.Calls.{answer_of, Arrives, Departs, Sends, Ticks};
ghost use Rattle.relay.specs.Steps.{ready_for};

use crate::{arrive, leave, packet_call, tick};
use key::Key;
use records::Answer;
use refusal::Refusal;
use room::{Room, whole};
use seat::Seat;

// "lent output too short: under 2,048 for packet and leave"; document 02: "arrival checks 10 (2,048)".
pub const LEAST_OUTPUT: usize = 2048;

// Document 02: "10 (tick output under 5,120)".
pub const LEAST_TICK_OUTPUT: usize = 5120;

// What is tested before any step: 10 for an output of fewer than `least` bytes, and then 11.
#[tactic(auto, unfolding(crate::specs::Steps::ready_for))]
fn ready(memory: &[u8], out: &[u8], least: usize) -> Result<(), Refusal>
    ensures { result ≡ ready_for least memory.now out.now }
{
    if out.len() < least {
        return Err(Refusal::OutputTooShort);
    }
    if !whole::is_whole(memory, Room::SIZES) {
        return Err(Refusal::RoomNotWhole);
    }
    Ok(())
}

// A key arrives; one that is seated leaves first: 10, 11, 1.
pub fn arrive(memory: &mut [u8], key: Key, out: &mut [u8]) -> Answer
    ensures { Arrives 40 32 key.0 memory.old out.old memory.new out.new (answer_of result) }
{
    ready(memory, out, LEAST_OUTPUT)?;
    arrive::step(memory, Room::SIZES, key, out)
}

// The client in a seat leaves: 10, 11, 3.
pub fn leave(memory: &mut [u8], seat: Seat, out: &mut [u8]) -> Answer
    ensures { Departs 40 32 seat.0 memory.old out.old memory.new out.new (answer_of result) }
{
    ready(memory, out, LEAST_OUTPUT)?;
    leave::step(memory, Room::SIZES, seat, out)
}

// The client in a seat sends a packet: 10, 11, 3, 4, 5, 6, 7, 8, 9.
pub fn packet(memory: &mut [u8], seat: Seat, packet: &[u8], out: &mut [u8]) -> Answer
    ensures { Sends 40 32 seat.0 packet.now memory.old out.old memory.new out.new (answer_of result) }
{
    ready(memory, out, LEAST_OUTPUT)?;
    packet_call::step(memory, Room::SIZES, seat, packet, out)
}

// The clock moves on, with a number for those who are pinged: 10, 11, 7, 19. The answer has seat 0.
pub fn tick(memory: &mut [u8], time: u64, number: u64, out: &mut [u8]) -> Answer
    ensures { Ticks 40 32 time number memory.old out.old memory.new out.new (answer_of result) }
{
    ready(memory, out, LEAST_TICK_OUTPUT)?;
    tick::step(memory, Room::SIZES, time, number, out)
}
