// A history: document 01, "The record for a client": "The first gets the empty room, each later one the room that the last returned".
ghost use Rattle.std.specs.Prelude.{◌≤◌, length, IfOk};

use crate::call;
use room::Room;
use std::io;
use telling::count::Bytes;
use telling::fault::Fault;

// How many calls were played, and the place behind the last of them.
struct Played {
    calls: usize,
    at: usize,
}

// Plays calls up to the end, or up to what is no stored call: how many there are is not known before.
fn play_all(rt: &HostRuntime, memory: &mut [u8], input: &[u8]) -> io::Result<Played>
    ensures { IfOk result (λ played. played.at ≤ length input.now) }
{
    let mut calls = 0;
    let mut at = 0;
    while let Some((call, size)) = stored::read(&input[at..]) {
        call::play(
            rt,
            memory,
            calls,
            call,
            &input[at + stored::HEAD..at + size],
        )?;
        calls += 1;
        at += size;
    }
    Ok(Played { calls, at })
}

// Plays a history and tells it: of `input` the first `most` bytes, where there are more.
pub(crate) fn replay(rt: &HostRuntime, input: &[u8], most: usize) -> io::Result<()> {
    let mut memory = [0u8; Room::BYTES];
    Room::empty(&mut memory);
    let read = &input[..input.len().min(most)];
    let Played { calls, at } = play_all(rt, &mut memory, read)?;
    print!(rt; "calls played: {calls}")?;
    if at < read.len() {
        println!(rt;
            "; at byte {at} stands no stored call: {}",
            Fault(&read[at..])
        )?;
    } else if read.len() == input.len() {
        println!(rt; ", to the end")?;
    } else {
        println!(rt; "")?;
    }
    if read.len() < input.len() {
        println!(rt; "only the first {} were read", Bytes(read.len()))?;
    }
    Ok(())
}
