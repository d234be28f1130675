// One call, played with the relay's single calls: who asks what, what is answered, and who is handed what.
ghost use Rattle.std.specs.Prelude.{◌≤◌, length};
ghost use Rattle.relay_laws.specs.Calls.{answer_of, written};

use crate::handed;
use crate::who::Client;
use key::Key;
use records::{Accepted, Answer};
use relay::calls;
use seat::Seat;
use std::io;
use stored::StoredCall;
use telling::asked::Asked;
use telling::count::Bytes;
use telling::refused::Refused;

// The answer to a leave or a packet: the count of bytes written, and the records that they are. Whom these name is looked up in the room after the call: only
// clients that are seated then are sent anything.
fn tell_answer(rt: &HostRuntime, memory: &[u8], answer: Answer, out: &[u8]) -> io::Result<()>
    requires { written (answer_of answer) ≤ length out.now }
{
    match answer {
        Ok(Accepted { bytes, .. }) => {
            println!(rt; "  accepted: {}", Bytes(bytes))?;
            handed::tell_all(rt, memory, &out[..bytes])
        }
        Err(why) => println!(rt; "  {}", Refused(why)),
    }
}

// "Arrive now has output and answers its byte count too.": the seat, and then as of every call.
fn arrive(rt: &HostRuntime, memory: &mut [u8], key: Key) -> io::Result<()> {
    println!(rt; "{key}: arrives")?;
    let mut out = [0u8; calls::LEAST_OUTPUT];
    match calls::arrive(memory, key, &mut out) {
        Ok(Accepted { seat, bytes }) => {
            println!(rt; "  accepted: {seat}, {}", Bytes(bytes))?;
            handed::tell_all(rt, memory, &out[..bytes])
        }
        Err(why) => println!(rt; "  {}", Refused(why)),
    }
}

fn leave(rt: &HostRuntime, memory: &mut [u8], seat: Seat) -> io::Result<()> {
    println!(rt; "{}: leaves", Client { memory, seat })?;
    let mut out = [0u8; calls::LEAST_OUTPUT];
    let answer = calls::leave(memory, seat, &mut out);
    tell_answer(rt, memory, answer, &out)
}

fn packet(rt: &HostRuntime, memory: &mut [u8], seat: Seat, packet: &[u8]) -> io::Result<()> {
    // In two prints: one that borrows from the room and from the packet has no proof yet.
    print!(rt; "{}: ", Client { memory, seat })?;
    println!(rt; "{}", Asked(packet))?;
    let mut out = [0u8; calls::LEAST_OUTPUT];
    let answer = calls::packet(memory, seat, packet, &mut out);
    tell_answer(rt, memory, answer, &out)
}

// Plays a stored call; `given` are the bytes that it is given. Calls are numbered from 0, so a call's number is how many were played before it.
pub(crate) fn play(
    rt: &HostRuntime,
    memory: &mut [u8],
    number: usize,
    call: StoredCall,
    given: &[u8],
) -> io::Result<()> {
    print!(rt; "call {number}, ")?;
    match call {
        StoredCall::Arrive => arrive(rt, memory, Key::read(given)),
        StoredCall::Leave(seat) => leave(rt, memory, seat),
        StoredCall::Packet(seat, _) => packet(rt, memory, seat, given),
    }
}
