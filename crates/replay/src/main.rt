// Replays a history: reads stored calls from a file named as the argument, or from standard input, plays them from the empty room, and tells for each
// who asked what, what was answered, and who was handed which packets.
#![tactic(auto)]

mod call;
mod handed;
mod history;
mod who;

use std::fs::File;
use std::io::Read;
use std::{env, io};

// The most bytes that are read; a stored call has at most 65,539.
const MOST_INPUT: usize = 1048576;

// Reads what is to be replayed, and one byte more where there is one.
fn read_input<F: Read + Drop>(rt: &HostRuntime, from: F) -> io::Result<Vec<u8>> {
    let mut input = Vec::new(rt.alloc());
    from.take(MOST_INPUT as u64 + 1).read_to_end(&mut input)?;
    Ok(input)
}

// Replays what was read, or tells why nothing was.
fn replay_input(rt: &HostRuntime, name: &str, read: io::Result<Vec<u8>>) -> io::Result<()> {
    match read {
        Ok(input) => history::replay(rt, &input, MOST_INPUT),
        Err(why) => eprintln!(rt; "{name}: {why}"),
    }
}

// Reads a file by its name.
fn read_file(rt: &HostRuntime, name: &str) -> io::Result<Vec<u8>> {
    read_input(rt, File::open(rt, name)?)
}

fn main(rt: HostRuntime) -> io::Result<()> {
    let mut words = env::args(&rt)?;
    words.next();
    let Some(name) = words.next() else {
        return replay_input(&rt, "standard input", read_input(&rt, rt.reader()));
    };
    if words.next().is_some() {
        return eprintln!(rt; "replay takes the name of one file");
    }
    let read = read_file(&rt, name.as_str());
    replay_input(&rt, name.as_str(), read)
}
