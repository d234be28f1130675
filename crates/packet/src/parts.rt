// What stands at a place of the lent packet.
ghost use Rattle.std.specs.Prelude.{◌≡◌, ◌≤◌, length, drop};
ghost use Rattle.key.specs.Keys.{key_of};
ghost use Rattle.packet.specs.Parts.{PartAt, part_behind};

use crate::Part;
use key::Key;

// The bytes at a part of a packet; where it runs past the end none, at the front.
// They are cut out by index: of what `get` gives, only the bytes are known, and here the place in the packet is promised too.
#[tactic(auto, unfolding(crate::specs::Parts::part_of, crate::specs::Parts::start_of))]
pub(crate) fn bytes_at(packet: &[u8], part: Part) -> &[u8]
    ensures { PartAt packet.entry part result }
{
    match part.start.checked_add(part.length) {
        Some(end) if end <= packet.len() => &packet[part.start..end],
        _ => &packet[..0],
    }
}

// The part from a place of a packet to its end.
pub(crate) fn behind(packet: &[u8], start: usize) -> Part
    requires { start ≤ length packet.now }
    ensures { result ≡ part_behind packet.now start }
{
    Part {
        start,
        length: packet.len() - start,
    }
}

// The key that starts at a place of a packet, or the key of zeros where it runs past the end.
pub(crate) fn key_at(packet: &[u8], start: usize) -> Key
    ensures { result.0 ≡ key_of (drop start packet.now) }
{
    Key::read(packet.get(start..).unwrap_or(&[]))
}
