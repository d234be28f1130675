// A key: 32 bytes that name a client or a node, by value.
//
// Here live its equality, the order of two keys by their distance to a third, and its bytes in lent memory. `in_place` compares keys where they stand
// in lent memory. Where keys come from, and the secret half of each, stay with the host.
#![tactic(auto)]

ghost use Rattle.std.specs.Prelude.{◌≡◌, Some, take};
ghost use Rattle.wire.specs.Numbers.{number_of};
ghost use Rattle.key.specs.Keys.{IsKey, same_key, nearer, key_of, with_key};
ghost use Rattle.key.specs.Text.{key_text};

pub mod in_place;

use std::fmt;

#[derive(Clone, Copy, PartialEq, Eq, Debug)]
pub struct Key(pub [u8; 32]);

impl Key {
    // Document 01, "Relay packets": "A key is 32 bytes."
    pub const BYTES: usize = 32;

    // Whether two keys are the same.
    pub fn equals(self, other: Key) -> bool
        ensures { result ≡ same_key self.0 other.0 }
    {
        self == other
    }

    // Whether `a` is nearer to this key than `b`. The first byte in which `a` and `b` differ decides, so no distance is ever made.
    pub fn nearer(self, a: Key, b: Key) -> bool
        ensures { result ≡ nearer self.0 a.0 b.0 }
    {
        in_place::nearer_of_parts(&self.0, &a.0, &b.0)
    }

    // The key that the first 32 bytes are, or the key of zeros where there are fewer.
    pub fn read(bytes: &[u8]) -> Key
        ensures { result.0 ≡ key_of bytes.now }
    {
        Key(*in_place::front(bytes))
    }

    // Writes the key's 32 bytes to the front of `out`, or nothing where it has fewer.
    pub fn write(self, out: &mut [u8])
        ensures { out.new ≡ with_key self.0 out.old }
    {
        if Key::BYTES <= out.len() {
            out[..Key::BYTES].copy_from_slice(&self.0);
        }
    }

    // What is printed of a key: the number of its first eight bytes. It is lent no reference, since of a key behind one no proof learns that it is bytes.
    fn shown(self) -> u64
        ensures number { result ≡ number_of (take 8 self.0) }
        ensures fits { IsKey self.0 }
    {
        wire::read_number(&self.0)
    }
}

// The first eight bytes: enough for a person to tell keys apart.
impl fmt::Display for Key {
    ghost output = { λ key. Some (key_text key.0) };

    fn fmt<W: fmt::Write>(&self, f: &mut fmt::Formatter<W>) -> fmt::Result {
        let front = self.shown();
        write!(f, "key {front:016x}..")
    }
}
