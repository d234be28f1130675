// Numbers in lent bytes, big-endian: the highest byte stands first (document 01, "What the library covers": "All numbers are big-endian").
//
// Ping numbers (8 bytes), ports and lengths (2 bytes) and the distance of two keys (32 bytes) are all read by one definition, `number_of`.
#![tactic(auto)]

ghost use Rattle.std.specs.Prelude.{◌≡◌, length, take};
ghost use Rattle.wire.specs.Numbers.{number_of, bytes_of};

// As many bytes as a 64-bit number has.
const WORD: usize = 8;

// The number that the first 8 bytes make, or all of them where there are fewer.
pub fn read_number(bytes: &[u8]) -> u64
    ensures { result ≡ number_of (take 8 bytes.now) }
{
    let mut number = 0;
    for &byte in bytes.iter().take(WORD) {
        number = number * 256 + u64::from(byte);
    }
    number
}

// Writes a number into all of `out`: its lowest byte last, and 0 before its highest. An output too short for the number gets its lowest bytes.
pub fn write_number(number: u64, out: &mut [u8])
    ensures { out.new ≡ bytes_of (length out.old) number }
{
    let mut left = number;
    // By index: of bytes that an iterator lent from the back nothing is known after the loop.
    for i in (0..out.len()).rev() {
        out[i] = (left % 256) as u8;
        left /= 256;
    }
}
