// Keys where they stand in lent bytes: how many leading bits two of them share, whether they are the same, and which of two is nearer to a third.
//
// A key is the first 32 bytes, or the key of zeros where there are fewer, as for `Key::read`, so every function answers for any bytes. The keys are
// compared where they stand, and none is copied.
ghost use Rattle.std.specs.Prelude.{◌≡◌, ◌≢◌, ℕ, ◌<◌, length, get_or, MatchOption};
ghost use Rattle.key.specs.Keys.{same_key, nearer, key_of};
ghost use Rattle.key.specs.Bits.{shared_bits};

use crate::Key;

// The key at the front of some bytes.
pub(crate) fn front(bytes: &[u8]) -> &[u8; Key::BYTES]
    ensures { result.now ≡ key_of bytes.now }
{
    bytes.first_chunk().unwrap_or(&[0; Key::BYTES])
}

// The first byte in which two keys differ.
#[inline(always)]
fn first_difference(a: &[u8; Key::BYTES], b: &[u8; Key::BYTES]) -> Option<usize>
    ensures { MatchOption result (a.now ≡ b.now) (λ i. (i < 32) × ((j : ℕ) → j < i → get_or a.now j 0 ≡ get_or b.now j 0) × (get_or a.now i 0 ≢ get_or b.now i 0)) }
{
    a.iter().zip(b).position(|(x, y)| x != y)
}

// How many leading bits two keys share, 256 where they are the same. Document 02: "A key's bucket is the number of leading bits it shares with the
// base key." Document 01: "leading zeros of the first nonzero XOR byte, added to eight per equal byte, give the bucket."
pub fn shared_bits(a: &[u8], b: &[u8]) -> usize
    ensures { result ≡ shared_bits (key_of a.now) (key_of b.now) }
{
    let a = front(a);
    let b = front(b);
    match first_difference(a, b) {
        Some(i) => 8 * i + (a[i] ^ b[i]).leading_zeros() as usize,
        None => 8 * Key::BYTES,
    }
}

// Whether two keys are the same.
pub fn equals(a: &[u8], b: &[u8]) -> bool
    ensures { result ≡ same_key (key_of a.now) (key_of b.now) }
{
    front(a) == front(b)
}

// Whether `a` is nearer to the target than `b`. It and what it calls are inlined into every caller, which so needs no stack for a call: a search through
// many keys calls it in its inner loop.
#[inline(always)]
pub fn nearer(target: &[u8], a: &[u8], b: &[u8]) -> bool
    ensures { result ≡ nearer (key_of target.now) (key_of a.now) (key_of b.now) }
{
    nearer_of_parts(front(target), front(a), front(b))
}

// The first byte in which `a` and `b` differ decides, so no distance is made, and nothing behind that byte is read. Of the target that byte alone is read:
// its XORs with two bytes differ just where the bytes do.
#[inline(always)]
pub(crate) fn nearer_of_parts(
    target: &[u8; Key::BYTES],
    a: &[u8; Key::BYTES],
    b: &[u8; Key::BYTES],
) -> bool
    ensures { result ≡ nearer target.now a.now b.now }
{
    match first_difference(a, b) {
        Some(i) => target[i] ^ a[i] < target[i] ^ b[i],
        None => false,
    }
}
