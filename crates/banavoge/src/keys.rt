// Keys: equality, and which of two is nearer to a third.
ghost use Rattle.std.specs.Prelude.{◌≡◌};
ghost use Rattle.key.specs.Keys.{same_key, nearer};

use key::{Key, in_place};

// Whether two keys are the same.
pub fn banavoge_same_key(a: &[u8; 32], b: &[u8; 32]) -> bool
    ensures { result ≡ same_key a.now b.now }
{
    Key(*a).equals(Key(*b))
}

// Whether `a` is nearer to the target than `b`.
pub fn banavoge_nearer(target: &[u8; 32], a: &[u8; 32], b: &[u8; 32]) -> bool
    ensures { result ≡ nearer target.now a.now b.now }
{
    in_place::nearer(target, a, b)
}
