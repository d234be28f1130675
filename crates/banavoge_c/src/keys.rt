// Keys: equality, and which of two is nearer to a third.
ghost use Rattle.std.specs.Prelude.{◌≡◌};
ghost use Rattle.key.specs.Keys.{same_key, nearer};

#[unsafe(no_mangle)]
pub extern "C" fn banavoge_same_key(a: &[u8; 32], b: &[u8; 32]) -> bool
    ensures { result ≡ same_key a.now b.now }
{
    banavoge::keys::banavoge_same_key(a, b)
}

#[unsafe(no_mangle)]
pub extern "C" fn banavoge_nearer(target: &[u8; 32], a: &[u8; 32], b: &[u8; 32]) -> bool
    ensures { result ≡ nearer target.now a.now b.now }
{
    banavoge::keys::banavoge_nearer(target, a, b)
}
