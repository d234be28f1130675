// K-buckets in the host's memory, for a bootstrap node. Every call but banavoge_buckets_begin tests all buckets first.
ghost use Rattle.std.specs.Prelude.{◌≡◌};
ghost use Rattle.buckets_laws.specs.Layout.{buckets_length};
ghost use Rattle.buckets_laws.specs.Calls.{Begins, Offers, Asks};
ghost use Rattle.banavoge_laws.specs.Answers.{ToldAs};
ghost use Rattle.banavoge_laws.specs.Nodes.{node_given, node_written_code};
ghost use Rattle.banavoge_laws.specs.Nearest.{key_given, done_code, kept_code};

#[unsafe(no_mangle)]
pub extern "C" fn banavoge_buckets_bytes() -> usize
    ensures { result ≡ buckets_length }
{
    banavoge::k_buckets::banavoge_buckets_bytes()
}

#[unsafe(no_mangle)]
pub extern "C" fn banavoge_buckets_begin(buckets: &mut [u8], base: &[u8; 32]) -> i32
    ensures { ToldAs done_code (Begins (key_given base.now) buckets.old buckets.new) result }
{
    banavoge::k_buckets::banavoge_buckets_begin(buckets, base)
}

#[unsafe(no_mangle)]
pub extern "C" fn banavoge_buckets_offer(
    buckets: &mut [u8],
    family: u8,
    address: &[u8; 16],
    port: u16,
    key: &[u8; 32],
) -> i32
    ensures { ToldAs kept_code (Offers (node_given family address.now port key.now) buckets.old buckets.new) result }
{
    banavoge::k_buckets::banavoge_buckets_offer(buckets, family, address, port, key)
}

#[unsafe(no_mangle)]
pub extern "C" fn banavoge_buckets_nearest(buckets: &[u8], target: &[u8; 32], out: &mut [u8]) -> i32
    ensures { ToldAs node_written_code (Asks (key_given target.now) buckets.now out.old out.new) result }
{
    banavoge::k_buckets::banavoge_buckets_nearest(buckets, target, out)
}
