// K-buckets that live in the host's memory, for a bootstrap node. Document 02's request 05; docs/ARCHITECTURE.md draws the memory.
//
// Every call but banavoge_buckets_begin tests all buckets first: 20, also where the memory is too short. An offer that is refused or
// not kept leaves every byte of the memory.
ghost use Rattle.std.specs.Prelude.{◌≡◌};
ghost use Rattle.buckets_laws.specs.Layout.{buckets_length};
ghost use Rattle.buckets_laws.specs.Calls.{Begins, Offers, Asks};
ghost use Rattle.banavoge_laws.specs.Answers.{ToldAs};
ghost use Rattle.banavoge_laws.specs.Nodes.{node_given, node_written_code};
ghost use Rattle.banavoge_laws.specs.Nearest.{key_given, done_code, kept_code};

use crate::{answer, nodes};
use key::Key;

// How many bytes of memory buckets take; longer memory is taken too.
pub fn banavoge_buckets_bytes() -> usize
    ensures { result ≡ buckets_length }
{
    buckets::BYTES
}

// Begins buckets that hold nothing, for a base key: 0, or minus 10 for memory too short.
pub fn banavoge_buckets_begin(buckets: &mut [u8], base: &[u8; 32]) -> i32
    ensures { ToldAs done_code (Begins (key_given base.now) buckets.old buckets.new) result }
{
    answer::done(buckets::begin(buckets, Key(*base)))
}

// Offers a node: 1 kept, 0 not kept, or minus 20 or 15.
pub fn banavoge_buckets_offer(
    buckets: &mut [u8],
    family: u8,
    address: &[u8; 16],
    port: u16,
    key: &[u8; 32],
) -> i32
    ensures { ToldAs kept_code (Offers (node_given family address.now port key.now) buckets.old buckets.new) result }
{
    answer::kept(buckets::offer(buckets, nodes::given(family, address, port, key)))
}

// Writes the nodes nearest to a target, nearest first, as a node list: the byte count, or minus 20 or 10.
#[tactic(auto, unfolding(banavoge_laws::specs::Nodes::node_written_code))]
pub fn banavoge_buckets_nearest(buckets: &[u8], target: &[u8; 32], out: &mut [u8]) -> i32
    ensures { ToldAs node_written_code (Asks (key_given target.now) buckets.now out.old out.new) result }
{
    answer::written(buckets::nearest(buckets, Key(*target), out))
}
