// Nearest lists that live in the host's memory. Document 01's section "The nearest list"; docs/ARCHITECTURE.md draws the memory.
//
// Every call but banavoge_nearest_begin tests all of the list first: 12, then 14. Memory too short gets 14, or 12 where its first byte is no size. A refused
// offer or removal leaves every byte of the memory.
ghost use Rattle.std.specs.Prelude.{◌≡◌};
ghost use Rattle.lent_list_laws.specs.Layout.{list_length};
ghost use Rattle.lent_list_laws.specs.Calls.{Begins, Offers, Removes};
ghost use Rattle.lent_list.specs.Held.{held_at};
ghost use Rattle.banavoge_laws.specs.Answers.{ToldAs};
ghost use Rattle.banavoge_laws.specs.Nodes.{node_given};
ghost use Rattle.banavoge_laws.specs.Nearest.{key_given, done_code, kept_code, held_places, ShowsHeld};

use crate::{answer, nodes};
use key::Key;
use lent_list::memory;

// How many bytes of memory a list takes; longer memory is taken too.
pub fn banavoge_nearest_bytes() -> usize
    ensures { result ≡ list_length }
{
    memory::BYTES
}

// Begins the empty list of a size for a target: 0, or minus 12, or minus 14 for memory too short. A bad size begins the empty list of size 8.
pub fn banavoge_nearest_begin(list: &mut [u8], target: &[u8; 32], size: usize) -> i32
    ensures { ToldAs done_code (Begins (key_given target.now) size list.old list.new) result }
{
    answer::done(lent_list::begin(list, Key(*target), size))
}

// Offers a node: 1 kept, 0 not kept, or minus 12, 14 or 15.
pub fn banavoge_nearest_offer(
    list: &mut [u8],
    family: u8,
    address: &[u8; 16],
    port: u16,
    key: &[u8; 32],
) -> i32
    ensures { ToldAs kept_code (Offers (node_given family address.now port key.now) list.old list.new) result }
{
    answer::kept(lent_list::offer(list, nodes::given(family, address, port, key)))
}

// Takes out the node of a key: 0, or minus 12, 14 or 13.
pub fn banavoge_nearest_remove(list: &mut [u8], key: &[u8; 32]) -> i32
    ensures { ToldAs done_code (Removes (key_given key.now) list.old list.new) result }
{
    answer::done(lent_list::remove(list, Key(*key)))
}

// Shows the node held at an index, nearest first: 1 and the node, 0 where the index is not below the count, or minus 12 or 14.
#[tactic(auto, unfolding(banavoge_laws::specs::Nearest::held_code, banavoge_laws::specs::Nearest::held_after))]
pub fn banavoge_nearest_node(
    list: &[u8],
    index: usize,
    family: &mut u8,
    address: &mut [u8; 16],
    port: &mut u16,
    key: &mut [u8; 32],
) -> i32
    ensures { ShowsHeld (held_at list.now index) result (held_places family.old address.old port.old key.old) (held_places family.new address.new port.new key.new) }
{
    match lent_list::held_at(list, index) {
        Ok(Some(node)) => {
            nodes::tell(node, family, address, port, key);
            1
        }
        Ok(None) => 0,
        Err(why) => answer::refused(why),
    }
}
