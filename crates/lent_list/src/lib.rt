// A nearest list that lives in lent bytes: the calls of `nearest` on a list that the host keeps as plain memory between them.
//
// An offer and a removal do what those of `nearest` do, the test of the whole list first, where the list stands: keys are compared in place, and only the
// slots that move are copied. A refused one writes nothing. Where the memory comes from, and how long it lives, stay with the host.
#![tactic(auto)]

ghost use Rattle.std.specs.Prelude.{◌≡◌};
ghost use Rattle.lent_list_laws.specs.Calls.{Begins, Offers, Removes};
ghost use Rattle.lent_list.specs.Held.{held_at};

mod change;
mod layout;
pub mod memory;
mod search;
mod shift;
mod slot;
mod whole;

use key::Key;
use layout::Lent;
use nearest::NearestList;
use node::Node;
use refusal::Refusal;

// Begins a list: 12, 14 for memory too short. A bad size begins the empty list of size 8 for that target.
pub fn begin(memory: &mut [u8], target: Key, size: usize) -> Result<(), Refusal>
    ensures { Begins target size memory.old memory.new result }
{
    let long = memory.len();
    let begun = NearestList::begin(target, size);
    memory::store(begun.list, memory);
    begun.answer?;
    if long < memory::BYTES {
        return Err(Refusal::ListNotWhole);
    }
    Ok(())
}

// Offers a node: 12, 14, 15.
pub fn offer(memory: &mut [u8], node: Node) -> Result<bool, Refusal>
    ensures { Offers node memory.old memory.new result }
{
    whole::check(memory)?;
    if !node::family::known(node.family) {
        return Err(Refusal::UnknownFamily);
    }
    Ok(change::keep(memory, node))
}

// Takes out the node of a key: 12, 14, 13.
pub fn remove(memory: &mut [u8], key: Key) -> Result<(), Refusal>
    ensures { Removes key memory.old memory.new result }
{
    whole::check(memory)?;
    change::take_out(memory, key)
}

// The node held at an index, nearest first: 12, 14.
pub fn held_at(memory: &[u8], index: usize) -> Result<Option<Node>, Refusal>
    ensures { result ≡ held_at memory.now index }
{
    whole::check(memory)?;
    let list = Lent::of(memory);
    if list.count() <= index {
        return Ok(None);
    }
    Ok(Some(slot::read_at(list.slots(), index)))
}
