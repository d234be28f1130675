// A list that keeps its rules changed where it stands in lent bytes: a node kept, and one taken out.
ghost use Rattle.std.specs.Prelude.{◌≡◌, true, Ok};
ghost use Rattle.node.specs.Families.{known_family};
ghost use Rattle.nearest.specs.Calls.{offer_answer, offered, removed};
ghost use Rattle.lent_list_laws.specs.Layout.{list_at, stored};
ghost use Rattle.lent_list.specs.Standing.{standing};

use crate::layout::{self, Lent};
use crate::{search, shift, slot};
use key::{Key, in_place};
use node::Node;
use refusal::Refusal;

// Offers a node of known family, and tells whether it is kept. Document 01: "An offered key already held has its node replaced. Else, with room, it is put in.
// Else, if nearer than the furthest, it takes that one's room. Else it is not kept."
pub(crate) fn keep(memory: &mut [u8], node: Node) -> bool
    requires { (standing memory.old ≡ Ok tt) × (known_family node.family ≡ true) }
    ensures result_value { offer_answer result ≡ (offered (list_at memory.old) node).answer }
    ensures memory_after { memory.new ≡ stored (offered (list_at memory.old) node).list memory.old }
{
    let list = Lent::of(memory);
    let size = list.size();
    let count = list.count();
    let place = search::place(list, &node.key.0);
    if place < count {
        let held = slot::key_at(list.slots(), place);
        if in_place::equals(held, &node.key.0) {
            slot::write_at(node, &mut memory[layout::SLOTS..layout::END], place);
            return true;
        }
    }
    if count < size {
        shift::open_at(&mut memory[layout::SLOTS..layout::END], place, count, node);
        memory[layout::COUNT] = (count + 1) as u8;
        return true;
    }
    if place < count {
        shift::open_at(
            &mut memory[layout::SLOTS..layout::END],
            place,
            count - 1,
            node,
        );
        return true;
    }
    false
}

// Takes out the node of a key: 13.
pub(crate) fn take_out(memory: &mut [u8], key: Key) -> Result<(), Refusal>
    requires { standing memory.old ≡ Ok tt }
    ensures answer { result ≡ (removed (list_at memory.old) key).answer }
    ensures memory_after { memory.new ≡ stored (removed (list_at memory.old) key).list memory.old }
{
    let list = Lent::of(memory);
    let count = list.count();
    let index = search::find(list, &key.0).ok_or(Refusal::KeyNotHeld)?;
    shift::close_at(&mut memory[layout::SLOTS..layout::END], index, count - 1);
    memory[layout::COUNT] = (count - 1) as u8;
    Ok(())
}
