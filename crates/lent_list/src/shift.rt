// Slots of a list in lent bytes moved where they stand: one put between them, and one taken from between them. `nearest` rotates nodes;
// here bytes move, and one slot is written in the layout of a list.
ghost use Rattle.std.specs.Prelude.{◌≡◌, ◌∷◌, ◌++◌, ◌+◌, ◌<◌, ◌≤◌, length, take, drop};
ghost use Rattle.lists.specs.Insert.{insert_at, remove_at};
ghost use Rattle.node.specs.Values.{blank_node};
ghost use Rattle.lent_list_laws.specs.Layout.{slots_length, slot_number, slots_at, slots_bytes};

use crate::{layout, slot};
use node::Node;

// The node put at `place`, and those from there to before `last` moved back by one; what stood at `last` is gone.
pub(crate) fn open_at(slots: &mut [u8], place: usize, last: usize, node: Node)
    requires { (length slots.old ≡ slots_length) × (place ≤ last) × (last < slot_number) }
    ensures { slots.new ≡ slots_bytes (take (last + 1) (insert_at place node (slots_at slot_number slots.old)) ++ drop (last + 1) (slots_at slot_number slots.old)) }
{
    let start = place * layout::SLOT_END;
    let end = last * layout::SLOT_END;
    slots.copy_within(start..end, start + layout::SLOT_END);
    slot::write_at(node, slots, place);
}

// The node at `place` taken out, those after it up to `last` moved forward by one, and the slot at `last` blank.
pub(crate) fn close_at(slots: &mut [u8], place: usize, last: usize)
    requires { (length slots.old ≡ slots_length) × (place ≤ last) × (last < slot_number) }
    ensures { slots.new ≡ slots_bytes (take last (remove_at place (slots_at slot_number slots.old)) ++ (blank_node ∷ drop (last + 1) (slots_at slot_number slots.old))) }
{
    let start = place * layout::SLOT_END;
    let end = last * layout::SLOT_END;
    slots.copy_within(start + layout::SLOT_END..end + layout::SLOT_END, start);
    slot::write_at(Node::blank(), slots, last);
}
