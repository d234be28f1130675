// The slots of a list in lent bytes: one by itself, one by its index, and all 16.
ghost use Rattle.std.specs.Prelude.{◌≡◌, ◌++◌, ◌+◌, ◌*◌, ◌<◌, ◌≤◌, length, take, drop};
ghost use Rattle.lent_list_laws.specs.Layout.{key_place, slot_length, slots_length, slot_number, slot_at, slots_at, slot_bytes, slots_bytes};

use crate::layout;
use key::Key;
use node::Node;
use std::array;

// The key in a slot.
pub(crate) fn key_at(slots: &[u8], index: usize) -> &[u8]
    requires { index * slot_length + slot_length ≤ length slots.now }
    ensures { result.now ≡ take 32 (drop (index * slot_length + key_place) slots.now) }
{
    let at = index * layout::SLOT_END + layout::KEY;
    let end = at + Key::BYTES;
    &slots[at..end]
}

// The node that stands in a slot.
fn read(bytes: &[u8]) -> Node
    requires { length bytes.now ≡ slot_length }
    ensures { result ≡ slot_at bytes.now }
{
    let mut address = [0; 16];
    address.copy_from_slice(&bytes[layout::ADDRESS..layout::PORT]);
    Node {
        family: bytes[layout::FAMILY],
        address,
        port: u16::from_be_bytes([bytes[layout::PORT], bytes[layout::PORT + 1]]),
        key: Key::read(&bytes[layout::KEY..layout::SLOT_END]),
    }
}

// Fills a slot.
fn write(node: Node, out: &mut [u8])
    requires { length out.old ≡ slot_length }
    ensures { out.new ≡ slot_bytes node }
{
    out[layout::FAMILY] = node.family;
    out[layout::ADDRESS..layout::PORT].copy_from_slice(&node.address);
    out[layout::PORT..layout::KEY].copy_from_slice(&node.port.to_be_bytes());
    out[layout::KEY..].copy_from_slice(&node.key.0);
}

// The node in the slot at an index.
pub(crate) fn read_at(slots: &[u8], index: usize) -> Node
    requires { (length slots.now ≡ slots_length) × (index < slot_number) }
    ensures { result ≡ slot_at (take slot_length (drop (index * slot_length) slots.now)) }
{
    let at = index * layout::SLOT_END;
    let end = at + layout::SLOT_END;
    read(&slots[at..end])
}

// Fills the slot at an index.
pub(crate) fn write_at(node: Node, slots: &mut [u8], index: usize)
    requires { (length slots.old ≡ slots_length) × (index < slot_number) }
    ensures { slots.new ≡ take (index * slot_length) slots.old ++ (slot_bytes node ++ drop (index * slot_length + slot_length) slots.old) }
{
    let at = index * layout::SLOT_END;
    let end = at + layout::SLOT_END;
    write(node, &mut slots[at..end]);
}

// The nodes that stand in all slots, the slots behind the count included.
pub(crate) fn read_all(bytes: &[u8]) -> [Node; 16]
    requires { length bytes.now ≡ slots_length }
    ensures { result ≡ slots_at slot_number bytes.now }
{
    array::from_fn(|i| read_at(bytes, i))
}

// Fills all slots.
pub(crate) fn write_all(nodes: [Node; 16], out: &mut [u8])
    requires { length out.old ≡ slots_length }
    ensures { out.new ≡ slots_bytes nodes }
{
    for (i, node) in nodes.iter().enumerate() {
        write_at(*node, out, i);
    }
}
