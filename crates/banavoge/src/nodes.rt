// Packed nodes: one read, one written, and the step of a walk over a lent list.
ghost use Rattle.std.specs.Prelude.{◌≡◌, drop};
ghost use Rattle.node.specs.Nodes.{read_node};
ghost use Rattle.node.specs.Steps.{step_of};
ghost use Rattle.node.specs.Written.{WritesNode};
ghost use Rattle.banavoge_laws.specs.Answers.{OfBytes, ToldAs};
ghost use Rattle.banavoge_laws.specs.Nodes.{node_places, node_given, ReadsNode, StepsNode, node_written_code};
ghost use Rattle.banavoge_laws.specs.Nearest.{held_places, held_places_of};

use crate::answer;
use key::Key;
use node::{Node, reader, walker, writer};

// The node that a host's four parameters make.
pub(crate) fn given(family: u8, address: &[u8; 16], port: u16, key: &[u8; 32]) -> Node
    ensures { result ≡ node_given family address.now port key.now }
{
    Node {
        family,
        address: *address,
        port,
        key: Key(*key),
    }
}

// Hands a node to the host's four places. The two arrays go through variables: the prover does not cover an array that is stored straight from a field.
pub(crate) fn tell(
    node: Node,
    family: &mut u8,
    address: &mut [u8; 16],
    port: &mut u16,
    key: &mut [u8; 32],
)
    ensures { held_places family.new address.new port.new key.new ≡ held_places_of node }
{
    let bytes = node.address;
    let Key(owner) = node.key;
    *family = node.family;
    *address = bytes;
    *port = node.port;
    *key = owner;
}

// Reads the node at a place: 0, or minus 15 or 16.
pub fn banavoge_node_read(
    bytes: &[u8],
    at: usize,
    family: &mut u8,
    address: &mut [u8; 16],
    port: &mut u16,
    key: &mut [u8; 32],
    next: &mut usize,
) -> i32
    ensures { OfBytes bytes.now (ReadsNode at (read_node (drop at bytes.now)) result (node_places family.old address.old port.old key.old next.old) (node_places family.new address.new port.new key.new next.new)) }
{
    match reader::read(bytes, at) {
        Ok((node, after)) => {
            tell(node, family, address, port, key);
            *next = after;
            0
        }
        Err(why) => answer::refused(why),
    }
}

// The step of document 01's walker, which a C host keeps as a place and a count: 1 and the node, 0 at the end, or minus 17, 15 or 16.
pub fn banavoge_nodes_step(
    list: &[u8],
    place: usize,
    count: usize,
    family: &mut u8,
    address: &mut [u8; 16],
    port: &mut u16,
    key: &mut [u8; 32],
    next: &mut usize,
) -> i32
    ensures { OfBytes list.now (StepsNode place (step_of list.now place count) result (node_places family.old address.old port.old key.old next.old) (node_places family.new address.new port.new key.new next.new)) }
{
    match walker::step_from(list, place, count) {
        Ok(Some(shown)) => {
            tell(shown.node, family, address, port, key);
            *next = shown.place;
            1
        }
        Ok(None) => 0,
        Err(why) => answer::refused(why),
    }
}

// Writes a packed node: the byte count, or minus 15 or 10.
#[tactic(auto, unfolding(banavoge_laws::specs::Nodes::node_written_code))]
pub fn banavoge_node_write(
    family: u8,
    address: &[u8; 16],
    port: u16,
    key: &[u8; 32],
    out: &mut [u8],
) -> i32
    ensures { ToldAs node_written_code (WritesNode (node_given family address.now port key.now) out.old out.new) result }
{
    answer::written(writer::write(given(family, address, port, key), out))
}
