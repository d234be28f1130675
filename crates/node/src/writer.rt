// One node, packed into a lent output.
ghost use Rattle.std.specs.Prelude.{◌≡◌, length};
ghost use Rattle.node.specs.Families.{family_byte, packed_length};
ghost use Rattle.node.specs.Nodes.{packed_node};
ghost use Rattle.node.specs.Values.{info_of};
ghost use Rattle.node.specs.Written.{WritesNode};

use crate::Node;
use crate::family::{FAMILY_BYTES, Family, PORT_BYTES};
use refusal::Refusal;

// Writes the packed node, and answers its byte count: 15, 10. Of an IPv4 node's address bytes only the first 4 are looked at.
pub fn write(node: Node, out: &mut [u8]) -> Result<usize, Refusal>
    ensures { WritesNode node out.old out.new result }
{
    let family = Family::try_from(node.family)?;
    let size = family.packed_length();
    if out.len() < size {
        return Err(Refusal::OutputTooShort);
    }
    put(node, family, &mut out[..size]);
    Ok(size)
}

// Fills an output of the exact length.
fn put(node: Node, family: Family, out: &mut [u8])
    requires named { node.family ≡ family_byte family }
    requires exact { length out.old ≡ packed_length (family_byte family) }
    ensures { out.new ≡ packed_node (info_of node) }
{
    let length = family.address_length();
    let port = FAMILY_BYTES + length;
    let key = port + PORT_BYTES;
    out[0] = node.family;
    out[FAMILY_BYTES..port].copy_from_slice(&node.address[..length]);
    out[port..key].copy_from_slice(&node.port.to_be_bytes());
    out[key..].copy_from_slice(&node.key.0);
}
