// The record of a node: read from lent bytes, and made. A slot of a nearest list has the same fields at other places; each is read and written once.
ghost use Rattle.std.specs.Prelude.{◌≡◌, length};
ghost use Rattle.buckets_laws.specs.Layout.{record_length, record_node, node_record};

use crate::layout;
use key::Key;
use node::Node;

// The node that a record is.
pub(crate) fn read(bytes: &[u8]) -> Node
    requires { length bytes.now ≡ record_length }
    ensures { result ≡ record_node bytes.now }
{
    let mut address = [0; 16];
    address.copy_from_slice(&bytes[layout::ADDRESS..layout::PORT]);
    Node {
        family: bytes[layout::FAMILY],
        address,
        port: u16::from_be_bytes([bytes[layout::PORT], bytes[layout::PORT + 1]]),
        key: Key::read(&bytes[0..layout::FAMILY]),
    }
}

// The record of a node.
pub(crate) fn of(node: Node) -> [u8; layout::RECORD_END]
    ensures { result ≡ node_record node }
{
    let mut record = [0u8; layout::RECORD_END];
    record[layout::PORT..].copy_from_slice(&node.port.to_be_bytes());
    record[layout::ADDRESS..layout::PORT].copy_from_slice(&node.address);
    record[layout::FAMILY] = node.family;
    record[..layout::FAMILY].copy_from_slice(&node.key.0);
    record
}
