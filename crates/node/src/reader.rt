// One packed node, read at a place of lent bytes.
ghost use Rattle.std.specs.Prelude.{◌≡◌, ◌+◌, ◌≤◌, ◌++◌, ◌-◌, length, get_or, take, drop, replicate};
ghost use Rattle.node.specs.Families.{family_byte, address_length, packed_length};
ghost use Rattle.node.specs.Nodes.{node_of};
ghost use Rattle.node.specs.Values.{value_of};
ghost use Rattle.node.specs.Reads.{Reads};

use crate::Node;
use crate::family::{FAMILY_BYTES, Family, IPV4_BYTES, IPV6_BYTES, PORT_BYTES};
use key::Key;
use refusal::Refusal;

// Reads the node that starts at a place, and says where the next node starts, or the bytes end; bytes may come after it. Refusals 15, 16, in this
// order; 16 where no byte is left.
pub fn read(bytes: &[u8], at: usize) -> Result<(Node, usize), Refusal>
    ensures { Reads bytes.now at result }
{
    let byte = *bytes.get(at).ok_or(Refusal::NodeCutShort)?;
    let family = Family::try_from(byte)?;
    let size = family.packed_length();
    if bytes.len() - at < size {
        return Err(Refusal::NodeCutShort);
    }
    Ok((unpacked(family, &bytes[at..]), at + size))
}

// The node of this family whose packed bytes stand at the front of these.
fn unpacked(family: Family, packed: &[u8]) -> Node
    requires named { get_or packed.now 0 0 ≡ family_byte family }
    requires whole { packed_length (family_byte family) ≤ length packed.now }
    ensures { result ≡ value_of (node_of (family_byte family) (drop 1 packed.now)) }
{
    let port = FAMILY_BYTES + family.address_length();
    let key = port + PORT_BYTES;
    Node {
        family: packed[0],
        address: address(family, packed),
        port: u16::from_be_bytes([packed[port], packed[port + 1]]),
        key: Key::read(&packed[key..]),
    }
}

// The address bytes behind the family, by how many it has: of each a copy of a length that the compiler knows.
fn address(family: Family, packed: &[u8]) -> [u8; 16]
    requires { 17 ≤ length packed.now }
    ensures { result ≡ take (address_length (family_byte family)) (drop 1 packed.now) ++ replicate (16 - address_length (family_byte family)) 0 }
{
    match family {
        Family::UdpIpv4 | Family::TcpIpv4 => padded::<IPV4_BYTES>(packed),
        Family::UdpIpv6 | Family::TcpIpv6 => padded::<IPV6_BYTES>(packed),
    }
}

// So many address bytes, and 0 for those that the family does not use.
fn padded<const N: usize>(packed: &[u8]) -> [u8; 16]
    requires used { N ≤ 16 }
    requires there { 1 + N ≤ length packed.now }
    ensures { result ≡ take N (drop 1 packed.now) ++ replicate (16 - N) 0 }
{
    let mut address = [0; 16];
    address[..N].copy_from_slice(&packed[FAMILY_BYTES..FAMILY_BYTES + N]);
    address
}
