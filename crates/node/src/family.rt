// Document 01's four families, and how long an address and a packed node of each are.
ghost use Rattle.std.specs.Prelude.{◌≡◌, ◌≤◌};
ghost use Rattle.node.specs.Families.{family_byte, FamilyOf, known_family, address_length, packed_length};

use key::Key;
use refusal::Refusal;

// How a peer is reached.
#[derive(Clone, Copy, PartialEq, Eq, Debug)]
pub enum Family {
    UdpIpv4,
    UdpIpv6,
    TcpIpv4,
    TcpIpv6,
}

// "A packed node is a family byte, the address, a 2-byte port, the key."
pub const FAMILY_BYTES: usize = 1;

pub const PORT_BYTES: usize = 2;

// "IPv4 has 4 address bytes (39 in all), IPv6 16 (51)."
pub const IPV4_BYTES: usize = 4;

pub const IPV6_BYTES: usize = 16;

// A packed node without its address.
const OTHER_BYTES: usize = FAMILY_BYTES + PORT_BYTES + Key::BYTES;

// "Family 2 is UDP over IPv4, 10 UDP over IPv6, 130 TCP over IPv4, 138 TCP over IPv6."
impl TryFrom<u8> for Family {
    type Error = Refusal;

    ghost try_from_gives = { FamilyOf };

    fn try_from(byte: u8) -> Result<Family, Refusal> {
        match byte {
            2 => Ok(Family::UdpIpv4),
            10 => Ok(Family::UdpIpv6),
            130 => Ok(Family::TcpIpv4),
            138 => Ok(Family::TcpIpv6),
            _ => Err(Refusal::UnknownFamily),
        }
    }
}

impl Family {
    // How many address bytes a node has.
    pub fn address_length(self) -> usize
        ensures value { result ≡ address_length (family_byte self) }
        ensures bound { result ≤ 16 }
    {
        match self {
            Family::UdpIpv4 | Family::TcpIpv4 => IPV4_BYTES,
            Family::UdpIpv6 | Family::TcpIpv6 => IPV6_BYTES,
        }
    }

    // How many bytes a packed node has.
    pub fn packed_length(self) -> usize
        ensures { result ≡ packed_length (family_byte self) }
    {
        OTHER_BYTES + self.address_length()
    }
}

// These three take any byte: a node by value holds its family as it was given, which may be unknown.
//
// Whether a family byte is one of the four.
pub fn known(family: u8) -> bool
    ensures { result ≡ known_family family }
{
    Family::try_from(family).is_ok()
}

// How many address bytes a node of this family has; none where the family is unknown.
pub fn address_length(family: u8) -> usize
    ensures value { result ≡ address_length family }
    ensures bound { result ≤ 16 }
{
    Family::try_from(family).map_or(0, Family::address_length)
}

// How many bytes a packed node of this family has: 39 over IPv4, 51 over IPv6; the other parts alone where the family is unknown.
pub fn packed_length(family: u8) -> usize
    ensures { result ≡ packed_length family }
{
    OTHER_BYTES + address_length(family)
}
