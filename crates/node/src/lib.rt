// Packed nodes: one read, one written, and a lent list of them walked. Document 01's section "Nodes", with the layout of document 001's
// "packed node format".
//
// A node says where a peer is reached and by which key. Nothing here opens a connection or keeps what it has read: that stays with the host.
#![tactic(auto)]

pub mod family;
pub mod reader;
pub mod walk;
pub mod walker;
pub mod writer;

ghost use Rattle.std.specs.Prelude.{◌≡◌};
ghost use Rattle.node.specs.Values.{blank_node};

use key::Key;

// A node by value. The family is the byte as given, so that a node of unknown family can be made, and is refused where the rules say so.
// An IPv4 address stands in the first 4 address bytes.
#[derive(Clone, Copy, PartialEq, Eq, Debug)]
pub struct Node {
    pub family: u8,
    pub address: [u8; 16],
    pub port: u16,
    pub key: Key,
}

impl Node {
    // The node of zeros, whose family is unknown. It fills a place that holds no node yet.
    pub fn blank() -> Node
        ensures { result ≡ blank_node }
    {
        Node {
            family: 0,
            address: [0u8; 16],
            port: 0,
            key: Key([0u8; 32]),
        }
    }
}
