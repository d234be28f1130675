// A lent list of packed nodes, walked: 0 to 4 nodes with no byte over.
ghost use Rattle.node.specs.Steps.{Steps};

use crate::{Node, reader};
use refusal::Refusal;

// "A node list is 0 to 4 packed nodes with no byte over."
pub const MOST_NODES: usize = 4;

// A node that a step shows, and the walker's place and count after it. A step that shows none hands nothing out: the walker stays as it was.
#[derive(Clone, Copy, PartialEq, Eq, Debug)]
pub struct Next {
    pub node: Node,
    pub place: usize,
    pub count: usize,
}

// The step of a walker that stands at a place of a list and has shown so many nodes: the next node, or none at the end. A place past the end gets 16
// and the end says so, at any count. Then 17, 15, 16. On slice and numbers, as document 01 has it: a C host keeps place and count itself.
pub fn step(list: &[u8], place: usize, count: usize) -> Result<Option<Next>, Refusal>
    ensures { Steps list.now place count result }
{
    if list.len() < place {
        return Err(Refusal::NodeCutShort);
    }
    if place == list.len() {
        return Ok(None);
    }
    if MOST_NODES <= count {
        return Err(Refusal::BytesAfterNodes);
    }
    let (node, next) = reader::read(list, place)?;
    Ok(Some(Next {
        node,
        place: next,
        count: count + 1,
    }))
}
