// A whole list, from lent bytes to the value and back.
ghost use Rattle.std.specs.Prelude.{◌≡◌};
ghost use Rattle.lent_list_laws.specs.Layout.{loaded, stored};

use crate::{layout, slot};
use key::Key;
use nearest::NearestList;

// How many bytes a list takes. Memory may be longer; what stands behind is left alone.
pub const BYTES: usize = layout::END;

// The list that stands in lent bytes, whether or not it keeps its rules; in memory too short for one, the empty list of size 8 for the key of zeros.
pub fn load(memory: &[u8]) -> NearestList
    ensures { result ≡ loaded memory.now }
{
    if memory.len() < BYTES {
        return NearestList::empty(Key([0u8; 32]));
    }
    NearestList {
        target: Key::read(&memory[layout::TARGET..layout::SLOTS]),
        size: usize::from(memory[layout::SIZE]),
        count: usize::from(memory[layout::COUNT]),
        nodes: slot::read_all(&memory[layout::SLOTS..layout::END]),
    }
}

// Writes a list to lent bytes, or nothing where they are too short. Of its size and of its count the lowest byte is kept.
pub fn store(list: NearestList, memory: &mut [u8])
    ensures { memory.new ≡ stored list memory.old }
{
    if memory.len() < BYTES {
        return;
    }
    let target = list.target;
    let nodes = list.nodes;
    // the lowest byte is what is meant here, so each is cut and not converted
    memory[layout::SIZE] = (list.size % 256) as u8;
    memory[layout::COUNT] = (list.count % 256) as u8;
    target.write(&mut memory[layout::TARGET..layout::SLOTS]);
    slot::write_all(nodes, &mut memory[layout::SLOTS..layout::END]);
}
