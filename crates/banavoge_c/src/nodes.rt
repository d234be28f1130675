// Packed nodes: one read, one written, and the step of a walk over a lent list.
ghost use Rattle.std.specs.Prelude.{drop};
ghost use Rattle.node.specs.Nodes.{read_node};
ghost use Rattle.node.specs.Steps.{step_of};
ghost use Rattle.node.specs.Written.{WritesNode};
ghost use Rattle.banavoge_laws.specs.Answers.{OfBytes, ToldAs};
ghost use Rattle.banavoge_laws.specs.Nodes.{node_places, node_given, ReadsNode, StepsNode, node_written_code};

#[unsafe(no_mangle)]
pub extern "C" fn banavoge_node_read(
    bytes: &[u8],
    at: usize,
    family: &mut u8,
    address: &mut [u8; 16],
    port: &mut u16,
    key: &mut [u8; 32],
    next: &mut usize,
) -> i32
    ensures { OfBytes bytes.now (ReadsNode at (read_node (drop at bytes.now)) result (node_places family.old address.old port.old key.old next.old) (node_places family.new address.new port.new key.new next.new)) }
{
    banavoge::nodes::banavoge_node_read(bytes, at, family, address, port, key, next)
}

#[unsafe(no_mangle)]
pub extern "C" fn banavoge_nodes_step(
    list: &[u8],
    place: usize,
    count: usize,
    family: &mut u8,
    address: &mut [u8; 16],
    port: &mut u16,
    key: &mut [u8; 32],
    next: &mut usize,
) -> i32
    ensures { OfBytes list.now (StepsNode place (step_of list.now place count) result (node_places family.old address.old port.old key.old next.old) (node_places family.new address.new port.new key.new next.new)) }
{
    banavoge::nodes::banavoge_nodes_step(list, place, count, family, address, port, key, next)
}

#[unsafe(no_mangle)]
pub extern "C" fn banavoge_node_write(
    family: u8,
    address: &[u8; 16],
    port: u16,
    key: &[u8; 32],
    out: &mut [u8],
) -> i32
    ensures { ToldAs node_written_code (WritesNode (node_given family address.now port key.now) out.old out.new) result }
{
    banavoge::nodes::banavoge_node_write(family, address, port, key, out)
}
