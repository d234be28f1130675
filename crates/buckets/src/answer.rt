// The answer to a question: the nodes found, packed one behind the other.
ghost use Rattle.std.specs.Prelude.{◌≡◌, true, ◌++◌, ◌≤◌, length, drop};
ghost use Rattle.nearest.specs.Lists.{all_known};
ghost use Rattle.buckets.specs.Kept.{Starts, kept_nodes, kept_bytes};

use crate::search::Found;
use crate::{layout, record};
use node::{family, writer};

// How many bytes the packed nodes take.
pub(crate) fn length(memory: &[u8], kept: Found) -> usize
    requires { Starts memory.now kept }
    ensures { result ≡ length (kept_bytes memory.now kept) }
{
    let mut bytes = 0;
    for start in &kept.starts[..kept.count] {
        let at = *start + layout::FAMILY;
        bytes += family::packed_length(memory[at]);
    }
    bytes
}

// Writes the packed nodes to the front of an output that is long enough. The writer refuses none: their families are known, and there is room.
pub(crate) fn write(memory: &[u8], kept: Found, out: &mut [u8])
    requires { Starts memory.now kept × (all_known (kept_nodes memory.now kept) ≡ true) × (length (kept_bytes memory.now kept) ≤ length out.old) }
    ensures { out.new ≡ kept_bytes memory.now kept ++ drop (length (kept_bytes memory.now kept)) out.old }
{
    let mut at = 0;
    for start in &kept.starts[..kept.count] {
        let start = *start;
        let end = start + layout::RECORD_END;
        let node = record::read(&memory[start..end]);
        let _ = writer::write(node, &mut out[at..]);
        at += family::packed_length(node.family);
    }
}
