// The test of lent buckets: each is a table that keeps its rules, and each node that it lists belongs to it.
ghost use Rattle.std.specs.Prelude.{◌≡◌, true, ◌+◌, ◌<◌, ◌≤◌, length};
ghost use Rattle.table_laws.specs.Table.{is_table};
ghost use Rattle.buckets_laws.specs.Layout.{bucket_number, bucket_size, record_length, buckets_length, base_of, bucket_at, bucket_nodes};
ghost use Rattle.buckets_laws.specs.Whole.{belongs, all_belong, bucket_whole, buckets_whole};
ghost use Rattle.buckets.specs.Kept.{node_at};

use crate::layout;
use key::in_place;
use node::family;

// Whether the node whose record begins at `at` belongs to a bucket: document 02, "A key's bucket is the number of leading bits it shares with the base key."
fn belongs(memory: &[u8], bucket: usize, at: usize) -> bool
    requires { at + record_length ≤ length memory.now }
    ensures { result ≡ belongs (base_of memory.now) bucket (node_at memory.now at) }
{
    let end = at + layout::FAMILY;
    if in_place::shared_bits(&memory[0..layout::BASE_END], &memory[at..end]) != bucket {
        return false;
    }
    family::known(memory[end])
}

// Whether each node that a bucket lists belongs to it.
fn all_belong(memory: &[u8], bucket: usize) -> bool
    requires { (buckets_length ≤ length memory.now) × (bucket < bucket_number) × (is_table bucket_size record_length (bucket_at memory.now bucket) ≡ true) }
    ensures { result ≡ all_belong (base_of memory.now) bucket (bucket_nodes (bucket_at memory.now bucket)) }
{
    let used = table::used(layout::bucket_at(memory, bucket), layout::PLACES);
    for place in used {
        let at = layout::record_start(bucket, usize::from(*place));
        if !belongs(memory, bucket, at) {
            return false;
        }
    }
    true
}

// Whether a bucket keeps its rules.
fn bucket_whole(memory: &[u8], bucket: usize) -> bool
    requires { (buckets_length ≤ length memory.now) × (bucket < bucket_number) }
    ensures { result ≡ bucket_whole (base_of memory.now) bucket (bucket_at memory.now bucket) }
{
    if !table::is_whole(layout::bucket_at(memory, bucket), layout::SHAPE) {
        return false;
    }
    all_belong(memory, bucket)
}

// Whether memory holds whole buckets; it may be longer than they are.
pub(crate) fn is_whole(memory: &[u8]) -> bool
    ensures { result ≡ buckets_whole memory.now }
{
    if memory.len() < layout::END {
        return false;
    }
    for bucket in 0..layout::BUCKETS {
        if !bucket_whole(memory, bucket) {
            return false;
        }
    }
    true
}
