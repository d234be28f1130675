// K-buckets that live in lent bytes: nodes over the whole key space, for a bootstrap node. Document 02's request 05.
//
// A bucket is a table of 8 places whose records begin with their key. Every call but `begin` tests all buckets first. Nothing is ever put out: without a call that
// removes, a full bucket holds the same keys for good. Where nodes come from, and who asks them for more, stay with the host.
#![tactic(auto)]

ghost use Rattle.std.specs.Prelude.{◌≡◌, true};
ghost use Rattle.table_laws.specs.Table.{is_table};
ghost use Rattle.buckets_laws.specs.Layout.{bucket_size, record_length};
ghost use Rattle.buckets_laws.specs.Calls.{Begins, Offers, Asks};
ghost use Rattle.buckets.specs.Entered.{Enters};

mod answer;
mod layout;
mod record;
mod search;
mod whole;

use key::{Key, in_place};
use node::{Node, family};
use refusal::Refusal;

// How many bytes buckets take. Memory may be longer; what stands behind is left alone.
pub const BYTES: usize = layout::END;

// Begins buckets that hold nothing: 10 for memory too short.
pub fn begin(memory: &mut [u8], base: Key) -> Result<(), Refusal>
    ensures { Begins base memory.old memory.new result }
{
    if memory.len() < BYTES {
        return Err(Refusal::OutputTooShort);
    }
    memory[layout::BASE_END..BYTES].fill(0);
    base.write(&mut memory[0..layout::BASE_END]);
    Ok(())
}

// Offers a node: 20, 15. A held key has its node replaced; the base key and a new key whose bucket is full are not kept.
pub fn offer(memory: &mut [u8], node: Node) -> Result<bool, Refusal>
    ensures { Offers node memory.old memory.new result }
{
    if !whole::is_whole(memory) {
        return Err(Refusal::BucketsNotWhole);
    }
    if !family::known(node.family) {
        return Err(Refusal::UnknownFamily);
    }
    let bucket = in_place::shared_bits(&memory[0..layout::BASE_END], &node.key.0);
    if layout::BUCKETS <= bucket {
        return Ok(false);
    }
    let at = layout::bucket_start(bucket);
    let end = at + layout::BUCKET_END;
    Ok(enter(&mut memory[at..end], node))
}

// A bucket takes a node, where it holds its key or has room. Whether it is kept.
fn enter(bucket: &mut [u8], node: Node) -> bool
    requires { is_table bucket_size record_length bucket.old ≡ true }
    ensures { Enters node bucket.old bucket.new result }
{
    let record = record::of(node);
    if let Some(place) = table::find(bucket, layout::SHAPE, node.key) {
        table::overwrite(
            bucket,
            layout::SHAPE,
            place,
            layout::FAMILY,
            &record[layout::FAMILY..layout::RECORD_END],
        );
        return true;
    }
    if let Some(free) = table::lowest_free(bucket, layout::PLACES) {
        table::put(bucket, layout::SHAPE, free, &record);
        return true;
    }
    false
}

// Writes the nodes nearest to a target, nearest first, as a node list: 20, 10.
pub fn nearest(memory: &[u8], target: Key, out: &mut [u8]) -> Result<usize, Refusal>
    ensures { Asks target memory.now out.old out.new result }
{
    if !whole::is_whole(memory) {
        return Err(Refusal::BucketsNotWhole);
    }
    let kept = search::nearest(memory, &target.0);
    let length = answer::length(memory, kept);
    if out.len() < length {
        return Err(Refusal::OutputTooShort);
    }
    answer::write(memory, kept, out);
    Ok(length)
}
