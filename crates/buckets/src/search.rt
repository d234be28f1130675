// The search for the nearest of all held nodes: one pass, which compares keys where they stand and keeps where the records of the nearest begin, and no node.
ghost use Rattle.std.specs.Prelude.{◌≡◌, true, [], ◌∷◌, ◌++◌, ◌+◌, ◌<◌, ◌≤◌, length, take, drop};
ghost use Rattle.lists.specs.Insert.{insert_at};
ghost use Rattle.nearest.specs.Lists.{node_key};
ghost use Rattle.nearest.specs.Slots.{position};
ghost use Rattle.nearest_first.specs.NearestFirst.{nearest_of};
ghost use Rattle.buckets_laws.specs.Layout.{bucket_number, held_in, held_nodes, record_length};
ghost use Rattle.buckets_laws.specs.Whole.{buckets_whole};
ghost use Rattle.buckets.specs.Kept.{node_at, kept_nodes, KeptWell, KeptAs, KeptWith};

use crate::layout;
use key::{Key, in_place};

// Document 02: "the 4 nearest of all held nodes, or all when fewer".
pub(crate) const MOST: usize = 4;

// Where the records of the nearest found so far begin, nearest first: the first `count` of `starts`.
// An array with a count beside it: it goes by value and there is no heap, and for four numbers a crate of such lists would be no plainer.
#[derive(Clone, Copy)]
pub(crate) struct Found {
    pub count: usize,
    pub starts: [usize; MOST],
}

// How many of those kept are nearer to the target than the node whose record begins at `at`. The furthest is compared first: of most nodes that tells all.
fn position(memory: &[u8], target: &[u8; Key::BYTES], kept: Found, at: usize) -> usize
    requires { KeptWell memory.now target.now kept × (at + record_length ≤ length memory.now) }
    ensures { result ≡ position target.now (node_key (node_at memory.now at)) (kept_nodes memory.now kept) }
{
    let end = at + layout::FAMILY;
    for i in (0..kept.count).rev() {
        let start = kept.starts[i];
        let stop = start + layout::FAMILY;
        if in_place::nearer(target, &memory[start..stop], &memory[at..end]) {
            return i + 1;
        }
    }
    0
}

// `start` put at `place`, and those from there to before `last` moved back by one; what stood at `last` is gone.
fn opened(mut starts: [usize; MOST], place: usize, last: usize, start: usize) -> [usize; MOST]
    requires { (place ≤ last) × (last < 4) }
    ensures { result ≡ take (last + 1) (insert_at place start starts) ++ drop (last + 1) starts }
{
    starts.copy_within(place..last, place + 1);
    starts[place] = start;
    starts
}

// The node whose record begins at `at` is put in where it belongs; where there are four already, the furthest of the five is left out.
fn with_node(memory: &[u8], target: &[u8; Key::BYTES], kept: Found, at: usize) -> Found
    requires { KeptWell memory.now target.now kept × (at + record_length ≤ length memory.now) }
    ensures { KeptWith memory.now target.now kept (node_at memory.now at ∷ []) result }
{
    let place = position(memory, target, kept, at);
    if MOST <= place {
        return kept;
    }
    let last = kept.count.min(MOST - 1);
    Found {
        count: last + 1,
        starts: opened(kept.starts, place, last, at),
    }
}

// The nodes of one bucket are put in.
fn with_bucket(memory: &[u8], target: &[u8; Key::BYTES], kept: Found, bucket: usize) -> Found
    requires { KeptWell memory.now target.now kept × (buckets_whole memory.now ≡ true) × (bucket < bucket_number) }
    ensures { KeptWith memory.now target.now kept (held_in memory.now bucket) result }
{
    let used = table::used(layout::bucket_at(memory, bucket), layout::PLACES);
    let mut kept = kept;
    for place in used {
        let at = layout::record_start(bucket, usize::from(*place));
        kept = with_node(memory, target, kept, at);
    }
    kept
}

// The nearest of all held nodes, nearest first.
pub(crate) fn nearest(memory: &[u8], target: &[u8; Key::BYTES]) -> Found
    requires { buckets_whole memory.now ≡ true }
    ensures { KeptAs memory.now target.now (nearest_of 4 target.now (held_nodes memory.now)) result }
{
    let mut kept = Found {
        count: 0,
        starts: [0; MOST],
    };
    for bucket in 0..layout::BUCKETS {
        kept = with_bucket(memory, target, kept, bucket);
    }
    kept
}
