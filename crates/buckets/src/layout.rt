// Where each part of buckets stands in lent bytes. No other file of the code knows an offset; docs/ARCHITECTURE.md has the picture.
//
//     buckets | base key (32) | bucket 0 | bucket 1 | .. | bucket 255 |
//     bucket  | table of 8 places: count (1) | order (8) | record 0 | .. | record 7 |
//     record  | key (32) | family (1) | address (16) | port (2) |
ghost use Rattle.std.specs.Prelude.{◌≡◌, ◌<◌, ◌≤◌, length};
ghost use Rattle.buckets_laws.specs.Layout.{bucket_number, bucket_size, buckets_length, bucket_start, bucket_at, record_start};

use key::Key;
use node::family;
use table::Shape;

// Document 02: "256 buckets by a base key, each of up to 8 nodes".
pub(crate) const BUCKETS: usize = 256;

pub(crate) const PLACES: usize = 8;

// A record, in one form for every family: all 16 address bytes are kept as they were given.
pub(crate) const FAMILY: usize = Key::BYTES;

pub(crate) const ADDRESS: usize = FAMILY + family::FAMILY_BYTES;

pub(crate) const PORT: usize = ADDRESS + 16;

pub(crate) const RECORD_END: usize = PORT + family::PORT_BYTES;

// Each bucket is a table of this shape.
pub(crate) const SHAPE: Shape = Shape {
    places: PLACES,
    width: RECORD_END,
};

// Where the records of a bucket stand: behind its count and its order.
const RECORDS: usize = 1 + PLACES;

pub(crate) const BUCKET_END: usize = RECORDS + PLACES * RECORD_END;

pub(crate) const BASE_END: usize = Key::BYTES;

pub(crate) const END: usize = BASE_END + BUCKETS * BUCKET_END;

// Where a bucket begins.
pub(crate) fn bucket_start(bucket: usize) -> usize
    requires { bucket < bucket_number }
    ensures { result ≡ bucket_start bucket }
{
    BASE_END + bucket * BUCKET_END
}

// The bytes of a bucket. The length is said here and by two tests; the search has it from `buckets_whole`, and `offer` lends a bucket to write.
pub(crate) fn bucket_at(memory: &[u8], bucket: usize) -> &[u8]
    requires { (buckets_length ≤ length memory.now) × (bucket < bucket_number) }
    ensures { result.now ≡ bucket_at memory.now bucket }
{
    let at = bucket_start(bucket);
    let end = at + BUCKET_END;
    &memory[at..end]
}

// Where the record of a place of a bucket begins.
pub(crate) fn record_start(bucket: usize, place: usize) -> usize
    requires { (bucket < bucket_number) × (place < bucket_size) }
    ensures { result ≡ record_start bucket place }
{
    bucket_start(bucket) + RECORDS + place * RECORD_END
}
