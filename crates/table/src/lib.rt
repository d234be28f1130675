// A table in lent bytes: a count, the used places listed in the rising order of their keys, and records of one size that begin with a key.
//
//     count (1) | order (one byte a place) | record 0 | record 1 | ..
//
// A place is used exactly when the order lists it; what is not listed is never read. So neighbours decide that all keys differ, one pass tests
// that, and there is no mark that could disagree with it. A room is a table of seats, and each seat has a table of routes; each
// of the k-buckets is a table of nodes.
#![tactic(auto)]

ghost use Rattle.std.specs.Prelude.{◌≡◌};
ghost use Rattle.table_laws.specs.Table.{fits_table, is_table, is_table_without, found, place_below, key_of_place, is_used, used_places, lowest_free, may_put, put_in, freed_in, may_overwrite, overwritten_in};

mod order;
mod records;

use key::Key;
use records::Records;

// A place is a byte of the order.
pub const MOST_PLACES: usize = 255;

pub const WIDEST_RECORD: usize = 65535;

// What tells how long a table is and where each of its parts stands: how many places it has, and how many bytes each record takes.
#[derive(Clone, Copy)]
pub struct Shape {
    pub places: usize,
    pub width: usize,
}

// Whether the bytes are as long as a table of so many places, with records of such a width.
pub fn fits(table: &[u8], shape: Shape) -> bool
    ensures { result ≡ fits_table shape.places shape.width table.now }
{
    if MOST_PLACES < shape.places {
        return false;
    }
    if shape.width < Key::BYTES {
        return false;
    }
    if WIDEST_RECORD < shape.width {
        return false;
    }
    table.len() == 1 + shape.places + shape.places * shape.width
}

// Whether the bytes are a table that keeps its rules: each place listed is a place, and the keys listed strictly rise.
pub fn is_whole(table: &[u8], shape: Shape) -> bool
    ensures { result ≡ is_table shape.places shape.width table.now }
{
    let Some(records) = Records::of(table, shape) else {
        return false;
    };
    records.all_rise()
}

// Whether the bytes are such a table, and no place listed has the key.
pub fn is_whole_without(table: &[u8], shape: Shape, key: Key) -> bool
    ensures { result ≡ is_table_without shape.places shape.width table.now key.0 }
{
    let Some(records) = Records::of(table, shape) else {
        return false;
    };
    records.all_rise_without(&key.0)
}

// The place that has the key, where one has.
pub fn find(table: &[u8], shape: Shape, key: Key) -> Option<usize>
    ensures { result ≡ place_below shape.places (found shape.places shape.width table.now key.0) }
{
    Records::of(table, shape)?.place_of(&key.0)
}

// The key of a place, used or not; the key of zeros where there is no such place.
pub fn key_at(table: &[u8], shape: Shape, place: usize) -> Key
    ensures { result.0 ≡ key_of_place shape.places shape.width table.now place }
{
    let Some(records) = Records::of(table, shape) else {
        return Key([0u8; 32]);
    };
    if shape.places <= place {
        return Key([0u8; 32]);
    }
    records.key_of(place)
}

// Whether a place is used.
pub fn is_used(table: &[u8], places: usize, place: usize) -> bool
    ensures { result ≡ is_used places table.now place }
{
    if table.len() <= places {
        return false;
    }
    order::lists(table, places, place)
}

// The places that are used, a byte each, in the rising order of their keys; none in bytes that are too short.
pub fn used(table: &[u8], places: usize) -> &[u8]
    ensures { result.now ≡ used_places places table.now }
{
    if table.len() <= places {
        return &table[0..0];
    }
    order::listed(table, places)
}

// The lowest place that is not used, where there is one.
pub fn lowest_free(table: &[u8], places: usize) -> Option<usize>
    ensures { result ≡ place_below places (lowest_free places table.now) }
{
    if MOST_PLACES < places {
        return None;
    }
    if table.len() <= places {
        return None;
    }
    order::lowest_unlisted(table, places)
}

// Whether a place may be put in use: there is such a place, the order has room, and the record is no shorter than a key and no longer than the
// table's.
fn may_put(table: &[u8], shape: Shape, place: usize, record: &[u8]) -> bool
    ensures { result ≡ may_put shape.places shape.width table.now place «record».now }
{
    if !fits(table, shape) {
        return false;
    }
    if shape.places <= usize::from(table[0]) {
        return false;
    }
    if shape.places <= place {
        return false;
    }
    if record.len() < Key::BYTES {
        return false;
    }
    record.len() <= shape.width
}

// A place is put in use, where it may be: its record begins with `record`, whose first 32 bytes are the key.
pub fn put(table: &mut [u8], shape: Shape, place: usize, record: &[u8])
    ensures { table.new ≡ put_in shape.places shape.width table.old place «record».now }
{
    if !may_put(table, shape, place, record) {
        return;
    }
    records::enter(table, shape, place, record);
}

// A place is no longer used. Its record stays as it is, and is not read again.
pub fn free(table: &mut [u8], places: usize, place: usize)
    ensures { table.new ≡ freed_in places table.old place }
{
    if table.len() <= places {
        return;
    }
    if places < usize::from(table[0]) {
        return;
    }
    order::remove(table, places, place);
}

// Whether part of a place's record may be overwritten: the place is used, and the part stands behind the key and within the record.
fn may_overwrite(table: &[u8], shape: Shape, place: usize, at: usize, part: &[u8]) -> bool
    ensures { result ≡ may_overwrite shape.places shape.width table.now place at part.now }
{
    if !fits(table, shape) {
        return false;
    }
    if shape.places <= place {
        return false;
    }
    if at < Key::BYTES {
        return false;
    }
    if shape.width < at {
        return false;
    }
    if shape.width - at < part.len() {
        return false;
    }
    order::lists(table, shape.places, place)
}

// A field behind the key of a used place changes: the record is `part` from its byte `at` on. The key and so the order stay.
pub fn overwrite(table: &mut [u8], shape: Shape, place: usize, at: usize, part: &[u8])
    ensures { table.new ≡ overwritten_in shape.places shape.width table.old place at part.now }
{
    if !may_overwrite(table, shape, place, at, part) {
        return;
    }
    records::refill(table, shape, place, at, part);
}
