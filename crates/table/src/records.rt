// The records of a table: where each stands, how their keys compare, and the passes over those that are listed.
ghost use Rattle.std.specs.Prelude.{◌≡◌, ◌+◌, ◌<◌, ◌≤◌, true, false, length, MatchOption};
ghost use Rattle.key.specs.Keys.{same_key};
ghost use Rattle.table_laws.specs.Bytes.{key_before};
ghost use Rattle.table_laws.specs.Table.{Table, Spot, fits_table, count, table_whole, table_without, place_below, find_key, position, put, refilled};

use crate::{Shape, fits, order};
use key::Key;

// Lent bytes that are as long as a table of the shape.
#[derive(Clone, Copy)]
pub(crate) struct Records<'a> {
    bytes: &'a [u8],
    shape: Shape,
    ghost table: { Table shape.places shape.width bytes.now },
}

// Whether key `a` comes before key `b`: the first byte that differs decides. Mostly that is the first of all, and then no call is made.
fn key_before(a: &[u8], b: &[u8]) -> bool
    requires { (length a.now ≡ 32) × (length b.now ≡ 32) }
    ensures { result ≡ key_before a.now b.now }
{
    if a[0] != b[0] {
        return a[0] < b[0];
    }
    slice_before(a, b)
}

// The same by all bytes, of which `cmp` passes those that are alike in groups, as `<` does not. It is never inlined, so that `key_before` is small, and inlined into
// each pass.
#[inline(never)]
fn slice_before(a: &[u8], b: &[u8]) -> bool
    requires { length a.now ≡ length b.now }
    ensures { result ≡ key_before a.now b.now }
{
    a.cmp(&b).is_lt()
}

impl<'a> Records<'a> {
    ghost use Rattle.table.specs.Lent.{keys, order};

    // The records of a table, where the bytes are as long as one of the shape.
    pub(crate) fn of(table: &'a [u8], shape: Shape) -> Option<Records<'a>>
        ensures { MatchOption result (fits_table shape.places shape.width table.now ≡ false) (λ r. (fits_table shape.places shape.width table.now ≡ true) × (r.bytes.now ≡ table.now) × (r.shape ≡ shape)) }
    {
        if !fits(table, shape) {
            return None;
        }
        Some(Records {
            bytes: table,
            shape,
        })
    }

    // Where the record of a place stands: all arithmetic of places and widths is here.
    fn spot(self, place: usize) -> usize
        requires { place < self.shape.places }
        ensures { Spot self.entry.shape.places self.entry.shape.width self.entry.bytes.now place result }
    {
        1 + self.shape.places + place * self.shape.width
    }

    // The bytes of the key of a place: a slice, since the passes took up to twice as long over keys that are arrays.
    fn key(self, place: usize) -> &'a [u8]
        requires { place < self.shape.places }
        ensures long { length result.now ≡ 32 }
        ensures bytes { result.now ≡ keys self.entry place }
    {
        let at = self.spot(place);
        let end = at + Key::BYTES;
        &self.bytes[at..end]
    }

    // The key of a place.
    pub(crate) fn key_of(self, place: usize) -> Key
        requires { place < self.shape.places }
        ensures { result.0 ≡ keys self.entry place }
    {
        Key::read(self.key(place))
    }

    // The places listed, a byte each.
    fn listed(self) -> &'a [u8]
        ensures { result.now ≡ order self.entry }
    {
        order::listed(self.bytes, self.shape.places)
    }

    // Whether the key of a place comes before `key`; one that is no place has no key.
    fn comes_before(self, place: usize, key: &[u8; Key::BYTES]) -> bool
        ensures { result ≡ key_before (keys self.entry place) key.now }
    {
        place < self.shape.places && key_before(self.key(place), key)
    }

    // Whether a place has the key; one that is no place has none.
    fn has_key(self, place: usize, key: &[u8; Key::BYTES]) -> bool
        ensures { result ≡ same_key (keys self.entry place) key.now }
    {
        place < self.shape.places && self.key(place) == key.as_slice()
    }

    // Whether the places listed are places, and their keys strictly rise: neighbours decide.
    pub(crate) fn all_rise(self) -> bool
        ensures { result ≡ table_whole self.entry.shape.places self.entry.shape.width self.entry.bytes.now }
    {
        let places = self.shape.places;
        if places < usize::from(self.bytes[0]) {
            return false;
        }
        let Some((first, rest)) = self.listed().split_first() else {
            return true;
        };
        let first = usize::from(*first);
        if places <= first {
            return false;
        }
        let mut last = self.key(first);
        for next in rest {
            let next = usize::from(*next);
            if places <= next {
                return false;
            }
            let next = self.key(next);
            if !key_before(last, next) {
                return false;
            }
            last = next;
        }
        true
    }

    // The first place listed that has the key, where one has it.
    pub(crate) fn place_of(self, key: &[u8; Key::BYTES]) -> Option<usize>
        ensures { result ≡ place_below self.entry.shape.places (find_key self.entry.shape.places (keys self.entry) key.now (order self.entry)) }
    {
        for place in self.listed() {
            let place = usize::from(*place);
            if self.has_key(place, key) {
                return Some(place);
            }
        }
        None
    }

    // Whether the places listed are places, their keys strictly rise, and none of them is `key`. The pass compares the first byte of each key with that of `key`;
    // only where one is alike, as 1 in 256 of random keys is, is `key` searched for. It has a loop of its own beside `all_rise`, for speed: DECISIONS.md, "How is
    // that tested in lent memory?" The key is a slice: with an array in its place the pass took up to 1.5 times as long.
    pub(crate) fn all_rise_without(self, key: &[u8]) -> bool
        requires { length key.now ≡ 32 }
        ensures { result ≡ table_without self.entry.shape.places self.entry.shape.width self.entry.bytes.now key.now }
    {
        let places = self.shape.places;
        if places < usize::from(self.bytes[0]) {
            return false;
        }
        let Some((first, rest)) = self.listed().split_first() else {
            return true;
        };
        let first = usize::from(*first);
        if places <= first {
            return false;
        }
        let mut last = self.key(first);
        let mut alike = last[0] == key[0];
        for next in rest {
            let next = usize::from(*next);
            if places <= next {
                return false;
            }
            let next = self.key(next);
            if !key_before(last, next) {
                return false;
            }
            alike |= next[0] == key[0];
            last = next;
        }
        !alike || self.place_of(&Key::read(key).0).is_none()
    }

    // How many of the places listed, from the front, come before the key.
    fn position_of(self, key: &[u8; Key::BYTES]) -> usize
        ensures { result ≡ position (keys self.entry) key.now (order self.entry) }
    {
        let mut before = 0;
        for place in self.listed() {
            if !self.comes_before(usize::from(*place), key) {
                return before;
            }
            before += 1;
        }
        before
    }
}

// The record of a place is `part` from its byte `at` on.
pub(crate) fn refill(table: &mut [u8], shape: Shape, place: usize, at: usize, part: &[u8])
    requires { Table shape.places shape.width table.old × (place < shape.places) × (at + length part.now ≤ shape.width) }
    ensures { table.new ≡ refilled shape.places shape.width table.old place at part.now }
{
    let records = Records {
        bytes: table,
        shape,
    };
    let from = records.spot(place) + at;
    let to = from + part.len();
    table[from..to].copy_from_slice(part);
}

// The place is listed where its key belongs, and its record begins with `record`.
pub(crate) fn enter(table: &mut [u8], shape: Shape, place: usize, record: &[u8])
    requires { Table shape.places shape.width table.old × (count table.old < shape.places) × (place < shape.places) × (32 ≤ length «record».now) × (length «record».now ≤ shape.width) }
    ensures { table.new ≡ put shape.places shape.width table.old place «record».now }
{
    let records = Records {
        bytes: table,
        shape,
    };
    let count = table[0];
    let at = records.position_of(&Key::read(record).0);
    let end = 1 + shape.places;
    // a table has 255 places at most
    order::open(&mut table[1..end], at, usize::from(count), place as u8);
    refill(table, shape, place, 0, record);
    table[0] = count + 1;
}
