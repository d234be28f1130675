// Who sits in a seat, and where a key sits. This is how a host learns, after a tick, whom it put out, and closes their sockets: document 02's
// "Notice dead laptops".
//
// Both test the room in full before they look, and write nothing of it.
ghost use Rattle.std.specs.Prelude.{◌≡◌};
ghost use Rattle.banavoge_laws.specs.Sitting.{TellsSitter, seat_of_key};

use crate::answer;
use key::Key;
use refusal::Refusal;
use room::{Room, lookup, whole};
use seat::Seat;

// The key in a seat: 0, or minus 11 or 3, and then the 32 bytes are as before.
pub fn banavoge_key_in(room: &[u8], seat: u8, key: &mut [u8; 32]) -> i32
    ensures { TellsSitter 40 32 seat room.now key.old key.new result }
{
    if !whole::is_whole(room, Room::SIZES) {
        return answer::refused(Refusal::RoomNotWhole);
    }
    if !lookup::is_taken(room, Room::SIZES, Seat(seat)) {
        return answer::refused(Refusal::NotSeated);
    }
    let Key(bytes) = lookup::key_in(room, Room::SIZES, Seat(seat));
    *key = bytes;
    0
}

// The seat of a key, or minus 11 or 3.
pub fn banavoge_seat_of(room: &[u8], key: &[u8; 32]) -> i32
    ensures { result ≡ seat_of_key 40 32 room.now key.now }
{
    if !whole::is_whole(room, Room::SIZES) {
        return answer::refused(Refusal::RoomNotWhole);
    }
    match lookup::seat_of(room, Room::SIZES, Key(*key)) {
        Some(seat) => i32::from(seat.0),
        None => answer::refused(Refusal::NotSeated),
    }
}
