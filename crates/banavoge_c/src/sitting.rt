// Who sits in a seat, and where a key sits. Both test the room in full before they look.
ghost use Rattle.std.specs.Prelude.{◌≡◌};
ghost use Rattle.banavoge_laws.specs.Sitting.{TellsSitter, seat_of_key};

#[unsafe(no_mangle)]
pub extern "C" fn banavoge_key_in(room: &[u8], seat: u8, key: &mut [u8; 32]) -> i32
    ensures { TellsSitter 40 32 seat room.now key.old key.new result }
{
    banavoge::sitting::banavoge_key_in(room, seat, key)
}

#[unsafe(no_mangle)]
pub extern "C" fn banavoge_seat_of(room: &[u8], key: &[u8; 32]) -> i32
    ensures { result ≡ seat_of_key 40 32 room.now key.now }
{
    banavoge::sitting::banavoge_seat_of(room, key)
}
