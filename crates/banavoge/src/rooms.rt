// The room in the host's memory: its size, the empty room, and the test. Document 01's section "The room"; docs/ARCHITECTURE.md draws the memory.
ghost use Rattle.std.specs.Prelude.{◌≡◌};
ghost use Rattle.room_laws.specs.Layout.{room_bytes};
ghost use Rattle.refusal.specs.declared.Refusal.TheVariants.{OutputTooShort};
ghost use Rattle.room_laws.specs.Store.{MakesEmpty};
ghost use Rattle.banavoge_laws.specs.Answers.{ToldAs};
ghost use Rattle.banavoge_laws.specs.Rooms.{done_or, room_code};

use crate::answer;
use refusal::Refusal;
use room::{Room, whole};

// How many bytes of memory a room takes; longer memory is taken too.
pub fn banavoge_room_bytes() -> usize
    ensures { result ≡ room_bytes 40 32 }
{
    Room::BYTES
}

// Makes the memory the empty room: 0, or minus 10 for memory too short, and then nothing changes.
pub fn banavoge_room_empty(room: &mut [u8]) -> i32
    ensures { ToldAs (done_or OutputTooShort) (MakesEmpty 40 32 room.old room.new) result }
{
    answer::done_or(Refusal::OutputTooShort, Room::empty(room))
}

// Tests the memory in full: 0 where it holds a whole room, or minus 11.
#[tactic(auto, unfolding(banavoge_laws::specs::Rooms::room_code))]
pub fn banavoge_room_check(room: &[u8]) -> i32
    ensures { result ≡ room_code room.now }
{
    answer::done_or(Refusal::RoomNotWhole, whole::is_whole(room, Room::SIZES))
}
