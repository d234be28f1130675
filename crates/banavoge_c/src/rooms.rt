// The room in the host's memory: its size, the empty room, and the test.
ghost use Rattle.std.specs.Prelude.{◌≡◌};
ghost use Rattle.room_laws.specs.Layout.{room_bytes};
ghost use Rattle.refusal.specs.declared.Refusal.TheVariants.{OutputTooShort};
ghost use Rattle.room_laws.specs.Store.{MakesEmpty};
ghost use Rattle.banavoge_laws.specs.Answers.{ToldAs};
ghost use Rattle.banavoge_laws.specs.Rooms.{done_or, room_code};

#[unsafe(no_mangle)]
pub extern "C" fn banavoge_room_bytes() -> usize
    ensures { result ≡ room_bytes 40 32 }
{
    banavoge::rooms::banavoge_room_bytes()
}

#[unsafe(no_mangle)]
pub extern "C" fn banavoge_room_empty(room: &mut [u8]) -> i32
    ensures { ToldAs (done_or OutputTooShort) (MakesEmpty 40 32 room.old room.new) result }
{
    banavoge::rooms::banavoge_room_empty(room)
}

#[unsafe(no_mangle)]
pub extern "C" fn banavoge_room_check(room: &[u8]) -> i32
    ensures { result ≡ room_code room.now }
{
    banavoge::rooms::banavoge_room_check(room)
}
