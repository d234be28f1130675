// The test of a list where it stands in lent bytes: its keys are compared in place, and no list is read out.
ghost use Rattle.std.specs.Prelude.{◌≡◌, ◌/◌, length};
ghost use Rattle.nearest.specs.Lists.{all_known, rising};
ghost use Rattle.lent_list_laws.specs.Layout.{slot_length, slots_at};
ghost use Rattle.lent_list.specs.Standing.{standing};

use crate::layout::{self, Lent};
use crate::{memory, slot};
use key::in_place;
use nearest::NearestList;
use refusal::Refusal;

// Whether a whole list stands in the memory, and keeps its own rules: 12, 14. The size is asked for first: of memory too short, 12 where the first byte is no
// size; else 14, as without a byte.
pub(crate) fn check(memory: &[u8]) -> Result<(), Refusal>
    ensures { result ≡ standing memory.now }
{
    if memory.is_empty() {
        return Err(Refusal::ListNotWhole);
    }
    let size = usize::from(memory[layout::SIZE]);
    if !NearestList::size_right(size) {
        return Err(Refusal::ListSize);
    }
    if memory.len() < memory::BYTES {
        return Err(Refusal::ListNotWhole);
    }
    if size < usize::from(memory[layout::COUNT]) {
        return Err(Refusal::ListNotWhole);
    }
    let list = Lent::of(memory);
    let held = list.held();
    if !all_known(held) || !rising(list.target(), held) {
        return Err(Refusal::ListNotWhole);
    }
    Ok(())
}

// Whether the family of each node held is known.
fn all_known(held: &[u8]) -> bool
    ensures { result ≡ all_known (slots_at (length held.now / slot_length) held.now) }
{
    held.chunks_exact(layout::SLOT_END)
        .all(|slot| node::family::known(slot[layout::FAMILY]))
}

// Whether the nodes held are strictly rising in distance: neighbours decide.
fn rising(target: &[u8], held: &[u8]) -> bool
    requires { length target.now ≡ 32 }
    ensures { result ≡ rising target.now (slots_at (length held.now / slot_length) held.now) }
{
    let count = held.len() / layout::SLOT_END;
    (1..count).all(|i| in_place::nearer(target, slot::key_at(held, i - 1), slot::key_at(held, i)))
}
