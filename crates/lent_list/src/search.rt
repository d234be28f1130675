// Where a key stands among the slots of a list in lent bytes, and where it would go. Keys are compared where they stand. `nearest` searches nodes by value in the same
// way: each search is one chain, so one that served both would be no plainer.
ghost use Rattle.std.specs.Prelude.{◌≡◌, position};
ghost use Rattle.key.specs.Keys.{same_key};
ghost use Rattle.nearest.specs.Lists.{node_key, held};
ghost use Rattle.nearest.specs.Slots as slots;
ghost use Rattle.lent_list_laws.specs.Layout.{list_at};

use crate::layout::{self, Lent};
use key::{Key, in_place};

// How many of the nodes held, from the front, are nearer than the key.
pub(crate) fn place(list: Lent, key: &[u8; Key::BYTES]) -> usize
    ensures { result ≡ slots.position (list_at list.entry.memory.now).target.0 key.now (held (list_at list.entry.memory.now)) }
{
    let target = list.target();
    let further = list.held().chunks_exact(layout::SLOT_END).position(|slot| !in_place::nearer(
        target,
        &slot[layout::KEY..layout::SLOT_END],
        key,
    ));
    further.unwrap_or(list.count())
}

// Where the key stands among the nodes held.
pub(crate) fn find(list: Lent, key: &[u8; Key::BYTES]) -> Option<usize>
    ensures { result ≡ position (λ node. same_key (node_key node) key.now) (held (list_at list.entry.memory.now)) }
{
    list.held().chunks_exact(layout::SLOT_END).position(|slot| in_place::equals(
        &slot[layout::KEY..layout::SLOT_END],
        key,
    ))
}
