// Where each part of a nearest list stands in lent bytes. No other file of the code knows an offset; docs/ARCHITECTURE.md has the picture.
ghost use Rattle.std.specs.Prelude.{◌≡◌, ◌*◌, ◌≤◌, length, get_or, take, drop};
ghost use Rattle.lent_list_laws.specs.Layout.{size_place, count_place, target_place, slots_place, list_length, slot_length, slots_length, slot_number};

use key::Key;
use nearest::NearestList;
use node::family;

// The list: size, count, target key, slots. A size and a count are a byte each.
pub(crate) const SIZE: usize = 0;

pub(crate) const COUNT: usize = 1;

pub(crate) const TARGET: usize = 2;

pub(crate) const SLOTS: usize = TARGET + Key::BYTES;

pub(crate) const END: usize = SLOTS + NearestList::LARGEST_SIZE * SLOT_END;

// A slot, in one form for every family: all 16 address bytes are kept as they were given.
pub(crate) const FAMILY: usize = 0;

pub(crate) const ADDRESS: usize = FAMILY + family::FAMILY_BYTES;

pub(crate) const PORT: usize = ADDRESS + 16;

pub(crate) const KEY: usize = PORT + family::PORT_BYTES;

pub(crate) const SLOT_END: usize = KEY + Key::BYTES;

// Memory that holds a whole list, whose count is no more than there are slots: each part of the list stands in it.
#[derive(Clone, Copy)]
pub(crate) struct Lent<'a> {
    memory: &'a [u8],
    ghost long: { list_length ≤ length memory.now },
    ghost few: { get_or memory.now count_place 0 ≤ slot_number },
}

impl<'a> Lent<'a> {
    // Asks for what `whole::check` has tested, so that no caller tests it twice.
    pub(crate) fn of(memory: &'a [u8]) -> Self
        requires long { list_length ≤ length memory.now }
        requires few { get_or memory.now count_place 0 ≤ slot_number }
        ensures { result.memory.now ≡ memory.now }
    {
        Lent { memory }
    }

    pub(crate) fn size(self) -> usize
        ensures { result ≡ get_or self.entry.memory.now size_place 0 }
    {
        usize::from(self.memory[SIZE])
    }

    // How many nodes are held.
    pub(crate) fn count(self) -> usize
        ensures { result ≡ get_or self.entry.memory.now count_place 0 }
    {
        usize::from(self.memory[COUNT])
    }

    // The target key.
    pub(crate) fn target(self) -> &'a [u8]
        ensures { result.now ≡ take 32 (drop target_place self.entry.memory.now) }
    {
        &self.memory[TARGET..SLOTS]
    }

    // All slots.
    pub(crate) fn slots(self) -> &'a [u8]
        ensures { result.now ≡ take slots_length (drop slots_place self.entry.memory.now) }
    {
        &self.memory[SLOTS..END]
    }

    // The slots that hold nodes.
    pub(crate) fn held(self) -> &'a [u8]
        ensures { result.now ≡ take (get_or self.entry.memory.now count_place 0 * slot_length) (drop slots_place self.entry.memory.now) }
    {
        let end = SLOTS + self.count() * SLOT_END;
        &self.memory[SLOTS..end]
    }
}
