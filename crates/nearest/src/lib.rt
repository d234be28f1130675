// The nearest list: the nodes whose keys are nearest to a target, nearest first. Document 01's section "The nearest list".
//
// A list is a value: a call takes it and hands it back, changed or as it stood, with its answer beside it. Where nodes come from, and who asks
// them for more, stay with the host.
#![tactic(auto)]

ghost use Rattle.std.specs.Prelude.{◌≡◌, ◌≤◌};
ghost use Rattle.nearest.specs.Lists.{largest_size, default_size, held, empty_of, size_right};
ghost use Rattle.nearest.specs.Slots.{IsList};
ghost use Rattle.nearest.specs.Calls.{begun, checked, offered, removed};

mod slots;

use key::Key;
use node::Node;
use refusal::Refusal;

// The first `count` slots hold nodes. What the others hold is never read; in a list made by `begin` and changed only here they are blank. A list
// is a plain value that takes no memory elsewhere, so the count stands beside slots for the most nodes.
#[derive(Clone, Copy)]
pub struct NearestList {
    pub target: Key,
    pub size: usize,
    pub count: usize,
    pub nodes: [Node; 16],
}

// What a call hands back: the list, changed or as it stood, and its answer beside it.
#[derive(Clone, Copy)]
pub struct Answered<T> {
    pub list: NearestList,
    pub answer: Result<T, Refusal>,
}

impl NearestList {
    // Document 01: "A list has a target key and a size of 1 to 16."
    pub const SMALLEST_SIZE: usize = 1;

    pub const LARGEST_SIZE: usize = 16;

    // The size of the empty list that is given, and of what a bad size begins.
    pub const DEFAULT_SIZE: usize = 8;

    // The empty list of size 8.
    pub fn empty(target: Key) -> Self
        ensures { result ≡ empty_of target default_size }
    {
        let blank = Node::blank();
        NearestList {
            target,
            size: NearestList::DEFAULT_SIZE,
            count: 0,
            nodes: [blank; 16],
        }
    }

    // The empty list of a size; for a bad size 12, and the empty list of size 8.
    pub fn begin(target: Key, size: usize) -> Answered<()>
        ensures { result ≡ begun target size }
    {
        let mut list = NearestList::empty(target);
        if !NearestList::size_right(size) {
            return Answered {
                list,
                answer: Err(Refusal::ListSize),
            };
        }
        list.size = size;
        Answered {
            list,
            answer: Ok(()),
        }
    }

    // Whether a list may be of this size: 1 to 16.
    #[tactic(auto, unfolding(crate::specs::Lists::size_right))]
    pub fn size_right(size: usize) -> bool
        ensures { result ≡ size_right size }
    {
        NearestList::SMALLEST_SIZE <= size && size <= NearestList::LARGEST_SIZE
    }

    // Whether the list keeps its own rules: 12, 14.
    #[tactic(auto, using(crate::proofs::Judge::small_size))]
    pub fn check(self) -> Result<(), Refusal>
        ensures { result ≡ checked self }
    {
        if !NearestList::size_right(self.size) {
            return Err(Refusal::ListSize);
        }
        if self.size < self.count {
            return Err(Refusal::ListNotWhole);
        }
        if !slots::all_known(self.held()) || !slots::rising(self.target, self.held()) {
            return Err(Refusal::ListNotWhole);
        }
        Ok(())
    }

    // Offers a node: 12, 14, 15. A held key has its node replaced; else, with room, the node is put in; else, if nearer than the furthest, it
    // takes that one's room; else it is not kept.
    pub fn offer(mut self, node: Node) -> Answered<bool>
        ensures { result ≡ offered self node }
    {
        let answer = self.keep(node);
        Answered { list: self, answer }
    }

    // Takes out the node of a key: 12, 14, 13.
    pub fn remove(mut self, key: Key) -> Answered<()>
        ensures { result ≡ removed self key }
    {
        let answer = self.take_out(key);
        Answered { list: self, answer }
    }

    // The nodes that are held.
    fn held(&self) -> &[Node]
        requires { self.now.count ≤ largest_size }
        ensures { result.now ≡ held self.now }
    {
        &self.nodes[..self.count]
    }

    // The offer, on a list that stays where it is. A list that is lent does not tell how long its keys are, so the caller, who holds it by value, does.
    #[tactic(auto, using(crate::proofs::Judge::few_held, crate::proofs::Judge::size_within))]
    fn keep(&mut self, node: Node) -> Result<bool, Refusal>
        requires { IsList self.old }
        ensures { offered self.old node ≡ record { list = self.new; answer = result } }
    {
        self.check()?;
        if !node::family::known(node.family) {
            return Err(Refusal::UnknownFamily);
        }
        let count = self.count;
        let place = slots::place(self.target, self.held(), node.key);
        if place < count && self.nodes[place].key.equals(node.key) {
            self.nodes[place] = node;
            return Ok(true);
        }
        if count < self.size {
            self.count = count + 1;
            slots::open_at(&mut self.nodes[..=count], place, node);
            return Ok(true);
        }
        if place < count {
            slots::open_at(&mut self.nodes[..count], place, node);
            return Ok(true);
        }
        Ok(false)
    }

    // The removal, on a list that stays where it is.
    #[tactic(auto, using(crate::proofs::Judge::few_held))]
    fn take_out(&mut self, key: Key) -> Result<(), Refusal>
        requires { IsList self.old }
        ensures { removed self.old key ≡ record { list = self.new; answer = result } }
    {
        self.check()?;
        let count = self.count;
        let index = slots::find(self.held(), key).ok_or(Refusal::KeyNotHeld)?;
        slots::close_at(&mut self.nodes[..count], index);
        self.count = count - 1;
        Ok(())
    }
}
