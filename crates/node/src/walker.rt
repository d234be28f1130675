// The walker of a lent node list. It holds the list, its place and the count shown, and is handed on by value; the work is `walk::step`'s.
//
//     let mut walker = Walker::begin(list);
//     loop: let stepped = walker.step(); .. what it shows ..; walker = walker.after(stepped);
//
// It is no iterator: after a refusal document 01's walker answers the same again, and an iterator that repeated its refusal would never end.
ghost use Rattle.std.specs.Prelude.{◌≡◌};
ghost use Rattle.node.specs.Steps.{Steps, place_answered, count_answered};

use crate::walk;
use crate::walk::Next;
use refusal::Refusal;

#[derive(Clone, Copy)]
pub struct Walker<'a> {
    pub list: &'a [u8],
    pub place: usize,
    pub count: usize,
}

impl<'a> Walker<'a> {
    // At the start of a list, with no node shown.
    pub fn begin(list: &'a [u8]) -> Walker<'a>
        ensures { result ≡ record { list = list.entry; place = 0; count = 0 } }
    {
        Walker {
            list,
            place: 0,
            count: 0,
        }
    }

    // Shows the next node, or says end, or is refused.
    pub fn step(self) -> Result<Option<Next>, Refusal>
        ensures { Steps self.entry.list.now self.entry.place self.entry.count result }
    {
        walk::step(self.list, self.place, self.count)
    }

    // The walker after a step: at the place and with the count that come with the node shown, and as it was where none is.
    #[tactic(auto, unfolding(crate::specs::Steps::place_answered, crate::specs::Steps::count_answered))]
    pub fn after(self, stepped: Result<Option<Next>, Refusal>) -> Walker<'a>
        ensures { result ≡ record { list = self.entry.list; place = place_answered self.entry.place stepped; count = count_answered self.entry.count stepped } }
    {
        match stepped {
            Ok(Some(next)) => Walker {
                list: self.list,
                place: next.place,
                count: next.count,
            },
            Ok(None) | Err(_) => self,
        }
    }
}

// The step of a walker at any place and count, for callers that cannot hold a walker: a C host keeps its place and count itself.
pub fn step_from(list: &[u8], place: usize, count: usize) -> Result<Option<Next>, Refusal>
    ensures { Steps list.now place count result }
{
    Walker { list, place, count }.step()
}
