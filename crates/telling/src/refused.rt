// A refusal: its number, and the papers' words for it.
use refusal::Refusal;
use std::fmt;

#[derive(Clone, Copy)]
pub struct Refused(pub Refusal);

impl fmt::Display for Refused {
    fn fmt<W: fmt::Write>(&self, f: &mut fmt::Formatter<W>) -> fmt::Result {
        let why = self.0;
        let number = why.number();
        write!(f, "refused with {number}: {why}")
    }
}
