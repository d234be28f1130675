// Frames of a TCP stream. Document 02: "Each frame is a 2-byte length and that many sealed bytes." Here are the types that a call of the reader takes and
// answers; `specs/` has what it answers, `proofs/` the laws. The functions stand in `frame_reader`.
#![tactic(auto)]

use refusal::Refusal;

// What stands at the front of bytes: the start of a frame whose end is still to come, a length that no frame has, or a whole frame of so many bytes.
// Three outcomes of equal rank, none a refusal: what a bad length means is for the caller to say.
#[derive(Clone, Copy, PartialEq, Eq, Debug)]
pub enum Front {
    Unfinished,
    BadLength,
    Whole(usize),
}

// A reader between two calls: how many bytes at the front of its keep start an unfinished frame. A new one holds 0; one that was refused with 18 holds 2,051.
// A number and no enum: a C host keeps it, and may hand in any.
#[derive(Clone, Copy, PartialEq, Eq, Debug)]
pub struct Reader {
    pub held: usize,
}

// What a call shows. A frame begins at the front of the piece or of the keep, with its length; the number is where it ends. `More`: no frame is complete, and
// all of the piece is used.
#[derive(Clone, Copy, PartialEq, Eq, Debug)]
pub enum Shown {
    More,
    InPiece(usize),
    InKeep(usize),
}

// What a call answers: what it shows or its refusal, the reader for the next call, and how many bytes of the piece were used. A refused call too hands a reader
// on.
#[derive(Clone, Copy, PartialEq, Eq, Debug)]
pub struct Read {
    pub shown: Result<Shown, Refusal>,
    pub reader: Reader,
    pub used: usize,
}
