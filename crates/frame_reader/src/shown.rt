// The frame that a call showed, as a part of one of two lent slices: the piece that was read, or the keep. The parts are taken by index, not by `get`, of which
// no contract says where in the whole a part begins.
ghost use Rattle.frame_reader.specs.Parts.{IsPart, frame_part, sealed_part};

use crate::LENGTH_BYTES;
use frame::Shown;
use refusal::Refusal;

// The frame, with its length. Where none is shown, or one that ends past the slice, the empty front of the piece.
pub fn frame<'a>(shown: Result<Shown, Refusal>, keep: &'a [u8], piece: &'a [u8]) -> &'a [u8]
    ensures { IsPart (frame_part shown keep.entry piece.entry) result }
{
    match shown {
        Ok(Shown::InPiece(end)) if end <= piece.len() => &piece[..end],
        Ok(Shown::InKeep(end)) if end <= keep.len() => &keep[..end],
        _ => &piece[..0],
    }
}

// Its sealed bytes: the frame without its length. Where fewer bytes are shown than a length has, the empty front of the piece.
pub fn sealed<'a>(shown: Result<Shown, Refusal>, keep: &'a [u8], piece: &'a [u8]) -> &'a [u8]
    ensures { IsPart (sealed_part shown keep.entry piece.entry) result }
{
    let whole = frame(shown, keep, piece);
    if whole.len() < LENGTH_BYTES {
        return &piece[..0];
    }
    &whole[LENGTH_BYTES..]
}
