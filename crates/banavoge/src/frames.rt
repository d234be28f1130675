// The reader of frames. Document 02, Req 01; the keep and the number of bytes held are the host's.
ghost use Rattle.std.specs.Prelude.{◌≡◌};
ghost use Rattle.frame.specs.Reader.{reader_holding, read_frame};
ghost use Rattle.banavoge_laws.specs.Frames.{frame_places, shown_code, end_after, ReadsFrame};

use crate::answer;
use frame::{Reader, Shown};
use refusal::Refusal;

// 0 more, 1 a frame in the piece, 2 a frame in the keep, or minus the refusal's number.
#[tactic(auto, unfolding(banavoge_laws::specs::Frames::shown_code))]
fn shown_code(shown: Result<Shown, Refusal>) -> i32
    ensures { result ≡ shown_code shown }
{
    match shown {
        Ok(Shown::More) => 0,
        Ok(Shown::InPiece(_)) => 1,
        Ok(Shown::InKeep(_)) => 2,
        Err(why) => answer::refused(why),
    }
}

// Where a frame that is shown ends; where none is, what stood there.
#[tactic(auto, unfolding(banavoge_laws::specs::Frames::end_after))]
fn end_after(shown: Result<Shown, Refusal>, before: usize) -> usize
    ensures { result ≡ end_after shown before }
{
    match shown {
        Ok(Shown::InPiece(end) | Shown::InKeep(end)) => end,
        Ok(Shown::More) | Err(_) => before,
    }
}

// Reads a piece of a stream: 0, 1, 2, or minus 10 or 18. A refusal sets used to 0, and 18 leaves held at 2,051; nothing else is set then.
#[tactic(auto, unfolding(banavoge_laws::specs::Frames::frame_places_after))]
pub fn banavoge_frame_read(
    held: &mut usize,
    keep: &mut [u8],
    piece: &[u8],
    used: &mut usize,
    end: &mut usize,
) -> i32
    ensures { ReadsFrame (read_frame (reader_holding held.old) keep.old piece.now) result (frame_places held.old used.old end.old) (frame_places held.new used.new end.new) keep.new }
{
    let reader = Reader { held: *held };
    let read = frame_reader::read(reader, keep, piece);
    *held = read.reader.held;
    *used = read.used;
    *end = end_after(read.shown, *end);
    shown_code(read.shown)
}
