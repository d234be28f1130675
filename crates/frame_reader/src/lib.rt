// The reader of frames. Document 02: "TCP gives us scraps." A call is lent the keep and the next piece of the stream, ends with its first complete frame or
// the piece, and counts the bytes used; the next call goes on after them.
//
// Between two calls the reader is one number, how many bytes at the front of the keep start an unfinished frame; what stands behind them is never read. After 18
// the number is one that no keep makes good.
#![tactic(auto)]

ghost use Rattle.std.specs.Prelude.{◌≡◌, ◌+◌, ◌≤◌, length, take};
ghost use Rattle.frame.specs.Frames.{front};
ghost use Rattle.frame.specs.declared.Front.TheVariants.{Unfinished, Whole};
ghost use Rattle.frame.specs.Reader.{keep_bytes, refused_read, read_front, read_held, read_frame};

mod joined;
pub mod shown;

use frame::{Front, Read, Reader, Shown};
use refusal::Refusal;

// A frame begins with its length, which counts the sealed bytes behind it.
pub(crate) const LENGTH_BYTES: usize = 2;

pub(crate) const SHORTEST_LENGTH: usize = 17;

pub(crate) const LONGEST_LENGTH: usize = 2048;

// As many bytes as the longest frame has: a reader that holds so many holds no unfinished frame.
pub const KEEP_BYTES: usize = LENGTH_BYTES + LONGEST_LENGTH;

// What a reader holds after 18. Such a reader is refused whatever the keep holds, "until begun anew".
const BROKEN: Reader = Reader {
    held: KEEP_BYTES + 1,
};

// Reads a piece of the stream: 10, 18. A frame that stands whole in the piece is shown there and nothing is copied; one that began in an earlier piece is
// finished in the keep and shown there.
pub fn read(reader: Reader, keep: &mut [u8], piece: &[u8]) -> Read
    ensures value { result ≡ (read_frame reader keep.old piece.now).read }
    ensures keep_after { keep.new ≡ (read_frame reader keep.old piece.now).keep }
{
    let held = reader.held;
    if keep.len() < KEEP_BYTES {
        return refused(Refusal::OutputTooShort, reader);
    }
    // no unfinished frame is so long; from here on what is held lies within the keep
    if KEEP_BYTES <= held {
        return refused(Refusal::BadFrame, BROKEN);
    }
    // the bytes held alone, before the piece is looked at
    match joined::front_of(&keep[..held], &piece[..0]) {
        Front::Unfinished => go_on(held, keep, piece),
        Front::BadLength | Front::Whole(_) => refused(Refusal::BadFrame, BROKEN),
    }
}

// "A call [..] counts the bytes used, 0 if refused".
fn refused(why: Refusal, reader: Reader) -> Read
    ensures { result ≡ refused_read why reader }
{
    Read {
        shown: Err(why),
        reader,
        used: 0,
    }
}

// The piece goes on after the bytes held, which start an unfinished frame. Here and below the keep is lent by itself, not in a struct beside the number and the
// piece, so that each contract says what is left in it.
fn go_on(held: usize, keep: &mut [u8], piece: &[u8]) -> Read
    requires long_keep { keep_bytes ≤ length keep.old }
    requires held_in_keep { held ≤ length keep.old }
    requires unfinished { front (take held keep.old) ≡ Unfinished }
    ensures value { result ≡ (read_held Unfinished (take held keep.old) piece.now keep.old).read }
    ensures keep_after { keep.new ≡ (read_held Unfinished (take held keep.old) piece.now keep.old).keep }
{
    match joined::front_of(&keep[..held], piece) {
        Front::Unfinished => hold(held, keep, piece),
        Front::BadLength => refused(Refusal::BadFrame, BROKEN),
        Front::Whole(size) => finish(size, held, keep, piece),
    }
}

// Copies all of the piece behind the bytes held.
fn hold(held: usize, keep: &mut [u8], piece: &[u8]) -> Read
    requires { held + length piece.now ≤ length keep.old }
    ensures value { result ≡ (read_front Unfinished (take held keep.old) piece.now keep.old).read }
    ensures keep_after { keep.new ≡ (read_front Unfinished (take held keep.old) piece.now keep.old).keep }
{
    let used = piece.len();
    let all = held + used;
    keep[held..all].copy_from_slice(piece);
    Read {
        shown: Ok(Shown::More),
        reader: Reader { held: all },
        used,
    }
}

// Shows a whole frame of so many bytes; of one that began in an earlier piece, what it lacks is copied behind the bytes held.
fn finish(size: usize, held: usize, keep: &mut [u8], piece: &[u8]) -> Read
    requires fits_keep { size ≤ length keep.old }
    requires is_there { size ≤ held + length piece.now }
    requires past_held { held ≤ size }
    ensures value { result ≡ (read_front (Whole size) (take held keep.old) piece.now keep.old).read }
    ensures keep_after { keep.new ≡ (read_front (Whole size) (take held keep.old) piece.now keep.old).keep }
{
    let reader = Reader { held: 0 };
    if held == 0 {
        return Read {
            shown: Ok(Shown::InPiece(size)),
            reader,
            used: size,
        };
    }
    let lacked = size - held;
    keep[held..size].copy_from_slice(&piece[..lacked]);
    Read {
        shown: Ok(Shown::InKeep(size)),
        reader,
        used: lacked,
    }
}
