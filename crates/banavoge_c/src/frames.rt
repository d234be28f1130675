// The reader of frames.
ghost use Rattle.frame.specs.Reader.{reader_holding, read_frame};
ghost use Rattle.banavoge_laws.specs.Frames.{frame_places, ReadsFrame};

#[unsafe(no_mangle)]
pub extern "C" fn banavoge_frame_read(
    held: &mut usize,
    keep: &mut [u8],
    piece: &[u8],
    used: &mut usize,
    end: &mut usize,
) -> i32
    ensures { ReadsFrame (read_frame (reader_holding held.old) keep.old piece.now) result (frame_places held.old used.old end.old) (frame_places held.new used.new end.new) keep.new }
{
    banavoge::frames::banavoge_frame_read(held, keep, piece, used, end)
}
