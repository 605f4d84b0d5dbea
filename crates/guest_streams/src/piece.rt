//! One piece of output on its way to the sink of its stream.

ghost use Rattle.std.specs.Prelude.{◌≡◌, ◌⊎◌};
ghost use Rattle.speculation.specs.Run.{marked};
ghost use Rattle.guest_streams.specs.GuestStreams.{WritesPiece, sinks_of};

use host_io::{Failed, Sink, write_whole};

/// Writes a piece of a guest's output whole to the sink of its stream: `out` for stream 1, `notes` for stream 2.
///
/// # Errors
/// `Failed` where that sink failed. It then has a beginning of the piece that is shorter.
pub fn write_piece<O: Sink, N: Sink>(
    stream: u8,
    piece: &[u8],
    out: &mut O,
    notes: &mut N,
) -> Result<(), Failed>
    requires { (stream ≡ 1) ⊎ (stream ≡ 2) }
    ensures { WritesPiece
        (sinks_of O.Sink N.Sink out.old notes.old) (sinks_of O.Sink N.Sink out.new notes.new)
        (marked stream piece.now) result }
{
    if stream == 1 {
        write_whole(out, piece)
    } else {
        write_whole(notes, piece)
    }
}
