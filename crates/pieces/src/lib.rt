// Laying pieces of bytes out one after another in a lent buffer, as the finder's lines and the cues of a book are. It depends on `matching` for case analysis alone.
// A piece that does not fit into what is left of the buffer is left out, whole; a buffer that is long enough holds every piece (proofs/Laid.antt).
#![tactic(auto)]

ghost use Rattle.pieces.specs.Pieces.{Laid, put};

// Puts a piece into the buffer from `at` on, if it fits there: where the next piece goes.
#[tactic(auto, unfolding(crate::specs::Pieces::put))]
pub fn put_bytes(buffer: &mut [u8], at: usize, piece: &[u8]) -> usize
    ensures { Laid buffer.new result (put buffer.old at piece.now) }
{
    if buffer.len() < piece.len() {
        return at;
    }
    if buffer.len() - piece.len() < at {
        return at;
    }
    // By a loop, since `copy_from_slice` calls `memmove`, which an archive for C is not to need.
    for i in 0..piece.len() {
        buffer[at + i] = piece[i];
    }
    at + piece.len()
}
