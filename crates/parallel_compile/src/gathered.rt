//! Pieces, each a tape with its number, are put in order.

ghost use Rattle.std.specs.Prelude.{◌≡◌, IfErr, IfOk};
ghost use Rattle.parallel_compile.specs.Gathered.{AreGathered, IsOfPieces, piece_numbers};

use crate::fault::CompileFault;
use crate::place::{first_free, free_places, lesser, put_all, unwrap_all};
use cbch_blocks::Tape;
use std::alloc::Global;

/// The tapes of `n` pieces, that of the piece with number i in place i, from 0. Of pieces 1 and 0 it returns the tape
/// of 0 and then that of 1.
///
/// # Errors
///
/// Returns [`CompileFault::Piece`] unless each number below `n` is that of one piece and no piece has another, with the
/// least number that is missing, that several pieces have, or that isn't below `n`. Returns [`CompileFault::Refused`]
/// if out of memory.
pub fn gather(alloc: Global, n: usize, pieces: Vec<(u64, Tape)>) -> Result<Vec<Tape>, CompileFault>
    ensures ok { IfOk result (λ tapes. AreGathered n pieces.items tapes.items) }
    ensures err { IfErr result (IsOfPieces n (piece_numbers pieces.items)) }
{
    let mut places = free_places(alloc, n)?;
    let spoilt = put_all(&mut places, pieces);
    let missing = first_free(places.as_slice());
    match lesser(spoilt, missing) {
        Some(index) => Err(CompileFault::Piece { index }),
        None => unwrap_all(alloc, places),
    }
}
