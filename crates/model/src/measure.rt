//! How far a model reaches in bytes that may be anything.

ghost use Rattle.std.specs.Int.{w32};
ghost use Rattle.model.specs.Format.{listed};
ghost use Rattle.model.specs.Finds.{Few, Found};
ghost use Rattle.model.specs.Extents.{Measured, ReadAgain};

use super::fixed::Read;
use super::parts::{Face, Part, Piece, end_of};
use super::types::{Layout, Misfit};

/// Where a list of parts ends whose number stands at `from`.
fn parts_end<P: Part>(model: &[u8], from: usize) -> Option<usize>
    ensures { Found (listed w32 P.bytes) (Few P.range w32) model.now from result }
{
    let begin = end_of::<u32>(model, from)?;
    (0..u32::read(model, from)).try_fold(begin, |at, _| P::end(model, at))
}

/// Where the parts of the model stand that the bytes are.
pub fn extent(model: &[u8]) -> Result<Layout, Misfit>
    ensures measured { Measured model.now result }
    ensures again { ReadAgain model.now result }
{
    let middle = parts_end::<Piece>(model, 0).ok_or(Misfit::Short)?;
    let end = parts_end::<Face>(model, middle).ok_or(Misfit::Short)?;
    if end < model.len() {
        return Err(Misfit::Long(end));
    }
    Ok(Layout {
        pieces: u32::read(model, 0) as usize,
        middle,
        faces: u32::read(model, middle) as usize,
    })
}
