//! Parts of a model of which bytes alone tell where they end.

ghost use Rattle.std.specs.Prelude.{ℕ, List};
ghost use Rattle.model.specs.Wire.{WirePiece, WireFace, InRangePiece, InRangeFace};
ghost use Rattle.model.specs.Format.{piece_bytes, face_bytes};
ghost use Rattle.model.specs.Finds.{Found, StandsOnce, Skipped, ListEnds};

use super::fixed::{Fixed, Read};
use super::types::RawPlace;
use plane::types::Plane;

/// A kind of part.
// Where a byte stands is a plain number, as in a layout: with a cursor each clause would say too that its model is the same.
pub trait Part {
    // What its bytes mean.
    ghost Thing: { Type 0 };

    ghost bytes: { Thing → List ℕ };

    ghost range: { Thing → Type 0 };

    /// Where the part ends that stands at `at`.
    fn end(model: &[u8], at: usize) -> Option<usize>
        ensures found { Found bytes range model.now at result }
        ensures once { StandsOnce bytes range model.now at };
}

/// The pieces of a model.
#[derive(Clone, Copy, Debug, PartialEq, Eq)]
pub struct Piece;

impl Part for Piece {
    ghost Thing = { WirePiece };

    ghost bytes = { piece_bytes };

    ghost range = { InRangePiece };

    fn end(model: &[u8], at: usize) -> Option<usize> {
        let place = list_end::<Plane>(model, at)?;
        end_of::<RawPlace>(model, place)
    }
}

/// The faces of a model.
#[derive(Clone, Copy, Debug, PartialEq, Eq)]
pub struct Face;

impl Part for Face {
    ghost Thing = { WireFace };

    ghost bytes = { face_bytes };

    ghost range = { InRangeFace };

    fn end(model: &[u8], at: usize) -> Option<usize> {
        let edges = end_of::<Plane>(model, at)?;
        let place = list_end::<Plane>(model, edges)?;
        let corners = end_of::<RawPlace>(model, place)?;
        list_end::<RawPlace>(model, corners)
    }
}

/// Where n bytes from `at` on end.
fn skip(model: &[u8], at: usize, n: usize) -> Option<usize>
    ensures { Skipped model.now at n result }
{
    let end = at.checked_add(n)?;
    (end <= model.len()).then_some(end)
}

/// Where a thing of a fixed number of bytes ends that stands at `at`.
pub(super) fn end_of<T: Fixed>(model: &[u8], at: usize) -> Option<usize>
    ensures { Skipped model.now at T.SIZE result }
{
    skip(model, at, T::SIZE)
}

/// Where a list of such things ends whose number stands at `at`.
fn list_end<T: Fixed>(model: &[u8], at: usize) -> Option<usize>
    ensures { ListEnds model.now at T.SIZE result }
{
    let begin = end_of::<u16>(model, at)?;
    skip(model, begin, T::SIZE * usize::from(u16::read(model, at)))
}
