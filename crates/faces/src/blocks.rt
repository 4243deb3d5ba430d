//! What of a box lies in the workshop: a block, and the piece that it is.

ghost use Rattle.std.specs.Prelude.{◌≡◌, int_lt};
ghost use Rattle.std.specs.List.{AllByRecursion};
ghost use Rattle.plane.specs.Limits.{FitsPlane, SmallPlace};
ghost use Rattle.solid.specs.Shapes.{solid, plane as plane_by};
ghost use Rattle.solid.specs.Models.{Right};
ghost use Rattle.faces.specs.Blocks.{as_shape, cut_span, cut, thick, left_of, box_model, block_piece};

use super::types::{Block, Bounds, Span};
use plane::types::{Place, Plane, REACH};

/// Where the workshop ends.
const END: i64 = REACH as i64;

/// A plane by its numbers.
fn by_numbers(a: i64, b: i64, c: i64, d: i64) -> Plane
    ensures { result ≡ plane_by a b c d }
{
    Plane { a, b, c, d }
}

impl Span {
    /// What lies in the workshop.
    fn cut_off(self) -> Span
        ensures { result ≡ cut_span self }
    {
        Span {
            low: self.low.max(-END),
            high: self.high.min(END),
        }
    }

    /// Whether there are numbers within it.
    fn is_thick(self) -> bool
        ensures { result ≡ int_lt self.low self.high }
    {
        self.low < self.high
    }
}

impl Bounds {
    /// What lies in the workshop.
    #[tactic(auto, unfolding(crate::specs::Blocks::cut))]
    fn cut_off(self) -> Bounds
        ensures { result ≡ cut self }
    {
        Bounds {
            x: self.x.cut_off(),
            y: self.y.cut_off(),
            z: self.z.cut_off(),
        }
    }

    /// Whether there are places within them.
    #[tactic(auto, unfolding(crate::specs::Blocks::thick))]
    fn is_thick(self) -> bool
        ensures { result ≡ thick self }
    {
        self.x.is_thick() && self.y.is_thick() && self.z.is_thick()
    }
}

impl Block {
    /// What of a box lies in the workshop; none if nothing does. The model of that, `model_of` the result, is
    /// right for the box.
    pub fn of(bounds: Bounds) -> Option<Block>
        ensures value { result ≡ left_of bounds }
        ensures right { Right (solid (as_shape bounds)) (box_model bounds) }
    {
        let bounds = bounds.cut_off();
        if bounds.is_thick() {
            Some(Block { bounds })
        } else {
            None
        }
    }

    /// The planes of the block's piece: those toward more x and less x, then y, then z.
    pub fn walls(self) -> [Plane; 6]
        ensures value { result ≡ (block_piece self).planes }
        ensures fits { AllByRecursion FitsPlane result }
    {
        let b = self.bounds;
        [
            by_numbers(1, 0, 0, b.x.high),
            by_numbers(-1, 0, 0, -b.x.low),
            by_numbers(0, 1, 0, b.y.high),
            by_numbers(0, -1, 0, -b.y.low),
            by_numbers(0, 0, 1, b.z.high),
            by_numbers(0, 0, -1, -b.z.low),
        ]
    }

    /// The place in the middle of the block.
    pub fn middle(self) -> Place
        ensures value { result ≡ (block_piece self).place }
        ensures fits { SmallPlace result }
    {
        let b = self.bounds;
        Place {
            x: b.x.low + b.x.high,
            y: b.y.low + b.y.high,
            z: b.z.low + b.z.high,
            w: 2,
        }
    }
}
