//! The faces of a block. Those across x are made as such, and the others as faces across x that are turned
//! from x to y to z to x.

ghost use Rattle.std.specs.Prelude.{◌≡◌, ◌<◌, [], ◌∷◌};
ghost use Rattle.arith.specs.Bounds.{Short};
ghost use Rattle.plane.specs.Limits.{reach};
ghost use Rattle.plane.specs.Moves.{rolled_place};
ghost use Rattle.solid.specs.Shapes.{At};
ghost use Rattle.faces.specs.Blocks.{middle_at, round_at, high_face, low_face, rolled_face, rolled_back, block_faces};

use super::types::{Block, Bounds, Rectangle};
use plane::types::{Place, Plane};

/// A place with whole numbers.
fn whole(x: i64, y: i64, z: i64) -> Place
    ensures { result ≡ record { x = x; y = y; z = z; w = 1 } }
{
    Place { x, y, z, w: 1 }
}

/// A place turned from x to y to z to x.
#[tactic(auto, unfolding(plane::specs::Moves::rolled_place))]
fn rolled_place(q: Place) -> Place
    ensures { result ≡ rolled_place q }
{
    Place {
        x: q.z,
        y: q.x,
        z: q.y,
        ..q
    }
}

impl Rectangle {
    /// The face turned from x to y to z to x.
    fn rolled(self) -> Rectangle
        ensures { result ≡ rolled_face self }
    {
        Rectangle {
            plane: self.plane.rolled(),
            edges: self.edges.map(Plane::rolled),
            place: rolled_place(self.place),
            corners: self.corners.map(rolled_place),
        }
    }
}

impl Block {
    /// In the middle of a face at x.
    fn middle_at(self, x: i64) -> Place
        requires { Short x reach }
        ensures { result ≡ middle_at self x }
    {
        Place {
            x: x + x,
            ..self.middle()
        }
    }

    /// The corners of a face at x, counter-clockwise as seen from more x.
    fn round(self, x: i64) -> [Place; 4]
        ensures { result ≡ round_at self x }
    {
        let b = self.bounds;
        [
            whole(x, b.y.low, b.z.low),
            whole(x, b.y.high, b.z.low),
            whole(x, b.y.high, b.z.high),
            whole(x, b.y.low, b.z.high),
        ]
    }

    /// The faces that look toward more x and toward less. Seen from outside, both go round counter-clockwise,
    /// so the second goes the other way along y and z.
    #[tactic(auto, using(std::proofs::lemmas::Int::ints))]
    fn ends(self) -> [Rectangle; 2]
        ensures { result ≡ high_face self ∷ low_face self ∷ [] }
    {
        let b = self.bounds;
        let [high, low, north, south, up, down] = self.walls();
        let [p, q, r, s] = self.round(b.x.low);
        [
            Rectangle {
                plane: high,
                edges: [north, south, up, down],
                place: self.middle_at(b.x.high),
                corners: self.round(b.x.high),
            },
            Rectangle {
                plane: low,
                edges: [up, down, north, south],
                place: self.middle_at(b.x.low),
                corners: [p, s, r, q],
            },
        ]
    }

    /// The block that is this one when it is turned from x to y to z to x.
    fn rolled_back(self) -> Block
        ensures { result ≡ rolled_back self }
    {
        let b = self.bounds;
        Block {
            bounds: Bounds {
                x: b.y,
                y: b.z,
                z: b.x,
            },
        }
    }

    /// The faces of a block: those toward more x and less x, then y, then z.
    pub fn faces(self) -> [Rectangle; 6]
        ensures { result ≡ block_faces self }
    {
        let c = self.rolled_back();
        let d = c.rolled_back();
        let [east, west] = self.ends();
        let [north, south] = c.ends();
        let [up, down] = d.ends();
        [
            east,
            west,
            north.rolled(),
            south.rolled(),
            up.rolled().rolled(),
            down.rolled().rolled(),
        ]
    }

    /// One face of a block: those toward more x and less x are 0 and 1, then those across y, then z.
    pub fn face(self, k: usize) -> Rectangle
        requires { k < 6 }
        ensures { At (block_faces self) k result }
    {
        let c = self.rolled_back();
        match k {
            0 => self.ends()[0],
            1 => self.ends()[1],
            2 => c.ends()[0].rolled(),
            3 => c.ends()[1].rolled(),
            4 => c.rolled_back().ends()[0].rolled().rolled(),
            _ => c.rolled_back().ends()[1].rolled().rolled(),
        }
    }
}
