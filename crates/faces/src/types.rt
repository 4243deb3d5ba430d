//! The bounds of a box, a block within the workshop, and a face of one.

use plane::types::{Place, Plane};
use std::marker::Model;

/// All numbers n with low < n < high.
#[derive(Clone, Copy, Debug, PartialEq, Eq)]
pub struct Span {
    pub low: i64,
    pub high: i64,
}

/// Everything with x, y and z within these spans.
#[derive(Clone, Copy, Debug, PartialEq, Eq)]
pub struct Bounds {
    pub x: Span,
    pub y: Span,
    pub z: Span,
}

/// A block: there are places within its bounds, and all of them are in the workshop.
#[derive(Clone, Copy, Debug, PartialEq, Eq)]
pub struct Block {
    pub bounds: Bounds,
}

// Clauses see the bounds.
impl Model for Block {
    ghost use Rattle.faces.specs.declared.types.Bounds.{Bounds};
    ghost use Rattle.faces.specs.Blocks.{FitsBlock};

    ghost Value = { Bounds };

    ghost view = { λ b. b.bounds };

    ghost invariant = { λ b. FitsBlock b.bounds };

    ghost inverse = { λ n. record { bounds = n } };
}

/// A face of a block, which has four edges and four corners. All its numbers are in range.
#[derive(Clone, Copy, Debug, PartialEq, Eq)]
pub struct Rectangle {
    pub plane: Plane,
    pub edges: [Plane; 4],
    pub place: Place,
    pub corners: [Place; 4],
}

// Clauses see a face of a model.
impl Model for Rectangle {
    ghost use Rattle.solid.specs.Models.{Face};

    ghost Value = { Face };

    ghost use Rattle.faces.specs.Blocks.{as_face, FitsFace};

    ghost view = { as_face };

    ghost invariant = { λ r. FitsFace (as_face r) };

    ghost inverse = { λ f. record { plane = f.plane; edges = f.edges; place = f.place; corners = f.corners } };
}
