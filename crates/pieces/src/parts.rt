//! Two parts whose planes all lie along the axes, and memory that is lent for a question about them.

use plane::types::Plane;
use solid::types::Steps;
use std::marker::Model;

/// The steps of two parts whose planes all lie along the axes.
#[derive(Drop)]
pub struct Parts<'s> {
    pub first: Steps<'s>,
    pub second: Steps<'s>,
}

// Clauses see the words of both.
impl<'s> Model for Parts<'s> {
    ghost use Rattle.pieces.specs.Questions.{Parts, LevelSteps};

    ghost Value = { Parts };

    ghost view = { λ p. record { first = p.first.words.now; second = p.second.words.now } };

    ghost invariant = { λ p. LevelSteps p.first.words.now × LevelSteps p.second.words.now };
}

/// Lent memory: for the planes of the parts and of the workshop, for coordinates that are tried, and for values
/// of the parts.
#[derive(Drop)]
pub struct Room<'p, 'l, 'w> {
    pub planes: &'p mut [Plane],
    pub lent: &'l mut [u64],
    pub work: &'w mut [u64],
}

// Clauses see how much of each there is.
impl<'p, 'l, 'w> Model for Room<'p, 'l, 'w> {
    ghost use Rattle.std.specs.Prelude.{length};
    ghost use Rattle.pieces.specs.Questions.{Room};

    ghost Value = { Room };

    ghost view = { λ r. record { planes = length r.planes.now; lent = length r.lent.now; work = length r.work.now } };
}
