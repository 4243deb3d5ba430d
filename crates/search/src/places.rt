//! Places off some planes for which a question holds.

ghost use Rattle.std.specs.Prelude.{◌≡◌, ℕ, ◌≤◌, Bool, length};
ghost use Rattle.plane.specs.declared.types.Place.{Place as Spot};
ghost use Rattle.plane.specs.Limits.{FitsPlane, SmallPlace};
ghost use Rattle.search.specs.Search.{Off, OffBut, BySides, BySidesOn, Found, lent_words};
ghost use Rattle.search.specs.Levels.{Level, AllLevel};

use super::levels::Grid;
use plane::types::{Place, Plane};
use std::marker::Model;

/// A question that is asked of places.
pub trait Question {
    // whether it holds at a place
    ghost asked: { Self → Spot → Bool };

    // so many lent words are enough
    ghost ready: { Self → ℕ → Type 0 };

    /// Whether the question holds at a place.
    fn holds_at(&self, q: Place, work: &mut [u64]) -> bool
        requires room { ready self.now (length work.old) }
        requires place { SmallPlace q }
        ensures { result ≡ asked self.now q };
}

/// A question, and words that are lent for it.
#[derive(Drop)]
pub(crate) struct Asker<'q, 'w, Q: Question> {
    pub(crate) question: &'q Q,
    pub(crate) work: &'w mut [u64],
}

// Clauses see the question.
impl<'q, 'w, Q: Question> Model for Asker<'q, 'w, Q> {
    ghost use Rattle.std.specs.Prelude.{length};

    ghost Value = { Q };

    ghost view = { λ a. a.question.now };

    ghost invariant = { λ a. Q.ready a.question.now (length a.work.now) };
}

impl<'q, 'w, Q: Question> Asker<'q, 'w, Q> {
    /// Whether the question holds at a place.
    pub(crate) fn holds_at(&mut self, q: Place) -> bool
        requires { SmallPlace q }
        ensures value { result ≡ Q.asked self.old q }
        ensures same { self.new ≡ self.old }
    {
        self.question.holds_at(q, self.work)
    }
}

// Words are lent anew for each call of both, so both ask for their number.

/// A place on none of the planes for which the question holds, if there is one. The question depends on nothing
/// but the sides of the planes; `lent` has three words for each plane and three more, and `work` what the question wants.
pub fn find<Q: Question>(
    question: &Q,
    planes: &[Plane],
    lent: &mut [u64],
    work: &mut [u64],
) -> Option<Place>
    requires ready { Q.ready question.now (length work.old) }
    requires level { AllLevel planes.now }
    requires sides { BySides planes.now (Q.asked question.now) }
    requires room { lent_words (length planes.now) ≤ length lent.old }
    ensures { Found (Off planes.now) (Q.asked question.now) result }
{
    let grid = Grid { base: None, planes };
    grid.search(&mut Asker { question, work }, lent)
}

/// A place on the base, and on none of the planes that crosses it, for which the question holds, if there is one.
/// On the base the question depends on nothing but the sides of the planes; `lent` and `work` are as for `find`.
pub fn find_on<Q: Question>(
    question: &Q,
    base: Plane,
    planes: &[Plane],
    lent: &mut [u64],
    work: &mut [u64],
) -> Option<Place>
    requires ready { Q.ready question.now (length work.old) }
    requires base { (FitsPlane base) × (Level base) }
    requires level { AllLevel planes.now }
    requires sides { BySidesOn planes.now base (Q.asked question.now) }
    requires room { lent_words (length planes.now) ≤ length lent.old }
    ensures { Found (OffBut planes.now base) (Q.asked question.now) result }
{
    let grid = Grid {
        base: Some(base),
        planes,
    };
    grid.search(&mut Asker { question, work }, lent)
}
