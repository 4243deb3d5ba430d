//! What is asked of two parts at a place.

ghost use Rattle.std.specs.Prelude.{◌≡◌, ◌≤◌, Bool, length, cond, not, ◌&&◌};
ghost use Rattle.plane.specs.Limits.{SmallPlace};
ghost use Rattle.solid.specs.Stacks.{shape_of};
ghost use Rattle.pieces.specs.Questions.{inside, joined_in};

use plane::types::Place;
use search::places::Question;
use solid::types::{Steps, Told};

/// Whether a place is in the solid of the steps.
fn is_inside(steps: Steps<'_>, q: Place, work: &mut [u64]) -> bool
    requires place { SmallPlace q }
    requires room { length steps.words.now ≤ length work.old }
    ensures { result ≡ inside (shape_of steps.entry.words.now) q }
{
    steps.place_told(q, work) == Told::In
}

/// How the answers of two parts are joined to one.
// A trait, since the clauses of both name the operation: a closure's law would have to be shown at each call.
pub trait Join {
    ghost joined: { Bool → Bool → Bool };

    /// The one answer.
    fn join(&self, first: bool, second: bool) -> bool
        ensures { result ≡ joined first second };
}

/// Where two parts differ.
#[derive(Clone, Copy, Debug, PartialEq, Eq)]
pub struct Difference;

impl Join for Difference {
    ghost joined = { λ x y. cond x (not y) y };

    fn join(&self, first: bool, second: bool) -> bool {
        first != second
    }
}

/// Where two parts meet.
#[derive(Clone, Copy, Debug, PartialEq, Eq)]
pub struct Overlap;

impl Join for Overlap {
    ghost joined = { λ x y. x && y };

    fn join(&self, first: bool, second: bool) -> bool {
        first & second
    }
}

/// Two parts, and how their answers are joined.
#[derive(Drop)]
pub struct Joined<'s, J> {
    pub first: Steps<'s>,
    pub second: Steps<'s>,
    pub join: J,
}

impl<'s, J: Join> Question for Joined<'s, J> {
    ghost asked = { λ d q. joined_in J.joined (shape_of d.first.words.now) (shape_of d.second.words.now) q };

    ghost ready = { λ d n. (length d.first.words.now ≤ n) × (length d.second.words.now ≤ n) };

    fn holds_at(&self, q: Place, work: &mut [u64]) -> bool {
        let first = is_inside(self.first, q, work);
        let second = is_inside(self.second, q, work);
        self.join.join(first, second)
    }
}
