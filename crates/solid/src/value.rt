//! A shape's value at a place, by its steps.

ghost use Rattle.std.specs.Prelude.{◌≡◌, ◌+◌, ◌<◌, ◌≤◌, Bool, List, [], ◌∷◌, ◌++◌, length};
ghost use Rattle.plane.specs.Limits.{SmallPlace};
ghost use Rattle.solid.specs.Shapes.{Shape, holds, planes, workshop, Fits};
ghost use Rattle.solid.specs.Steps.{words, FitsStep};
ghost use Rattle.solid.specs.Stacks.{after, plane_of_step, values_at, Enough};
ghost use Rattle.solid.specs.Examples.{on_some, told};

use super::types::{Step, Steps, Told};
use lent::LentList;
use plane::types::{Place, Plane, REACH, Side};
use std::marker::Model;

/// The planes at the workshop's end.
pub fn walls() -> [Plane; 6]
    ensures { result ≡ planes workshop }
{
    let wall = |a, b, c| Plane {
        a,
        b,
        c,
        d: REACH as i64,
    };
    [
        wall(1, 0, 0),
        wall(-1, 0, 0),
        wall(0, 1, 0),
        wall(0, -1, 0),
        wall(0, 0, 1),
        wall(0, 0, -1),
    ]
}

/// Whether the place is on a plane of the workshop.
fn on_walls(q: Place) -> bool
    requires { SmallPlace q }
    ensures { result ≡ on_some (planes workshop) q }
{
    let end = REACH * q.w;
    [q.x, q.y, q.z].iter().any(|c| c.unsigned_abs() == end)
}

/// Whether the place is in the workshop.
fn in_walls(q: Place) -> bool
    requires { SmallPlace q }
    ensures { result ≡ holds workshop q }
{
    let end = REACH * q.w;
    [q.x, q.y, q.z].iter().all(|c| c.unsigned_abs() < end)
}

/// The values of the shapes on a stack at a place, the newest last. Each lies in a word: 1 where the shape holds the
/// place, and 0 where it doesn't.
#[derive(Drop)]
struct Values<'w> {
    words: LentList<'w, u64>,
}

impl<'w> Model for Values<'w> {
    ghost use Rattle.std.specs.Prelude.{Bool, map, ◌==◌};
    ghost use Rattle.lent.specs.Lists.{Held};

    ghost Value = { Held Bool };

    ghost view = { λ v. record { items = map (λ w. w == 1) v.words.items; room = v.words.room } };
}

impl<'w> Values<'w> {
    /// An empty stack.
    fn new(words: &'w mut [u64]) -> Self
        ensures { result ≡ record { items = []; room = length words.old } }
    {
        Values {
            words: LentList::new(words),
        }
    }

    /// Puts a value on the stack.
    fn push(&mut self, value: bool)
        requires { length self.old.items < self.old.room }
        ensures items { self.new.items ≡ self.old.items ++ value ∷ [] }
        ensures room { self.new.room ≡ self.old.room }
    {
        self.words.push(u64::from(value));
    }

    /// Takes the newest value from the stack.
    fn pop(&mut self) -> bool
        requires { 0 < length self.old.items }
        ensures items { self.old.items ≡ self.new.items ++ result ∷ [] }
        ensures room { self.new.room ≡ self.old.room }
    {
        self.words.pop() == Some(1)
    }

    /// Joins the two newest values.
    fn join<F: FnOnce(bool, bool) -> bool>(&mut self, op: F)
        requires callable { F.IsAlwaysCallable op }
        requires some { 2 ≤ length self.old.items }
        requires room { length self.old.items ≤ self.old.room }
        ensures items { (vs : List Bool) (a b c : Bool) → ((v : Bool) → F.post op a b v → v ≡ c)
            → self.old.items ≡ (vs ++ a ∷ []) ++ b ∷ [] → self.new.items ≡ vs ++ c ∷ [] }
        ensures shrinks { length self.new.items + 1 ≡ length self.old.items }
        ensures room { self.new.room ≡ self.old.room }
    {
        let newest = self.pop();
        let other = self.pop();
        self.push(op(other, newest));
    }

    /// Does one step on the stack.
    #[tactic(auto, using(crate::proofs::Sided::sides), unfolding(crate::specs::Shapes::holds, crate::specs::Shapes::by))]
    fn apply(&mut self, s: Step, q: Place)
        requires place { SmallPlace q }
        requires room { length self.old.items < self.old.room }
        requires enough { Enough s (length self.old.items) }
        ensures stack { (st : List Shape) → self.old.items ≡ values_at q st → self.new.items ≡ values_at q (after s st) }
        ensures grows { length self.new.items ≤ length self.old.items + 1 }
        ensures room { self.new.room ≡ self.old.room }
    {
        match s {
            Step::Half(p) => self.push(p.side_of(q) == Side::Below),
            Step::Both => self.join(|a, b| a && b),
            Step::Either => self.join(|a, b| a || b),
            Step::Without => self.join(|a, b| a && !b),
        }
    }
}

impl Step {
    /// Whether the place is on the plane of the step, if it has one.
    #[tactic(auto, using(crate::proofs::Sided::sides), unfolding(crate::specs::Examples::on_some))]
    fn meets(self, q: Place) -> bool
        requires fits { FitsStep self }
        requires place { SmallPlace q }
        ensures { result ≡ on_some (plane_of_step self) q }
    {
        match self {
            Step::Half(p) => p.side_of(q) == Side::On,
            Step::Both | Step::Either | Step::Without => false,
        }
    }
}

// The words for the work are lent anew for each call, so each call asks for their number.
impl Steps<'_> {
    /// Whether the place is in the shape; `work` has room for a value for each step.
    pub fn holds_at(self, q: Place, work: &mut [u64]) -> bool
        requires place { SmallPlace q }
        requires room { length self.words.now ≤ length work.old }
        ensures { (s : Shape) → Fits s → self.entry.words.now ≡ words s → result ≡ holds s q }
    {
        let mut values = Values::new(work);
        for w in self.words {
            values.apply(Step::from(*w), q);
        }
        values.pop()
    }

    /// Whether the place is on a plane of the shape.
    pub fn touches(self, q: Place) -> bool
        requires place { SmallPlace q }
        ensures { (s : Shape) → Fits s → self.entry.words.now ≡ words s → result ≡ on_some (planes s) q }
    {
        self.words.iter().any(|w| Step::from(*w).meets(q))
    }

    /// Whether the place is in the solid of the shape or out of it, or on a plane of the shape or of the
    /// workshop; `work` has room for a value for each step.
    pub fn place_told(self, q: Place, work: &mut [u64]) -> Told
        requires place { SmallPlace q }
        requires room { length self.words.now ≤ length work.old }
        ensures { (s : Shape) → Fits s → self.entry.words.now ≡ words s → result ≡ told s q }
    {
        if on_walls(q) || self.touches(q) {
            Told::On
        } else if in_walls(q) && self.holds_at(q, work) {
            Told::In
        } else {
            Told::Out
        }
    }
}
