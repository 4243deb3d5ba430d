//! The steps of a shape, and what is told of a place.

ghost use Rattle.std.specs.Prelude.{◌≡◌, Some};
ghost use Rattle.solid.specs.Steps.{Coded};
ghost use Rattle.solid.specs.Told.{told_text};

use plane::types::Plane;
use std::fmt;

/// A step of the stack machine that finds a shape's value: a half-space is put on the stack, or the two
/// newest values are joined.
#[derive(Clone, Copy, Debug, PartialEq, Eq)]
pub enum Step {
    Half(Plane),
    Both,
    Either,
    Without,
}

/// The steps of a shape in range, each as a word, the operands first.
#[derive(Clone, Copy, Debug)]
pub struct Steps<'s> {
    pub words: &'s [u64],
    ghost coded: { ∥ Coded words.now ∥₁ },
}

impl<'s> Steps<'s> {
    /// The steps that the words are.
    pub fn new(words: &'s [u64]) -> Steps<'s>
        requires { Coded words.now }
        ensures { result.words.now ≡ words.now }
    {
        Steps { words }
    }
}

/// What is told of a place: that it is in the solid or out of it, or on a plane.
#[derive(Clone, Copy, Debug, PartialEq, Eq)]
pub enum Told {
    In,
    Out,
    On,
}

impl fmt::Display for Told {
    ghost output = { λ t. Some (told_text t) };

    fn fmt<W: fmt::Write>(&self, f: &mut fmt::Formatter<W>) -> fmt::Result {
        f.write_str(match self {
            Told::In => "in",
            Told::Out => "out",
            Told::On => "on",
        })
    }
}
