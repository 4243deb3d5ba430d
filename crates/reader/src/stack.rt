//! The stack of what is still expected, in lent words.

ghost use Rattle.std.specs.Prelude.{◌≡◌, ◌+◌, ◌<◌, ◌≤◌, ◌↔◌, [], ◌∷◌, ◌++◌, length, drop, slice_get, IsTrue};

use super::types::{Number, Want};
use grammar::types::Sep;
use lent::LentList;
use std::marker::Model;

// The library has no heap, so what is expected lies in lent words, each its number times 256 and a byte.
impl From<Want> for u64 {
    ghost use Rattle.reader.specs.Stack.{want_of, word_of};

    ghost from_gives = { λ want word. (word ≡ word_of want) × (want_of word ≡ want) };

    fn from(want: Want) -> u64 {
        let (tag, byte) = match want {
            Want::Lit(b) => (0, b),
            Want::Number(Number::Start, c) => (1, u8::from(c)),
            Want::Number(Number::Minus, c) => (2, u8::from(c)),
            Want::Number(Number::Digits, c) => (3, u8::from(c)),
            Want::Name(c) => (4, u8::from(c)),
            Want::Shape(c) => (5, u8::from(c)),
            Want::AfterP => (6, 0),
            Want::AfterM => (7, 0),
        };
        256 * tag + u64::from(byte)
    }
}

impl From<u64> for Want {
    ghost use Rattle.reader.specs.Stack.{want_of};

    ghost from_gives = { λ word want. want ≡ want_of word };

    fn from(word: u64) -> Want {
        let byte = (word % 256) as u8;
        let c = Sep::try_from(byte).unwrap_or(Sep::End);
        match word / 256 {
            0 => Want::Lit(byte),
            1 => Want::Number(Number::Start, c),
            2 => Want::Number(Number::Minus, c),
            3 => Want::Number(Number::Digits, c),
            4 => Want::Name(c),
            5 => Want::Shape(c),
            6 => Want::AfterP,
            _ => Want::AfterM,
        }
    }
}

/// What is still expected, as words in a list: the last of them is what comes first.
#[derive(Drop)]
pub(crate) struct Stack<'s> {
    words: LentList<'s, u64>,
}

impl<'s> Model for Stack<'s> {
    ghost use Rattle.reader.specs.Stack.{Pile, pile_of};

    ghost Value = { Pile };

    ghost view = { λ s. pile_of s.words };
}

impl<'s> Stack<'s> {
    /// Nothing is expected.
    pub(crate) fn new(words: &'s mut [u64]) -> Self
        ensures { result ≡ record { wants = []; size = length words.old } }
    {
        Stack {
            words: LentList::new(words),
        }
    }

    /// Whether nothing is expected.
    pub(crate) fn is_empty(&self) -> bool
        ensures { IsTrue result ↔ (self.now.wants ≡ []) }
    {
        self.words.as_slice().is_empty()
    }

    /// What comes first.
    pub(crate) fn top(&self) -> Option<Want>
        ensures { result ≡ slice_get self.now.wants 0 }
    {
        let word = *self.words.as_slice().last()?;
        Some(Want::from(word))
    }

    /// Takes off what comes first.
    pub(crate) fn pop(&mut self) -> Option<Want>
        ensures first { result ≡ slice_get self.old.wants 0 }
        ensures rest { self.new ≡ record self.old { wants = drop 1 self.old.wants } }
    {
        Some(Want::from(self.words.pop()?))
    }

    /// Expects this before all else.
    pub(crate) fn push(&mut self, want: Want)
        requires { length self.old.wants < self.old.size }
        ensures { self.new ≡ record self.old { wants = want ∷ self.old.wants } }
    {
        self.words.push(u64::from(want));
    }

    /// Expects these, one after the other, before all else.
    pub(crate) fn expect(&mut self, wants: &[Want])
        requires { length wants.now + length self.old.wants ≤ self.old.size }
        ensures { self.new ≡ record self.old { wants = wants.now ++ self.old.wants } }
    {
        for want in wants.iter().rev() {
            self.push(*want);
        }
    }
}
