//! Words of a text, each by its first byte.

ghost use Rattle.std.specs.Prelude.{◌≡◌, ◌==◌, ◌<◌, ◌≤◌, [], length, take, drop, is_some, slice_index_or};
ghost use Rattle.grammar.specs.Grammar.{one_of};
ghost use Rattle.reader.specs.Names.{words_at, rank, InText};

use super::tokens::{is_token_at, token_at};
use std::marker::Model;

/// Words of a text, each by its first byte.
#[derive(Drop)]
pub(crate) struct WordList<'t> {
    text: &'t [u8],
    starts: &'t [u64],
}

impl<'t> Model for WordList<'t> {
    ghost use Rattle.std.specs.Prelude.{List, ℕ};
    ghost use Rattle.reader.specs.Names.{words_at, InText};

    ghost Value = { List (List ℕ) };

    ghost view = { λ w. words_at w.text.now w.starts.now };

    ghost invariant = { λ w. InText w.text.now w.starts.now };
}

/// The words of a text, and the names of its parts.
#[derive(Drop)]
pub(crate) struct Found<'t> {
    pub(crate) tokens: WordList<'t>,
    pub(crate) names: WordList<'t>,
}

impl<'t> WordList<'t> {
    /// The words that begin at these bytes.
    pub(crate) fn new(text: &'t [u8], starts: &'t [u64]) -> Self
        requires { InText text.now starts.now }
        ensures { result ≡ words_at text.now starts.now }
    {
        WordList { text, starts }
    }

    /// How many they are.
    pub(crate) fn len(&self) -> usize
        ensures { result ≡ length self.now }
    {
        self.starts.len()
    }

    /// Whether there are none.
    pub(crate) fn is_empty(&self) -> bool
        ensures { result ≡ (length self.now == 0) }
    {
        self.starts.is_empty()
    }

    /// The word at that number.
    pub(crate) fn at(&self, k: usize) -> &'t [u8]
        requires { k < length self.now }
        ensures { result.now ≡ slice_index_or self.now k [] }
    {
        token_at(self.text, self.starts[k] as usize)
    }

    /// The first n words.
    pub(crate) fn first(&self, n: usize) -> WordList<'t>
        requires { n ≤ length self.now }
        ensures { result ≡ take n self.now }
    {
        WordList {
            text: self.text,
            starts: &self.starts[..n],
        }
    }

    /// The words behind the first n.
    pub(crate) fn behind(&self, n: usize) -> WordList<'t>
        requires { n ≤ length self.now }
        ensures { result ≡ drop n self.now }
    {
        WordList {
            text: self.text,
            starts: &self.starts[n..],
        }
    }

    /// Where a word comes first among them. One after the other: a map would need memory, and names are few.
    pub(crate) fn find(&self, word: &[u8]) -> Option<usize>
        ensures { result ≡ rank self.now word.now }
    {
        self.starts
            .iter()
            .position(|start| is_token_at(self.text, *start as usize, word))
    }

    /// Whether a word is among them.
    pub(crate) fn has(&self, word: &[u8]) -> bool
        ensures { result ≡ one_of self.now word.now }
    {
        self.find(word).is_some()
    }
}
