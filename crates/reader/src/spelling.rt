//! Words: which bytes go on with one, and what a whole one is.

ghost use Rattle.std.specs.Prelude.{◌≡◌, ◌&&◌, [], ◌∷◌, ◌++◌, ◌==◌};
ghost use Rattle.grammar.specs.Grammar.{is_word, is_name, letter, alnum};
ghost use Rattle.grammar.specs.Machine.{byte, kind_of, Good};

use grammar::types::{Kind, Sep};
use std::marker::Model;
use std::str::from_utf8;

/// How long a word is at most.
pub(crate) const WORD_LIMIT: usize = 12;

/// Whether the byte is a letter.
pub(crate) fn is_letter(b: u8) -> bool
    ensures { result ≡ letter b }
{
    b.is_ascii_lowercase()
}

/// Whether the byte is a letter or a digit.
pub(crate) fn is_alnum(b: u8) -> bool
    ensures { result ≡ alnum b }
{
    is_letter(b) || b.is_ascii_digit()
}

/// The bytes so far of a word, or none.
#[derive(Drop)]
pub(crate) struct Word<'t> {
    bytes: &'t [u8],
}

impl<'t> Model for Word<'t> {
    ghost use Rattle.std.specs.Prelude.{ℕ, List};
    ghost use Rattle.grammar.specs.Machine.{Good};

    ghost Value = { List ℕ };

    ghost view = { λ w. w.bytes.now };

    ghost invariant = { λ w. Good w.bytes.now };
}

impl<'t> Word<'t> {
    pub(crate) fn new(bytes: &'t [u8]) -> Self
        requires { Good bytes.now }
        ensures { result ≡ bytes.now }
    {
        Word { bytes }
    }

    /// What the word is.
    pub(crate) fn kind(&self) -> Kind
        ensures { result ≡ kind_of self.now }
    {
        // As text: a `match` this long over byte strings gets no proof within minutes.
        let Ok(text) = from_utf8(self.bytes) else {
            return Kind::NoWord;
        };
        match text {
            "half" => Kind::HalfWord,
            "box" => Kind::BoxWord,
            "both" | "either" | "without" => Kind::TwoWord,
            "move" => Kind::MoveWord,
            "mirror" | "swap" | "turn" => Kind::OneWord,
            "part"
            | "place"
            | "same"
            | "meet"
            | "model"
            | "slide"
            | "cut"
            | "hold"
            | "drop"
            | "undo"
            | "volume"
            | "joined"
            | "edges"
            | "figures"
            | "" => Kind::NoWord,
            _ => Kind::NameWord,
        }
    }

    /// Whether the word goes on with the byte.
    pub(crate) fn goes_on(&self, b: u8) -> bool
        ensures { result ≡ is_word (self.now ++ b ∷ []) }
    {
        if self.bytes.is_empty() {
            is_letter(b)
        } else {
            self.bytes.len() < WORD_LIMIT && is_alnum(b)
        }
    }

    /// Whether the word is a name, and the byte ends it.
    #[tactic(auto, using(crate::proofs::Words::kind_same))]
    pub(crate) fn ends_name(&self, c: Sep, b: u8) -> bool
        ensures { result ≡ (is_name self.now && b == byte c) }
    {
        self.kind() == Kind::NameWord && b == u8::from(c)
    }
}
