//! What the reader expects, the words that are lent for it, and what it hands back.

use grammar::types::Sep;

/// How far a number has come.
#[derive(Clone, Copy, PartialEq, Eq, Debug)]
pub enum Number {
    /// Nothing of it is there.
    Start,
    /// Its minus is there.
    Minus,
    /// A digit is there.
    Digits,
}

/// What a text must go on with.
#[derive(Clone, Copy, PartialEq, Eq, Debug)]
pub enum Want {
    Lit(u8),
    Number(Number, Sep),
    Name(Sep),
    Shape(Sep),
    AfterP,
    AfterM,
}

/// The words that are lent for the work of reading a text.
// Taken apart at once: each step of the reading borrows its own part, and asks for the room that it fills.
#[derive(Drop)]
pub struct Room<'k, 't, 'n, 'p> {
    pub stack: &'k mut [u64],
    pub tokens: &'t mut [u64],
    pub names: &'n mut [u64],
    pub spots: &'p mut [u64],
}

/// How many words a question has: where its part's steps begin and how many they are, then x, y, z and w of its place.
pub const QUESTION_WORDS: usize = 6;

/// What a text that is taken has: how many steps its parts have in all, and how many questions it asks.
// Counts and no slices: those would keep what is lent for as long as they live.
#[derive(Clone, Copy, Debug, PartialEq, Eq)]
pub struct Counts {
    pub used: usize,
    pub asked: usize,
}

/// What a text that is taken lies in: the steps of its parts, one part behind the other, and its questions.
#[derive(Clone, Copy)]
pub struct Layout<'w> {
    pub steps: &'w [u64],
    pub asked: &'w [u64],
}

/// Why a text is refused, and at which byte.
// A struct of the kind and the byte would be no plainer: who matches on the kind wants the byte too.
#[derive(Clone, Copy, PartialEq, Eq, Debug)]
pub enum Refusal {
    /// No text goes on so, or a word that is not taken yet.
    Grammar(usize),
    /// A name that is twice, or isn't there yet.
    Name(usize),
    /// Too many bytes or parts.
    Limit(usize),
    /// A number out of range.
    Range(usize),
}

/// What is expected of the next word.
#[derive(Clone, Copy, PartialEq, Eq)]
pub enum Expect {
    AtLine,
    AtNewName,
    AtShape,
    InBox(usize),
    AtUsedName,
    InPlace(usize),
}
