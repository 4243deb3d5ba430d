//! One word of a text, as it stands: whether it is right where it is.

ghost use Rattle.std.specs.Prelude.{◌≡◌, ℕ, true, false, not, ◌&&◌, List, length, Some, Ok, Err, if◌then◌else◌};
ghost use Rattle.grammar.specs.Faults.{token, beyond, no_scale};
ghost use Rattle.grammar.specs.Grammar.{is_word, is_name, one_of};
ghost use Rattle.reader.specs.Scan.{Looked};

use super::spelling::{WORD_LIMIT, Word, is_alnum, is_letter};
use super::tokens::amount_of;
use super::types::{Expect, Refusal};
use super::word_list::WordList;
use grammar::types::Kind;

/// How many parts a text has at most.
const MOST_PARTS: usize = 100;

/// The largest w of a place.
const SCALE_LIMIT: u64 = 4096;

/// How many numbers a box has.
const BOX_NUMBERS: usize = 6;

/// How many numbers a place has before its w.
const COORDINATES: usize = 3;

/// Words that begin a line, and are not taken yet.
const LATER: [&[u8]; 3] = [b"same", b"meet", b"model"];

/// Whether a number is out of range.
fn is_beyond(word: &[u8]) -> bool
    ensures { result ≡ beyond word.now }
{
    amount_of(word).is_none()
}

/// Whether a number is no w of a place.
fn is_no_scale(word: &[u8]) -> bool
    ensures { result ≡ no_scale word.now }
{
    if let Some(digits) = word.strip_prefix(b"-") {
        return !digits.is_empty();
    }
    amount_of(word).is_none_or(|size| size == 0 || size > SCALE_LIMIT)
}

/// Whether the bytes are a word: a letter, then up to 11 letters and digits.
fn is_word(word: &[u8]) -> bool
    ensures { result ≡ is_word word.now }
{
    let Some((first, others)) = word.split_first() else {
        return false;
    };
    is_letter(*first) && others.len() < WORD_LIMIT && others.iter().all(|b| is_alnum(*b))
}

/// Whether the bytes are a name.
#[tactic(auto, using(crate::proofs::Words::kind_same))]
fn is_name(word: &[u8]) -> bool
    ensures { result ≡ is_name word.now }
{
    is_word(word) && Word::new(word).kind() == Kind::NameWord
}

/// The refusal where a word is wrong, else what is expected behind it.
fn next_unless(wrong: bool, why: Refusal, next: Expect) -> Result<Option<Expect>, Refusal>
    ensures { result ≡ (if wrong then Err why else Ok (Some next)) }
{
    if wrong { Err(why) } else { Ok(Some(next)) }
}

/// A word where a line begins, behind so many parts.
fn look_line(parts: usize, at: usize, word: &[u8]) -> Result<Option<Expect>, Refusal>
    ensures { (names : List (List ℕ)) → length names ≡ parts → Looked result Expect.AtLine names (token at word.now) }
{
    if word == b"part".as_slice() {
        return next_unless(parts >= MOST_PARTS, Refusal::Limit(at), Expect::AtNewName);
    }
    if word == b"place".as_slice() {
        return Ok(Some(Expect::AtUsedName));
    }
    if LATER.contains(&word) {
        return Err(Refusal::Grammar(at));
    }
    Ok(None)
}

/// Whether a name is there already that should be new, or isn't there that is used.
fn is_misnamed(names: &WordList<'_>, used: bool, word: &[u8]) -> bool
    ensures new { used ≡ false → result ≡ (is_name word.now && one_of names.now word.now) }
    ensures used { used ≡ true → result ≡ (is_name word.now && not (one_of names.now word.now)) }
{
    is_name(word) && names.has(word) != used
}

/// One of the numbers of a place: `left` are before its w.
fn look_in_place(left: usize, at: usize, word: &[u8]) -> Result<Option<Expect>, Refusal>
    ensures { (names : List (List ℕ)) → Looked result (Expect.InPlace left) names (token at word.now) }
{
    if left == 0 {
        next_unless(is_no_scale(word), Refusal::Range(at), Expect::AtLine)
    } else {
        next_unless(
            is_beyond(word),
            Refusal::Range(at),
            Expect::InPlace(left - 1),
        )
    }
}

/// A word where something is expected, behind parts of some names: it is wrong, or it is right, and then what is
/// expected behind it, if that is looked at.
pub(crate) fn look(
    names: &WordList<'_>,
    expect: Expect,
    at: usize,
    word: &[u8],
) -> Result<Option<Expect>, Refusal>
    ensures { Looked result expect names.now (token at word.now) }
{
    match expect {
        Expect::AtLine => look_line(names.len(), at, word),
        Expect::InBox(left) if left == 0 => look_line(names.len(), at, word),
        Expect::AtNewName => next_unless(
            is_misnamed(names, false, word),
            Refusal::Name(at),
            Expect::AtShape,
        ),
        Expect::AtShape => next_unless(
            word != b"box".as_slice(),
            Refusal::Grammar(at),
            Expect::InBox(BOX_NUMBERS),
        ),
        Expect::InBox(left) => next_unless(
            is_beyond(word),
            Refusal::Range(at),
            Expect::InBox(left - 1),
        ),
        Expect::AtUsedName => next_unless(
            is_misnamed(names, true, word),
            Refusal::Name(at),
            Expect::InPlace(COORDINATES),
        ),
        Expect::InPlace(left) => look_in_place(left, at, word),
    }
}
