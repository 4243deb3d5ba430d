//! A text that is taken, laid into words: the steps of its parts, and its questions.

ghost use Rattle.std.specs.Prelude.{◌≡◌, ℕ, Ok, ◌+◌, ◌*◌, ◌/◌, ◌<◌, ◌≤◌, List, [], ◌∷◌, ◌++◌, length, take, drop, ℤ};
ghost use Rattle.arith.specs.Bounds.{Short};
ghost use Rattle.plane.specs.Limits.{FitsPlane};
ghost use Rattle.solid.specs.Shapes.{plane, box};
ghost use Rattle.solid.specs.Steps.{word, words};
ghost use Rattle.grammar.specs.Grammar.{signed};
ghost use Rattle.grammar.specs.Values.{number_limit};
ghost use Rattle.reader.specs.Layout.{Taken};
ghost use Rattle.reader.specs.Reading.{Examined, Read};
ghost use Rattle.reader.specs.Lines.{PartAt, steps_at, pair_of, PlaceAt, question_at};

use super::tokens::number_of;
use super::types::{Counts, QUESTION_WORDS};
use super::word_list::{Found, WordList};
use lent::LentList;
use plane::types::Plane;
use solid::types::Step;

/// How many words and numbers the line of a part has.
const PART_TOKENS: usize = 9;

/// How many words and numbers the line of a place has.
const PLACE_TOKENS: usize = 6;

/// How many steps a box has.
const BOX_STEPS: usize = 11;

/// The word of a half-space.
fn half_word(a: i64, b: i64, c: i64, d: i64) -> u64
    requires { FitsPlane (plane a b c d) }
    ensures { result ≡ word (Step.Half (plane a b c d)) }
{
    Step::Half(Plane { a, b, c, d }).word()
}

/// The steps of a box.
fn box_words(x0: i64, x1: i64, y0: i64, y1: i64, z0: i64, z1: i64) -> [u64; BOX_STEPS]
    requires low { (Short x0 number_limit) × ((Short y0 number_limit) × (Short z0 number_limit)) }
    requires high { (Short x1 number_limit) × ((Short y1 number_limit) × (Short z1 number_limit)) }
    ensures { result ≡ words (box x0 x1 y0 y1 z0 z1) }
{
    let both = Step::Both.word();
    [
        half_word(1, 0, 0, x1),
        half_word(-1, 0, 0, -x0),
        both,
        half_word(0, 1, 0, y1),
        half_word(0, -1, 0, -y0),
        both,
        both,
        half_word(0, 0, 1, z1),
        half_word(0, 0, -1, -z0),
        both,
        both,
    ]
}

/// The number that is written. In a text that is taken there is one; else 0.
fn number(word: &[u8]) -> i64
    ensures { (z : ℤ) → word.now ≡ signed z → Short z number_limit → result ≡ z }
{
    number_of(word).unwrap_or(0)
}

/// The steps of the box of a part's line.
fn box_of(line: &WordList<'_>) -> [u64; BOX_STEPS]
    requires { PartAt line.now }
    ensures { (p : PartAt line.now) → result ≡ steps_at p }
{
    box_words(
        number(line.at(3)),
        number(line.at(4)),
        number(line.at(5)),
        number(line.at(6)),
        number(line.at(7)),
        number(line.at(8)),
    )
}

/// The i-th pair of words.
fn pair_at(pairs: &[u64], i: usize) -> [u64; 2]
    requires { 2 * i + 1 < length pairs.now }
    ensures { result ≡ take 2 (drop (2 * i) pairs.now) }
{
    [pairs[2 * i], pairs[2 * i + 1]]
}

/// The two words that belong to a name, where each of some names has two. In a text that is taken the name is one of
/// them; else zeros.
fn spot_of(names: &WordList<'_>, spots: &[u64], name: &[u8]) -> [u64; 2]
    requires { 2 * length names.now ≤ length spots.now }
    ensures { result ≡ pair_of names.now spots.now name.now }
{
    match names.find(name) {
        Some(i) => pair_at(spots, i),
        None => [0, 0],
    }
}

/// Lays a part's line: its steps behind those that are used, and where they are behind the spots of the parts before it.
fn lay_part(line: &WordList<'_>, used: usize, spots: &mut LentList<'_, u64>, steps: &mut [u64])
    requires taken { PartAt line.now }
    requires spots_room { length spots.old.items + 2 ≤ spots.old.room }
    requires steps_room { used + 11 ≤ length steps.old }
    ensures spots { spots.new.items ≡ spots.old.items ++ used ∷ 11 ∷ [] }
    ensures steps { (p : PartAt line.now) → take (used + 11) steps.new ≡ take used steps.old ++ steps_at p }
    ensures room { spots.new.room ≡ spots.old.room }
{
    spots.push(used as u64);
    spots.push(BOX_STEPS as u64);
    steps[used..used + BOX_STEPS].copy_from_slice(&box_of(line));
}

/// Lays the line of a question about a place behind the first `count` questions, where each of some names has a spot.
fn lay_place(
    line: &WordList<'_>,
    names: &WordList<'_>,
    spots: &[u64],
    count: usize,
    asked: &mut [u64],
)
    requires taken { PlaceAt line.now }
    requires spots { 2 * length names.now ≤ length spots.now }
    requires room { 6 * count + 6 ≤ length asked.old }
    ensures { (p : PlaceAt line.now) → take (6 * count + 6) asked.new ≡ take (6 * count) asked.old ++ question_at names.now spots.now p }
{
    let [from, steps] = spot_of(names, spots, line.at(1));
    let question: [u64; QUESTION_WORDS] = [
        from,
        steps,
        number(line.at(2)).cast_unsigned(),
        number(line.at(3)).cast_unsigned(),
        number(line.at(4)).cast_unsigned(),
        number(line.at(5)).cast_unsigned(),
    ];
    let start = QUESTION_WORDS * count;
    asked[start..start + QUESTION_WORDS].copy_from_slice(&question);
}

/// Lays a text that is taken into words: the steps of its parts, and its questions. Words are all the memory that is
/// lent, so a part is two of them and a question six.
// Steps and questions in no `LentList`: when the call is over, the caller's own slices tell what they hold.
pub(crate) fn build(
    found: &Found<'_>,
    spots: &mut [u64],
    steps: &mut [u64],
    asked: &mut [u64],
) -> Counts
    requires taken { Taken found.now.tokens found.now.names }
    requires spots_room { length found.now.tokens ≤ length spots.old }
    requires steps_room { 2 * length found.now.tokens ≤ length steps.old }
    requires asked_room { length found.now.tokens ≤ length asked.old }
    ensures { (text : List ℕ) → Examined (Ok found.now) text → Read (Ok result) text steps.new asked.new }
{
    let mut spots = LentList::new(spots);
    let mut laid = Counts { used: 0, asked: 0 };
    // A copy: words in a model don't tell where they are, so the type isn't `Copy`.
    let mut rest = found.tokens.behind(0);
    while !rest.is_empty() {
        if rest.at(0) == b"part".as_slice() {
            lay_part(&rest, laid.used, &mut spots, steps);
            laid.used += BOX_STEPS;
            rest = rest.behind(PART_TOKENS);
        } else {
            let names = found.names.first(spots.len() / 2);
            lay_place(&rest, &names, spots.as_slice(), laid.asked, asked);
            laid.asked += 1;
            rest = rest.behind(PLACE_TOKENS);
        }
    }
    laid
}
