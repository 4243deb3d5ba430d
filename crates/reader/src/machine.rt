//! The grammar's machine: one byte after the other, over the stack of what is still expected.

ghost use Rattle.std.specs.Prelude.{◌≡◌, ◌+◌, ◌*◌, ◌<◌, ◌≤◌, false, ◌&&◌, [], ◌∷◌, ◌++◌, length};
ghost use Rattle.grammar.specs.Grammar.{is_word};
ghost use Rattle.grammar.specs.Machine.{step, behind, after_p, after_m};
ghost use Rattle.reader.specs.Reading.{Says};
ghost use Rattle.reader.specs.Stack.{symbols, takes_word, Goes};

use super::spelling::Word;
use super::stack::Stack;
use super::types::Number;
use super::types::Want::{self, AfterM, AfterP, Lit, Name, Shape};
use grammar::types::{Kind, Sep};

/// A number that a space ends.
const NUMBER: Want = Want::Number(Number::Start, Sep::Space);

// Each asks for as much room as its longest table has: words are lent, so the stack can't grow.

/// A byte where a line may begin.
fn at_line(stack: &mut Stack<'_>, b: u8) -> Option<()>
    requires empty { stack.old.wants ≡ [] }
    requires room { 6 ≤ stack.old.size }
    ensures { Goes result (step [] b) stack.old stack.new }
{
    match b {
        b'p' => stack.push(AfterP),
        b'm' => stack.push(AfterM),
        b's' => stack.expect(&[
            Lit(b'a'),
            Lit(b'm'),
            Lit(b'e'),
            Lit(b' '),
            Name(Sep::Space),
            Name(Sep::End),
        ]),
        _ => return None,
    }
    Some(())
}

/// The second byte of a line that begins with p.
fn after_p(stack: &mut Stack<'_>, b: u8) -> Option<()>
    requires { length stack.old.wants + 9 ≤ stack.old.size }
    ensures { Goes result (step (after_p ∷ symbols stack.old.wants []) b) stack.old stack.new }
{
    match b {
        b'a' => stack.expect(&[
            Lit(b'r'),
            Lit(b't'),
            Lit(b' '),
            Name(Sep::Space),
            Lit(b'='),
            Lit(b' '),
            Shape(Sep::End),
        ]),
        b'l' => stack.expect(&[
            Lit(b'a'),
            Lit(b'c'),
            Lit(b'e'),
            Lit(b' '),
            Name(Sep::Space),
            NUMBER,
            NUMBER,
            NUMBER,
            Want::Number(Number::Start, Sep::End),
        ]),
        _ => return None,
    }
    Some(())
}

/// The second byte of a line that begins with m.
fn after_m(stack: &mut Stack<'_>, b: u8) -> Option<()>
    requires { length stack.old.wants + 5 ≤ stack.old.size }
    ensures { Goes result (step (after_m ∷ symbols stack.old.wants []) b) stack.old stack.new }
{
    match b {
        b'e' => stack.expect(&[
            Lit(b'e'),
            Lit(b't'),
            Lit(b' '),
            Name(Sep::Space),
            Name(Sep::End),
        ]),
        b'o' => stack.expect(&[Lit(b'd'), Lit(b'e'), Lit(b'l'), Lit(b' '), Name(Sep::End)]),
        _ => return None,
    }
    Some(())
}

/// The byte behind a whole word where a shape is expected; that shape is off the stack.
fn behind_word(stack: &mut Stack<'_>, kind: Kind, c: Sep, b: u8) -> Option<()>
    requires { length stack.old.wants + 6 ≤ stack.old.size }
    ensures { Goes result (behind kind c b (symbols stack.old.wants [])) stack.old stack.new }
{
    let last = Want::Number(Number::Start, c);
    let end = Lit(u8::from(c));
    match (kind, b) {
        (Kind::HalfWord, b' ') => stack.expect(&[NUMBER, NUMBER, NUMBER, last]),
        (Kind::BoxWord, b' ') => stack.expect(&[NUMBER, NUMBER, NUMBER, NUMBER, NUMBER, last]),
        (Kind::TwoWord, b'(') => stack.expect(&[
            Shape(Sep::Comma),
            Lit(b' '),
            Shape(Sep::Close),
            end,
        ]),
        (Kind::MoveWord, b' ') => stack.expect(&[
            NUMBER,
            NUMBER,
            NUMBER,
            Lit(b'('),
            Shape(Sep::Close),
            end,
        ]),
        (Kind::OneWord, b'(') => stack.expect(&[Shape(Sep::Close), end]),
        (Kind::NameWord, _) if b == u8::from(c) => {}
        _ => return None,
    }
    Some(())
}

/// The next byte of a number; that number is off the stack.
fn in_number(stack: &mut Stack<'_>, number: Number, c: Sep, b: u8) -> Option<()>
    requires { length stack.old.wants < stack.old.size }
    ensures { Goes result (step (symbols (Want.Number number c ∷ stack.old.wants) []) b) stack.old stack.new }
{
    match (number, b) {
        (Number::Start, b'-') => stack.push(Want::Number(Number::Minus, c)),
        (Number::Start, b'0') => stack.push(Lit(u8::from(c))),
        (Number::Start | Number::Minus, b'1'..=b'9') | (Number::Digits, b'0'..=b'9') => {
            stack.push(Want::Number(Number::Digits, c))
        }
        (Number::Digits, _) if b == u8::from(c) => {}
        _ => return None,
    }
    Some(())
}

/// Whether a word is expected first, and the byte goes on with it; `word` is what is there of it.
fn in_word(stack: &Stack<'_>, word: &Word<'_>, b: u8) -> bool
    ensures { result ≡ (takes_word stack.now.wants && is_word (word.now ++ b ∷ [])) }
{
    match stack.top() {
        Some(Name(_) | Shape(_)) => word.goes_on(b),
        _ => false,
    }
}

/// The next byte, where it goes on with no word; `word` is what there is of a word, and is empty where none is read.
fn advance(stack: &mut Stack<'_>, word: &Word<'_>, b: u8) -> Option<()>
    requires room { length stack.old.wants + 8 ≤ stack.old.size }
    requires ends { (takes_word stack.old.wants && is_word (word.now ++ b ∷ [])) ≡ false }
    ensures { Goes result (step (symbols stack.old.wants word.now) b) stack.old stack.new }
{
    let Some(want) = stack.pop() else {
        return at_line(stack, b);
    };
    match want {
        Lit(d) => (b == d).then_some(()),
        Want::Number(number, c) => in_number(stack, number, c, b),
        Name(c) => word.ends_name(c, b).then_some(()),
        Shape(c) => behind_word(stack, word.kind(), c, b),
        AfterP => after_p(stack, b),
        AfterM => after_m(stack, b),
    }
}

/// Whether the bytes are a text, and if not, the first byte at which no text goes on so.
pub(crate) fn read_text(text: &[u8], words: &mut [u64]) -> Result<(), usize>
    requires { 2 * length text.now + 15 ≤ length words.old }
    ensures { Says result text.now }
{
    let mut stack = Stack::new(words);
    let mut start = 0;
    for (i, b) in text.iter().enumerate() {
        let word = Word::new(&text[start..i]);
        if in_word(&stack, &word, *b) {
            continue;
        }
        advance(&mut stack, &word, *b).ok_or(i)?;
        start = i + 1;
    }
    if stack.is_empty() {
        Ok(())
    } else {
        Err(text.len())
    }
}
