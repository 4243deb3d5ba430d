//! The words and numbers of a text.

ghost use Rattle.std.specs.Prelude.{◌≡◌, ◌≤◌, false, length, drop, ℤ};
ghost use Rattle.grammar.specs.Grammar.{same, signed};
ghost use Rattle.grammar.specs.Tokens.{in_tok, starts_from, tok_at};
ghost use Rattle.grammar.specs.Values.{read_on, Told, Value};
ghost use Rattle.grammar.specs.Faults.{amount};
ghost use Rattle.std.specs.List.{between};

use super::spelling::is_alnum;
use lent::LentList;
use plane::types::OFFSET_LIMIT;

/// The largest size of a number.
const NUMBER_LIMIT: u64 = OFFSET_LIMIT;

/// Whether the byte is one of a word or a number.
pub(crate) fn in_token(b: u8) -> bool
    ensures { result ≡ in_tok b }
{
    is_alnum(b) || b == b'-'
}

/// Where each word and number of the text begins, in their order.
pub(crate) fn token_starts<'w>(text: &[u8], room: &'w mut [u64]) -> &'w [u64]
    requires { length text.now ≤ length room.old }
    ensures most { length result.now ≤ length text.now }
    ensures are { result.now ≡ starts_from false 0 text.now }
{
    let mut starts = LentList::new(room);
    let mut inside = false;
    for (i, b) in text.iter().enumerate() {
        let token = in_token(*b);
        if token && !inside {
            starts.push(i as u64);
        }
        inside = token;
    }
    starts.into_slice()
}

/// The number that digits write, up to the first byte that is none, if it is in range.
fn magnitude(digits: &[u8]) -> Option<u64>
    ensures { Told result (read_on 0 digits.now) }
{
    let mut size = 0;
    for b in digits {
        if !b.is_ascii_digit() {
            return Some(size);
        }
        size = 10 * size + u64::from(*b - b'0');
        if size > NUMBER_LIMIT {
            return None;
        }
    }
    Some(size)
}

/// The size of a number, if it is in range.
pub(crate) fn amount_of(word: &[u8]) -> Option<u64>
    ensures { Told result (amount word.now) }
{
    magnitude(word.strip_prefix(b"-").unwrap_or(word))
}

/// The number that is written, if it is in range.
pub(crate) fn number_of(word: &[u8]) -> Option<i64>
    ensures { (z : ℤ) → word.now ≡ signed z → Value result z }
{
    let size = amount_of(word)? as i64;
    Some(if word.starts_with(b"-") { -size } else { size })
}

/// The word or number that begins at a byte.
pub(crate) fn token_at(text: &[u8], from: usize) -> &[u8]
    requires { from ≤ length text.now }
    ensures { result.now ≡ tok_at (drop from text.now) }
{
    let behind = &text[from..];
    let end = behind
        .iter()
        .position(|b| !in_token(*b))
        .unwrap_or(behind.len());
    &behind[..end]
}

/// Whether the word or number that begins at a byte is this one.
pub(crate) fn is_token_at(text: &[u8], from: usize, word: &[u8]) -> bool
    requires { from ≤ length text.now }
    ensures { result ≡ same word.now (tok_at (drop from text.now)) }
{
    // Its front first: few names that differ begin alike, and only of those that do is the end looked for.
    text[from..].starts_with(word) && token_at(text, from) == word
}
