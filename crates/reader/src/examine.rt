//! Whether a text is taken, and if not, its first fault.

ghost use Rattle.std.specs.Prelude.{◌≡◌, ◌↔◌, ◌<◌, IsTrue, min, ◌+◌, ◌*◌, ◌≤◌, [], length, take};
ghost use Rattle.grammar.specs.Faults.{seen, word_faults, most_bytes};
ghost use Rattle.reader.specs.Reading.{Says, Reached, Words, Last, Examined};

use super::check::check;
use super::machine::read_text;
use super::tokens::token_starts;
use super::types::Refusal;
use super::word_list::{Found, WordList};

/// How many bytes of a text are read at most.
const MOST_BYTES: usize = 1048576;

/// How many bytes of the text are read.
fn front_of(text: &[u8]) -> usize
    ensures { result ≡ min (length text.now) most_bytes }
{
    text.len().min(MOST_BYTES)
}

/// Whether all bytes that are read begin a text, and there are more.
fn is_cut(text: &[u8], at: usize) -> bool
    ensures { IsTrue result ↔ ((most_bytes < length text.now) × (at ≡ most_bytes)) }
{
    text.len() > MOST_BYTES && at == MOST_BYTES
}

/// Whether the bytes are a text, and if not, the first at which no text goes on so; bytes past the most are not read.
fn read_front(text: &[u8], stack: &mut [u64]) -> Result<(), usize>
    requires { 2 * length text.now + 15 ≤ length stack.old }
    ensures { Says result (take most_bytes text.now) }
{
    read_text(&text[..front_of(text)], stack)
}

/// How far the bytes begin a text, by what is said of those that are read.
fn reach_of(text: &[u8], said: Result<(), usize>) -> usize
    requires { Says said (take most_bytes text.now) }
    ensures { Reached said result text.now }
{
    said.err().unwrap_or(front_of(text))
}

/// How many of the bytes that begin a text count as read: a word that runs into unread bytes is not looked at.
fn seen_of(text: &[u8], at: usize) -> usize
    ensures { result ≡ seen text.now at }
{
    if is_cut(text, at) { at - 1 } else { at }
}

/// The words of bytes that begin a text: their first fault, or the words and the names of the parts.
fn scan_words<'w>(
    begun: &'w [u8],
    tokens: &'w mut [u64],
    names: &'w mut [u64],
    read: usize,
) -> Result<Found<'w>, Refusal>
    requires tokens { length begun.now ≤ length tokens.old }
    requires names { length begun.now ≤ length names.old }
    ensures { Words result read begun.now }
{
    let tokens = token_starts(begun, tokens);
    let names = check(begun, tokens, names, read)?;
    Ok(Found {
        tokens: WordList::new(begun, tokens),
        names: WordList::new(begun, names),
    })
}

/// What is wrong with bytes whose words have no fault.
fn last_fault(text: &[u8], said: Result<(), usize>, at: usize) -> Result<(), Refusal>
    requires reach { Reached said at text.now }
    requires clean { word_faults (seen text.now at) (take at text.now) ≡ [] }
    ensures { Last result text.now }
{
    if is_cut(text, at) {
        return Err(Refusal::Limit(MOST_BYTES));
    }
    said.map_err(Refusal::Grammar)
}

/// Whether a text is taken: then its words and the names of its parts; else its first fault.
pub(crate) fn examine<'w>(
    text: &'w [u8],
    stack: &mut [u64],
    tokens: &'w mut [u64],
    names: &'w mut [u64],
) -> Result<Found<'w>, Refusal>
    requires stack { 2 * length text.now + 15 ≤ length stack.old }
    requires tokens { length text.now ≤ length tokens.old }
    requires names { length text.now ≤ length names.old }
    ensures { Examined result text.now }
{
    let said = read_front(text, stack);
    let at = reach_of(text, said);
    let found = scan_words(&text[..at], tokens, names, seen_of(text, at))?;
    last_fault(text, said, at)?;
    Ok(found)
}
