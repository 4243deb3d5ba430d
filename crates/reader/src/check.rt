//! The words of a text, one after the other: the first fault, or none.

ghost use Rattle.std.specs.Prelude.{◌≡◌, ◌≤◌, false, length};
ghost use Rattle.grammar.specs.Tokens.{starts_from};
ghost use Rattle.reader.specs.Scan.{Checked};

use super::looks::look;
use super::tokens::token_at;
use super::types::{Expect, Refusal};
use super::word_list::WordList;
use lent::LentList;

/// The first fault in the words of bytes; or none, and then where the names of the parts begin. `tokens` are the
/// first bytes of all words; the first `read` bytes count as read.
pub(crate) fn check<'w>(
    text: &[u8],
    tokens: &[u64],
    room: &'w mut [u64],
    read: usize,
) -> Result<&'w [u64], Refusal>
    requires tokens { tokens.now ≡ starts_from false 0 text.now }
    requires room { length tokens.now ≤ length room.old }
    ensures { Checked result read text.now }
{
    let mut names = LentList::new(room);
    let mut expect = Expect::AtLine;
    for start in tokens {
        let at = *start as usize;
        let word = token_at(text, at);
        if at + word.len() > read {
            continue;
        }
        let Some(next) = look(&WordList::new(text, names.as_slice()), expect, at, word)? else {
            return Ok(names.into_slice());
        };
        if let Expect::AtNewName = expect {
            names.push(*start);
        }
        expect = next;
    }
    Ok(names.into_slice())
}
