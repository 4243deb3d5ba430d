//! The modeller's calls: a text is read into lent words, and its questions are answered.

#![tactic(auto)]

ghost use Rattle.std.specs.Prelude.{◌≡◌, ◌+◌, ◌*◌, ◌^◌, ◌<◌, ◌≤◌, List, [], length};
ghost use Rattle.std.specs.Option.{SomeIff};
ghost use Rattle.solid.specs.Examples.{told};
ghost use Rattle.solid.specs.Shapes.{Shape, Fits};
ghost use Rattle.solid.specs.Steps.{words};
ghost use Rattle.grammar.specs.Grammar.{Line, print};
ghost use Rattle.grammar.specs.Meaning.{questions};
ghost use Rattle.modeller.specs.Drawings.{steps_needed};
ghost use Rattle.modeller.specs.Openings.{Opened};
ghost use Rattle.modeller.specs.Replies.{Replied, place_in, steps_in, Ready, work_needed};

pub mod drawing;
#[cfg(test)]
mod tests;
pub mod types;

use drawing::Drawing;
use plane::types::Place;
use reader::types::{Layout, QUESTION_WORDS, Room};
use solid::types::Steps;
use types::{Refused, Reply};

/// How many words are lent for the work: each plane of a part is a step, and so is each joint, of which there is one fewer.
pub const WORK_NEEDED: usize = 400;

/// How many words the stack of the reader has beside two for each byte.
const STACK_SPARE: usize = 15;

/// How many words are lent for each byte of a text: two for the stack of the reader, one each for where words begin,
/// for names and for the parts' spots, two for steps and one for questions.
const WORDS_FOR_BYTE: usize = 8;

/// How many words are lent for the steps of a text of so many bytes, if there can be so many.
pub fn steps_for(bytes: usize) -> Option<usize>
    ensures { SomeIff result (steps_needed bytes < 2 ^ 64) (steps_needed bytes) }
{
    bytes.checked_mul(WORDS_FOR_BYTE)?.checked_add(STACK_SPARE)
}

impl<'t, 's> Drawing<'t, 's> {
    /// Reads a text into lent words.
    pub fn read(text: &'t [u8], lent: &'s mut [u64]) -> Result<Drawing<'t, 's>, Refused>
        ensures { Opened result text.now (length lent.old) }
    {
        let n = text.len();
        if lent.len() < steps_for(n).ok_or(Refused::Steps)? {
            return Err(Refused::Steps);
        }
        let (stack, rest) = lent.split_at_mut(2 * n + STACK_SPARE);
        let (tokens, rest) = rest.split_at_mut(n);
        let (names, rest) = rest.split_at_mut(n);
        let (spots, rest) = rest.split_at_mut(n);
        let (steps, asked) = rest.split_at_mut(2 * n);
        let room = Room {
            stack,
            tokens,
            names,
            spots,
        };
        let counts = reader::read(text, room, steps, asked)?;
        let layout = Layout {
            steps: &steps[..counts.used],
            asked: &asked[..QUESTION_WORDS * counts.asked],
        };
        Ok(Drawing { text, layout })
    }

    /// How many questions the text asks.
    pub fn questions(&self) -> usize
        ensures { (ls : List Line) → self.now.text.now ≡ print ls → result ≡ length (questions [] ls) }
    {
        self.layout.asked.len() / QUESTION_WORDS
    }

    /// The answer to the k-th question, if there is one.
    pub fn tell(&self, k: usize, work: &mut [u64]) -> Result<Option<Reply>, Refused>
        ensures { Replied self.now.text.now (length work.old) k result }
    {
        if work.len() < WORK_NEEDED {
            return Err(Refused::Work);
        }
        if k >= self.questions() {
            return Ok(None);
        }
        Ok(Some(place_reply(self.layout, k, work)))
    }
}

/// The place of the k-th question.
fn place_at(asked: &[u64], k: usize) -> Place
    requires { 6 * k + 6 ≤ length asked.now }
    ensures { result ≡ place_in asked.now k }
{
    let at = QUESTION_WORDS * k;
    Place {
        x: asked[at + 2].cast_signed(),
        y: asked[at + 3].cast_signed(),
        z: asked[at + 4].cast_signed(),
        w: asked[at + 5],
    }
}

/// Where the place of the k-th question is.
fn place_reply(layout: Layout<'_>, k: usize, work: &mut [u64]) -> Reply
    requires ready { Ready layout.steps.now layout.asked.now k }
    requires room { work_needed ≤ length work.old }
    ensures { (s : Shape) → Fits s → steps_in layout.entry.steps.now layout.entry.asked.now k ≡ words s → result ≡ Reply.Place (told s (place_in layout.entry.asked.now k)) }
{
    let at = QUESTION_WORDS * k;
    let from = layout.asked[at] as usize;
    let end = from + layout.asked[at + 1] as usize;
    let steps = Steps::new(&layout.steps[from..end]);
    Reply::Place(steps.place_told(place_at(layout.asked, k), work))
}
