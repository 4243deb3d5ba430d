//! Bytes to steps: reads a text, or says which fault comes first.

#![tactic(auto)]

ghost use Rattle.std.specs.Prelude.{◌*◌, ◌≤◌, length};
ghost use Rattle.reader.specs.Reading.{Read, Enough};

mod build;
mod check;
mod examine;
mod looks;
mod machine;
mod spelling;
mod stack;
mod tokens;
pub mod types;
mod word_list;

use build::build;
use examine::examine;
use types::{Counts, Refusal, Room};

/// Reads a text: lays the steps of its parts into `steps` and its questions into `asked`, or tells its first
/// fault. All words are lent for the call alone.
pub fn read(
    text: &[u8],
    room: Room<'_, '_, '_, '_>,
    steps: &mut [u64],
    asked: &mut [u64],
) -> Result<Counts, Refusal>
    requires work { Enough text.now room }
    requires steps { 2 * length text.now ≤ length steps.old }
    requires asked { length text.now ≤ length asked.old }
    ensures { Read result text.now steps.new asked.new }
{
    let Room {
        stack,
        tokens,
        names,
        spots,
    } = room;
    let found = examine(text, stack, tokens, names)?;
    Ok(build(&found, spots, steps, asked))
}
