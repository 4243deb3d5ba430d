//! The planes of parts and of the workshop, in a list.

ghost use Rattle.std.specs.Prelude.{◌≡◌, ◌+◌, ◌≤◌, ◌++◌, length};
ghost use Rattle.solid.specs.Stacks.{shape_of, word_planes};
ghost use Rattle.search.specs.Levels.{AllLevel};
ghost use Rattle.pieces.specs.Questions.{planes_of_two};

use super::parts::Parts;
use lent::LentList;
use plane::types::Plane;
use solid::types::{Step, Steps};
use solid::value::walls;

/// Puts the planes of steps behind those of the list.
fn gather(steps: Steps<'_>, planes: &mut LentList<Plane>)
    requires { length planes.old.items + length steps.words.now ≤ planes.old.room }
    ensures few { length planes.new.items ≤ length planes.old.items + length steps.entry.words.now }
    ensures are { planes.new.items ≡ planes.old.items ++ word_planes steps.entry.words.now }
    ensures room { planes.new.room ≡ planes.old.room }
{
    for w in steps.words {
        if let Step::Half(p) = Step::from(*w) {
            planes.push(p);
        }
    }
}

/// The planes of the workshop and of two parts.
pub(crate) fn gather_two<'m>(parts: &Parts<'_>, slots: &'m mut [Plane]) -> &'m [Plane]
    requires { 6 + length parts.now.first + length parts.now.second ≤ length slots.old }
    ensures are { result.now ≡ planes_of_two (shape_of parts.now.first) (shape_of parts.now.second) }
    ensures level { AllLevel result.now }
    ensures few { length result.now ≤ length slots.old }
{
    let mut planes = LentList::new(slots);
    planes.extend_from_slice(&walls());
    gather(parts.first, &mut planes);
    gather(parts.second, &mut planes);
    planes.into_slice()
}
