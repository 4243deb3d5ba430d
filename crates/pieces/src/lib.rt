//! Whether two parts are the same solid, and whether they meet.

#![tactic(auto)]

ghost use Rattle.search.specs.Search.{Off, Found};
ghost use Rattle.solid.specs.Stacks.{shape_of};
ghost use Rattle.pieces.specs.Questions.{in_one, in_two, joined_in, planes_of_two, RoomFor};

mod gather;
pub mod parts;
pub mod questions;

use gather::gather_two;
use parts::{Parts, Room};
use plane::types::Place;
use questions::{Difference, Join, Joined, Overlap};
use search::places::find;

// A value of the parts and the room, with `RoomFor` as its invariant, would be made only to be taken apart.
impl Parts<'_> {
    /// A place off the planes where the answers of the two parts, joined, hold, if there is one.
    fn place_where<J: Join + Drop>(&self, join: J, room: Room<'_, '_, '_>) -> Option<Place>
        requires { RoomFor self.now room }
        ensures { let s = shape_of self.now.first in let t = shape_of self.now.second in
            Found (Off (planes_of_two s t)) (joined_in J.joined s t) result }
    {
        let Room { planes, lent, work } = room;
        let planes = gather_two(self, planes);
        let joined = Joined {
            first: self.first,
            second: self.second,
            join,
        };
        find(&joined, planes, lent, work)
    }

    /// A place off the planes where the two parts differ, if there is one.
    pub fn difference(&self, room: Room<'_, '_, '_>) -> Option<Place>
        requires { RoomFor self.now room }
        ensures { let s = shape_of self.now.first in let t = shape_of self.now.second in
            Found (Off (planes_of_two s t)) (in_one s t) result }
    {
        self.place_where(Difference, room)
    }

    /// A place off the planes that the two parts share, if there is one.
    pub fn overlap(&self, room: Room<'_, '_, '_>) -> Option<Place>
        requires { RoomFor self.now room }
        ensures { let s = shape_of self.now.first in let t = shape_of self.now.second in
            Found (Off (planes_of_two s t)) (in_two s t) result }
    {
        self.place_where(Overlap, room)
    }
}
