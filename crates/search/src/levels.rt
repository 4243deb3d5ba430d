//! What is special to level planes: the numbers of x, y and z that stand for all, and a walk over them.
// Coordinates are kept as words and cast, since the memory that callers lend is words.

ghost use Rattle.std.specs.Prelude.{◌≡◌, ◌<◌, ◌≤◌, length, pos, ◌+ℤ◌, ◌*ℤ◌, IfSome};
ghost use Rattle.std.specs.Int.{w64, cast_signed};
ghost use Rattle.arith.specs.Bounds.{Short};
ghost use Rattle.plane.specs.Limits.{FitsPlane, SmallPlace, offset_limit};
ghost use Rattle.search.specs.Levels.{Level, slope_along, number_along, base_along, numbers, middles, spots, spot_limit, halved, AllShort, Listed, Standing};
ghost use Rattle.search.specs.Search.{OffAt, BySidesAt, Found, lent_words};

use super::places::{Asker, Question};
use lent::LentList;
use plane::types::{OFFSET_LIMIT, Place, Plane};
use std::marker::Model;

/// Doubled, further down than all planes.
const LOWEST: i64 = -(2 * OFFSET_LIMIT as i64 + 1);

/// The axes.
#[derive(Clone, Copy, Debug, PartialEq, Eq)]
pub enum Axis {
    X,
    Y,
    Z,
}

impl Axis {
    /// A level plane's slope along the axis.
    fn slope_of(self, p: Plane) -> i64
        requires { Level p }
        ensures value { result ≡ slope_along self p }
        ensures short { Short result 1 }
    {
        match self {
            Axis::X => p.a,
            Axis::Y => p.b,
            Axis::Z => p.c,
        }
    }

    /// Where a level plane is on the axis, if it has a slope along it.
    fn number_of(self, p: Plane) -> Option<i64>
        requires { FitsPlane p × Level p }
        ensures value { result ≡ number_along self p }
        ensures short { IfSome result (λ v. Short v offset_limit) }
    {
        let s = self.slope_of(p);
        (s != 0).then_some(s * p.d)
    }
}

/// The middle behind a number, doubled.
#[tactic(auto, using(std::proofs::lemmas::Int::ints))]
fn middle_behind(v: i64) -> u64
    requires { Short v offset_limit }
    ensures { cast_signed w64 result ≡ pos 2 *ℤ v +ℤ pos 1 }
{
    (2 * v + 1).cast_unsigned()
}

/// The place with these doubled coordinates.
fn place_of(x: u64, y: u64, z: u64) -> Place
    requires x { Short (cast_signed w64 x) spot_limit }
    requires y { Short (cast_signed w64 y) spot_limit }
    requires z { Short (cast_signed w64 z) spot_limit }
    ensures value { result ≡ halved (cast_signed w64 x) (cast_signed w64 y) (cast_signed w64 z) }
    ensures small { SmallPlace result }
{
    Place {
        x: x.cast_signed(),
        y: y.cast_signed(),
        z: z.cast_signed(),
        w: 2,
    }
}

/// A place for which the question holds, with doubled coordinates of three lists.
// The three loops are left at once, by their label.
fn first_of<Q: Question>(asker: &mut Asker<Q>, xs: &[u64], ys: &[u64], zs: &[u64]) -> Option<Place>
    requires x { AllShort (numbers xs.now) }
    requires y { AllShort (numbers ys.now) }
    requires z { AllShort (numbers zs.now) }
    ensures { Found (Listed (numbers xs.now) (numbers ys.now) (numbers zs.now)) (Q.asked asker.old) result }
{
    let mut found = None;
    'search: for x in xs {
        for y in ys {
            for z in zs {
                let q = place_of(*x, *y, *z);
                if asker.holds_at(q) {
                    found = Some(q);
                    break 'search;
                }
            }
        }
    }
    found
}

/// Level planes, and a level base to stay on, if there is one.
#[derive(Drop)]
pub(crate) struct Grid<'p> {
    pub(crate) base: Option<Plane>,
    pub(crate) planes: &'p [Plane],
}

// Clauses see the planes by value.
impl<'p> Model for Grid<'p> {
    ghost use Rattle.search.specs.Levels.{Grid, AllLevel, BaseLevel};

    ghost Value = { Grid };

    ghost view = { λ g. record { base = g.base; planes = g.planes.now } };

    ghost invariant = { λ g. BaseLevel g.base × AllLevel g.planes.now };
}

impl<'p> Grid<'p> {
    /// Doubled coordinates, one for each way to lie between the planes of an axis.
    #[tactic(auto, using(std::proofs::lemmas::Int::ints))]
    fn middles<'w>(&self, axis: Axis, words: &'w mut [u64]) -> &'w [u64]
        requires { length self.now.planes < length words.old }
        ensures value { numbers result.now ≡ middles axis self.now.planes }
        ensures short { AllShort (numbers result.now) }
    {
        let mut list = LentList::new(words);
        list.push(LOWEST.cast_unsigned());
        for p in self.planes {
            if let Some(v) = axis.number_of(*p) {
                list.push(middle_behind(v));
            }
        }
        list.into_slice()
    }

    /// Where the base is on an axis, if there is one and it has a slope along it.
    fn base_number(&self, axis: Axis) -> Option<i64>
        ensures value { result ≡ base_along axis self.now.base }
        ensures short { IfSome result (λ v. Short v offset_limit) }
    {
        axis.number_of(self.base?)
    }

    /// The one doubled coordinate of the base if it is of this axis, else those between the planes.
    #[tactic(auto, using(std::proofs::lemmas::Int::ints))]
    fn spots<'w>(&self, axis: Axis, words: &'w mut [u64]) -> &'w [u64]
        requires { length self.now.planes < length words.old }
        ensures value { numbers result.now ≡ spots self.now.base self.now.planes axis }
        ensures short { AllShort (numbers result.now) }
    {
        match self.base_number(axis) {
            None => self.middles(axis, words),
            Some(v) => {
                let mut list = LentList::new(words);
                list.push((2 * v).cast_unsigned());
                list.into_slice()
            }
        }
    }

    /// A place for which the question holds, off the planes, or on the base and off those that cross it. It is
    /// sought among the places that stand for all others.
    pub(crate) fn search<Q: Question>(
        &self,
        asker: &mut Asker<Q>,
        lent: &mut [u64],
    ) -> Option<Place>
        requires sides { BySidesAt self.now.base self.now.planes (Q.asked asker.old) }
        requires room { lent_words (length self.now.planes) ≤ length lent.old }
        ensures { Found (OffAt self.now.base self.now.planes) (Q.asked asker.old) result }
    {
        let each = self.planes.len() + 1;
        let (xs, rest) = lent.split_at_mut(each);
        let (ys, zs) = rest.split_at_mut(each);
        let xs = self.spots(Axis::X, xs);
        let ys = self.spots(Axis::Y, ys);
        let zs = self.spots(Axis::Z, zs);
        first_of(asker, xs, ys, zs)
    }
}
