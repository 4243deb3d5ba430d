//! Planes in range, and on which side of a plane a place is.

ghost use Rattle.std.specs.Prelude.{◌≡◌, ◌↔◌, IsTrue};
ghost use Rattle.arith.specs.Bounds.{Short};
ghost use Rattle.plane.specs.Limits.{FitsPlane, Gentle, IfFits, Sloped, SmallPlace, coordinate_limit, weight_limit};
ghost use Rattle.plane.specs.Planes.{height, side, turned, weight};

use super::types::{OFFSET_LIMIT, Place, Plane, SLOPE_LIMIT, Side};
use std::cmp::Ordering;

/// Whether the number is from -limit to limit.
fn within(n: i64, limit: u64) -> bool
    ensures { IsTrue result ↔ Short n limit }
{
    n.unsigned_abs() <= limit
}

impl Plane {
    /// The plane with these numbers, if it is in range.
    pub fn new(a: i64, b: i64, c: i64, d: i64) -> Option<Plane>
        ensures { IfFits (record { a = a; b = b; c = c; d = d }) result }
    {
        Plane { a, b, c, d }.checked()
    }

    /// The plane, if it is in range.
    pub(crate) fn checked(self) -> Option<Plane>
        ensures { IfFits self result }
    {
        self.is_in_range().then_some(self)
    }

    /// Whether the plane is in range.
    fn is_in_range(self) -> bool
        ensures { IsTrue result ↔ FitsPlane self }
    {
        self.is_gentle() && within(self.d, OFFSET_LIMIT) && self.is_sloped()
    }

    /// Whether the slopes are in range.
    fn is_gentle(self) -> bool
        ensures { IsTrue result ↔ Gentle self }
    {
        within(self.a, SLOPE_LIMIT) && within(self.b, SLOPE_LIMIT) && within(self.c, SLOPE_LIMIT)
    }

    /// Whether the slopes are not all 0.
    fn is_sloped(self) -> bool
        ensures { IsTrue result ↔ Sloped self }
    {
        self.a != 0 || self.b != 0 || self.c != 0
    }

    /// The plane, looked at from the other side.
    pub fn turned_round(self) -> Plane
        requires { FitsPlane self }
        ensures value { result ≡ turned self }
        ensures fits { FitsPlane result }
    {
        Plane {
            a: -self.a,
            b: -self.b,
            c: -self.c,
            d: -self.d,
        }
    }

    /// a x + b y + c z.
    pub(crate) fn weighed(self, x: i64, y: i64, z: i64) -> i64
        requires plane { FitsPlane self }
        requires x { Short x coordinate_limit }
        requires y { Short y coordinate_limit }
        requires z { Short z coordinate_limit }
        ensures value { result ≡ weight self x y z }
        ensures short { Short result weight_limit }
    {
        self.a * x + self.b * y + self.c * z
    }

    /// How far the place is above the plane; below 0 where it is below.
    pub fn height_of(self, q: Place) -> i64
        requires plane { FitsPlane self }
        requires place { SmallPlace q }
        ensures { result ≡ height self q }
    {
        self.weighed(q.x, q.y, q.z) - self.d * q.w as i64
    }

    /// On which side of the plane the place is.
    pub fn side_of(self, q: Place) -> Side
        requires plane { FitsPlane self }
        requires place { SmallPlace q }
        ensures { result ≡ side self q }
    {
        match self.height_of(q).cmp(&0) {
            Ordering::Less => Side::Below,
            Ordering::Equal => Side::On,
            Ordering::Greater => Side::Above,
        }
    }
}
