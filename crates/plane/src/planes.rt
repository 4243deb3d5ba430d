//! Whether two planes lie in the same one.

ghost use Rattle.std.specs.Prelude.{◌≡◌, ◌↔◌, IsTrue};
ghost use Rattle.arith.specs.Bounds.{Short};
ghost use Rattle.plane.specs.Limits.{FitsPlane, along_limit};
ghost use Rattle.plane.specs.Planes.{along, Coincide};
ghost use Rattle.plane.specs.Ratios.{multiplied, InRatio};

use super::types::{Facing, Plane};

impl Plane {
    /// How far the planes' directions go together.
    fn along(self, r: Plane) -> i64
        requires p { FitsPlane self }
        requires r { FitsPlane r }
        ensures value { result ≡ along self r }
        ensures short { Short result along_limit }
    {
        self.weighed(r.a, r.b, r.c)
    }

    /// The plane with all numbers times k.
    fn times(self, k: i64) -> Plane
        requires p { FitsPlane self }
        requires k { Short k along_limit }
        ensures { result ≡ multiplied k self }
    {
        Plane {
            a: k * self.a,
            b: k * self.b,
            c: k * self.c,
            d: k * self.d,
        }
    }

    /// Whether the planes' numbers are in one ratio.
    fn is_in_ratio(self, r: Plane) -> bool
        requires p { FitsPlane self }
        requires r { FitsPlane r }
        ensures { IsTrue result ↔ InRatio self r }
    {
        r.times(self.along(self)) == self.times(self.along(r))
    }

    /// Whether the two planes lie in the same one, and which way they look.
    pub fn coincide(self, r: Plane) -> Option<Facing>
        requires p { FitsPlane self }
        requires r { FitsPlane r }
        ensures { Coincide self r result }
    {
        if !self.is_in_ratio(r) {
            None
        } else if self.along(r) > 0 {
            Some(Facing::Alike)
        } else {
            Some(Facing::Opposite)
        }
    }
}
