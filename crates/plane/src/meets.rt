//! Where three planes meet, by Cramer's rule.

ghost use Rattle.std.specs.Prelude.{◌≡◌};
ghost use Rattle.arith.specs.Bounds.{Short};
ghost use Rattle.plane.specs.Limits.{FitsPlane, corner_limit};
ghost use Rattle.plane.specs.Meets.{determinant, Met};
ghost use Rattle.plane.specs.Moves.{rolled_plane};
ghost use Rattle.plane.specs.Cramer.{FitsRow, numerator_x, numerator_y, numerator_z, offset_first, over};

use super::types::{Place, Plane};
use std::cmp::Ordering;

/// Three planes in range.
#[derive(Clone, Copy)]
struct Three {
    p: Plane,
    q: Plane,
    r: Plane,
    ghost p_fits: { FitsPlane p },
    ghost q_fits: { FitsPlane q },
    ghost r_fits: { FitsPlane r },
}

/// The determinant of the three rows of slopes; the first column may be one of offsets.
fn determinant_of(p: Plane, q: Plane, r: Plane) -> i64
    requires p { FitsRow p }
    requires q { FitsRow q }
    requires r { FitsRow r }
    ensures value { result ≡ determinant p q r }
    ensures short { Short result corner_limit }
{
    let i = q.b * r.c - q.c * r.b;
    let j = q.c * r.a - q.a * r.c;
    let k = q.a * r.b - q.b * r.a;
    p.a * i + p.b * j + p.c * k
}

impl Plane {
    /// The plane with its offset in the place of the first slope.
    #[tactic(auto, using(crate::proofs::Ranges::made), unfolding(crate::specs::Cramer::offset_first))]
    fn with_offset_first(self) -> Plane
        requires { FitsPlane self }
        ensures value { result ≡ offset_first self }
        ensures fits { FitsRow result }
    {
        Plane { a: self.d, ..self }
    }
}

impl Three {
    /// Each plane turned from x to y to z to x.
    fn rolled(self) -> Three
        ensures p { result.p ≡ rolled_plane self.p }
        ensures q { result.q ≡ rolled_plane self.q }
        ensures r { result.r ≡ rolled_plane self.r }
    {
        Three {
            p: self.p.rolled(),
            q: self.q.rolled(),
            r: self.r.rolled(),
        }
    }

    /// What x of the meet is, times the determinant.
    fn numerator_x(self) -> i64
        ensures value { result ≡ numerator_x self.p self.q self.r }
        ensures short { Short result corner_limit }
    {
        determinant_of(
            self.p.with_offset_first(),
            self.q.with_offset_first(),
            self.r.with_offset_first(),
        )
    }

    /// The same for z, which comes to the place of x.
    fn numerator_z(self) -> i64
        ensures value { result ≡ numerator_z self.p self.q self.r }
        ensures short { Short result corner_limit }
    {
        self.rolled().numerator_x()
    }

    /// The same for y, which comes to the place of z.
    fn numerator_y(self) -> i64
        ensures value { result ≡ numerator_y self.p self.q self.r }
        ensures short { Short result corner_limit }
    {
        self.rolled().numerator_z()
    }

    /// What w of the meet is, with the same factor.
    fn determinant(self) -> i64
        ensures value { result ≡ determinant self.p self.q self.r }
        ensures short { Short result corner_limit }
    {
        determinant_of(self.p, self.q, self.r)
    }
}

/// The place (x / w, y / w, z / w), if w is not 0.
fn place_over(x: i64, y: i64, z: i64, w: i64) -> Option<Place>
    requires x { Short x corner_limit }
    requires y { Short y corner_limit }
    requires z { Short z corner_limit }
    requires w { Short w corner_limit }
    ensures { result ≡ over x y z w }
{
    match w.cmp(&0) {
        Ordering::Less => Some(Place {
            x: -x,
            y: -y,
            z: -z,
            w: w.unsigned_abs(),
        }),
        Ordering::Equal => None,
        Ordering::Greater => Some(Place {
            x,
            y,
            z,
            w: w.unsigned_abs(),
        }),
    }
}

/// The one place where three planes meet, unless their directions lie in one plane.
pub fn meet(p: Plane, q: Plane, r: Plane) -> Option<Place>
    requires p { FitsPlane p }
    requires q { FitsPlane q }
    requires r { FitsPlane r }
    ensures { Met p q r result }
{
    let planes = Three { p, q, r };
    place_over(
        planes.numerator_x(),
        planes.numerator_y(),
        planes.numerator_z(),
        planes.determinant(),
    )
}
