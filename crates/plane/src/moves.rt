//! Planes moved, mirrored at x = 0, with x and y exchanged, and turned from x to y to z to x. With the
//! places moved likewise, each place keeps its height.

ghost use Rattle.std.specs.Prelude.{◌≡◌};
ghost use Rattle.plane.specs.Limits.{FitsPlane, FitsShift, IfFits};
ghost use Rattle.plane.specs.Moves.{Together, moved_plane, moved_place, mirrored_plane, mirrored_place, swapped_plane, swapped_place, rolled_plane, rolled_place};

use super::types::{Plane, Shift};

impl Plane {
    /// The plane moved by a step, in range or not.
    fn shifted(self, t: Shift) -> Plane
        requires plane { FitsPlane self }
        requires shift { FitsShift t }
        ensures { result ≡ moved_plane t self }
    {
        Plane {
            d: self.d + self.weighed(t.x, t.y, t.z),
            ..self
        }
    }

    /// The plane moved by a step, if it is then in range.
    #[tactic(auto, using(crate::proofs::Invariance::moved_together))]
    pub fn moved(self, t: Shift) -> Option<Plane>
        requires plane { FitsPlane self }
        requires shift { FitsShift t }
        ensures value { IfFits (moved_plane t self) result }
        ensures heights { Together (moved_plane t) (moved_place t) }
    {
        self.shifted(t).checked()
    }

    /// The plane mirrored at x = 0.
    #[tactic(auto, using(crate::proofs::Ranges::made, crate::proofs::Invariance::mirrored_together), unfolding(crate::specs::Moves::mirrored_plane))]
    pub fn mirrored(self) -> Plane
        requires { FitsPlane self }
        ensures value { result ≡ mirrored_plane self }
        ensures fits { FitsPlane result }
        ensures heights { Together mirrored_plane mirrored_place }
    {
        Plane { a: -self.a, ..self }
    }

    /// The plane with x and y exchanged.
    #[tactic(auto, using(crate::proofs::Ranges::made, crate::proofs::Invariance::swapped_together), unfolding(crate::specs::Moves::swapped_plane))]
    pub fn swapped(self) -> Plane
        requires { FitsPlane self }
        ensures value { result ≡ swapped_plane self }
        ensures fits { FitsPlane result }
        ensures heights { Together swapped_plane swapped_place }
    {
        Plane {
            a: self.b,
            b: self.a,
            ..self
        }
    }

    /// The plane turned from x to y to z to x.
    #[tactic(auto, using(crate::proofs::Ranges::made, crate::proofs::Invariance::rolled_together), unfolding(crate::specs::Moves::rolled_plane))]
    pub fn rolled(self) -> Plane
        requires { FitsPlane self }
        ensures value { result ≡ rolled_plane self }
        ensures fits { FitsPlane result }
        ensures heights { Together rolled_plane rolled_place }
    {
        Plane {
            a: self.c,
            b: self.a,
            c: self.b,
            ..self
        }
    }
}
