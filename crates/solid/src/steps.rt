//! A step as a word, and back.

ghost use Rattle.std.specs.Prelude.{◌≡◌, ◌+◌, ◌*◌, ◌<◌, ◌≤◌};
ghost use Rattle.arith.specs.Bounds.{Short};
ghost use Rattle.plane.specs.Limits.{slope_limit, offset_limit, FitsPlane};
ghost use Rattle.solid.specs.Steps.{span, raised, lowered, plane_number, numbered_plane, word, step, FitsStep};

use super::types::Step;
use plane::types::{OFFSET_LIMIT, Plane, SLOPE_LIMIT};

/// How many slopes there are.
const SLOPES: u64 = 2 * SLOPE_LIMIT + 1;

/// How many offsets there are.
const OFFSETS: u64 = 2 * OFFSET_LIMIT + 1;

/// A number from -n to n, counted from 0.
fn raise(n: u64, z: i64) -> u64
    requires limit { n ≤ offset_limit }
    requires short { Short z n }
    ensures value { result ≡ raised n z }
    ensures small { result < span n }
{
    (z + n as i64) as u64
}

/// The number from -n to n that is counted as k.
fn lower(n: u64, k: u64) -> i64
    requires limit { n ≤ offset_limit }
    requires small { k < span n }
    ensures { result ≡ lowered n k }
{
    k as i64 - n as i64
}

/// The plane of a number, whose digits are the slopes and the offset.
// No `From`: neither type is of this crate.
#[tactic(auto, unfolding(crate::specs::Steps::numbered_plane))]
fn plane_of(n: u64) -> Plane
    ensures { result ≡ numbered_plane n }
{
    let rest = n / SLOPES;
    let last = rest / SLOPES;
    Plane {
        a: lower(SLOPE_LIMIT, n % SLOPES),
        b: lower(SLOPE_LIMIT, rest % SLOPES),
        c: lower(SLOPE_LIMIT, last % SLOPES),
        d: lower(OFFSET_LIMIT, last / SLOPES % OFFSETS),
    }
}

/// The number of a plane.
// No `From`: neither type is of this crate, and a plane out of range has no number.
#[tactic(auto, unfolding(crate::specs::Steps::plane_number))]
fn number_of(p: Plane) -> u64
    requires plane { FitsPlane p }
    ensures value { result ≡ plane_number p }
    ensures small { result < span slope_limit * (span slope_limit * (span slope_limit * span offset_limit)) }
{
    let a = raise(SLOPE_LIMIT, p.a);
    let b = raise(SLOPE_LIMIT, p.b);
    let c = raise(SLOPE_LIMIT, p.c);
    let d = raise(OFFSET_LIMIT, p.d);
    a + SLOPES * (b + SLOPES * (c + SLOPES * d))
}

impl From<u64> for Step {
    ghost from_gives = { λ w s. s ≡ step w };

    /// The step that a word means; each word means one.
    #[tactic(auto, using(std::proofs::lemmas::Bool::Decides::nat_tests), unfolding(crate::specs::Steps::step))]
    fn from(w: u64) -> Step {
        match w {
            0 => Step::Both,
            1 => Step::Either,
            2 => Step::Without,
            _ => Step::Half(plane_of(w - 3)),
        }
    }
}

impl Step {
    /// The word of the step.
    // No `From`: a step out of range has no word.
    #[tactic(auto, unfolding(crate::specs::Steps::word))]
    pub fn word(self) -> u64
        requires { FitsStep self }
        ensures { result ≡ word self }
    {
        match self {
            Step::Both => 0,
            Step::Either => 1,
            Step::Without => 2,
            Step::Half(p) => 3 + number_of(p),
        }
    }
}
