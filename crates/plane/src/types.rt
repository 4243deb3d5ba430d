//! Planes and places, by value, and the largest numbers of a plane.
//!
//! They are plain numbers, in range or not: words, bytes and moves give any, so no type here has an invariant.

/// The largest a, b or c of a plane.
pub const SLOPE_LIMIT: u64 = 6;

/// Where the workshop ends, in all six directions.
pub const REACH: u64 = 16384;

/// The largest d of a plane: each plane that has a place in the workshop is in range.
pub const OFFSET_LIMIT: u64 = 3 * SLOPE_LIMIT * REACH;

/// A plane: a place is below it if a x + b y + c z is less than d w.
#[derive(Clone, Copy, Debug, PartialEq, Eq)]
pub struct Plane {
    pub a: i64,
    pub b: i64,
    pub c: i64,
    pub d: i64,
}

/// A place (x / w, y / w, z / w).
#[derive(Clone, Copy, Debug, PartialEq, Eq)]
pub struct Place {
    pub x: i64,
    pub y: i64,
    pub z: i64,
    pub w: u64,
}

/// Where a place is, seen from a plane.
#[derive(Clone, Copy, Debug, PartialEq, Eq)]
pub enum Side {
    Below,
    On,
    Above,
}

/// How two planes that lie in the same one look: the same way, or against each other.
#[derive(Clone, Copy, Debug, PartialEq, Eq)]
pub enum Facing {
    Alike,
    Opposite,
}

/// A step by which places are moved.
#[derive(Clone, Copy, Debug, PartialEq, Eq)]
pub struct Shift {
    pub x: i64,
    pub y: i64,
    pub z: i64,
}
