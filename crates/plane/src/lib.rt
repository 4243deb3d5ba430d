//! Planes and places: sides, meets of three planes, moves, all exact in signed 64 bits.

#![tactic(auto)]

pub mod meets;
pub mod moves;
pub mod planes;
pub mod sides;
pub mod types;
