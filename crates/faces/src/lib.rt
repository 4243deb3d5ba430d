//! The model of a part that is one box: its piece and its faces.

#![tactic(auto)]

pub mod blocks;
pub mod rectangles;
pub mod types;
