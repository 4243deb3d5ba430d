//! Models as bytes, low byte first: written, read, and measured.

#![tactic(auto)]

pub mod fixed;
pub mod laws;
pub mod measure;
pub mod numbers;
pub mod parts;
pub mod places;
pub mod types;
pub mod write;
