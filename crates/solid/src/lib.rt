//! Shapes and models: what they are, when a model is right, and a shape's value at a place.

#![tactic(auto)]

pub mod laws;
pub mod steps;
pub mod types;
pub mod value;
