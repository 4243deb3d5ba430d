//! Is there a place off some planes for which a question holds? For now the planes are level: x, y or z at a
//! number.

#![tactic(auto)]

mod levels;
pub mod places;
