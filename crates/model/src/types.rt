//! What is read from the bytes of a model.

ghost use Rattle.std.specs.Prelude.{Some};
ghost use Rattle.model.specs.Misfits.{misfit_text};

use std::error::Error;
use std::fmt;

/// A place as it stands in the bytes: any four numbers.
#[derive(Clone, Copy, Debug, PartialEq, Eq)]
pub struct RawPlace {
    pub x: i64,
    pub y: i64,
    pub z: i64,
    pub w: i64,
}

/// Where the parts of a model stand: how many pieces there are, from byte 4 on; where they end and the number
/// of faces stands; how many faces there are, from four bytes behind it on.
#[derive(Clone, Copy, Debug, PartialEq, Eq)]
pub struct Layout {
    pub pieces: usize,
    pub middle: usize,
    pub faces: usize,
}

/// Why bytes are no model: they end too early, or a model ends there and they go on.
#[derive(Clone, Copy, Debug, PartialEq, Eq)]
pub enum Misfit {
    Short,
    Long(usize),
}

impl fmt::Display for Misfit {
    ghost output = { λ why. Some (misfit_text why) };

    fn fmt<W: fmt::Write>(&self, f: &mut fmt::Formatter<W>) -> fmt::Result {
        match self {
            Misfit::Short => f.write_str("the bytes end within the model"),
            Misfit::Long(end) => write!(f, "the model ends at byte {end}, and the bytes go on"),
        }
    }
}

impl Error for Misfit {}
