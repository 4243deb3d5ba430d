//! What a text is made of, as the reader meets it.

ghost use Rattle.std.specs.Prelude.{◌≡◌, ok_or};
ghost use Rattle.grammar.specs.Machine.{byte, sep_of};

/// The byte that ends a number, a name or a shape.
#[derive(Clone, Copy, PartialEq, Eq, Debug)]
pub enum Sep {
    Space,
    Comma,
    Close,
    End,
}

/// A byte that ends no number, name or shape.
#[derive(Clone, Copy, PartialEq, Eq, Debug)]
pub struct NoSep(pub u8);

impl From<Sep> for u8 {
    ghost from_gives = { λ c b. b ≡ byte c };

    fn from(c: Sep) -> u8 {
        match c {
            Sep::Space => b' ',
            Sep::Comma => b',',
            Sep::Close => b')',
            Sep::End => b'\n',
        }
    }
}

impl TryFrom<u8> for Sep {
    type Error = NoSep;

    ghost try_from_gives = { λ b r. r ≡ ok_or (sep_of b) (record { 0 = b }) };

    fn try_from(b: u8) -> Result<Self, NoSep> {
        match b {
            b' ' => Ok(Sep::Space),
            b',' => Ok(Sep::Comma),
            b')' => Ok(Sep::Close),
            b'\n' => Ok(Sep::End),
            _ => Err(NoSep(b)),
        }
    }
}

/// What a word is, where a shape is expected.
#[derive(Clone, Copy, PartialEq, Eq, Debug)]
pub enum Kind {
    HalfWord,
    BoxWord,
    TwoWord,
    MoveWord,
    OneWord,
    NameWord,
    NoWord,
}
