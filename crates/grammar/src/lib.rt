//! The language: lines and shapes, their one text as bytes, and which bytes begin a text.

#![tactic(auto)]

ghost use Rattle.std.specs.Prelude.{◌≡◌, true};
ghost use Rattle.grammar.specs.Laws.{OneList, OnePlace, NotBoth, FineFaultless, OneFault};

pub mod types;

/// What holds of the texts: each is one list of lines at most; other bytes are refused at one place; lines that
/// are fine have no fault, and of faults one is told.
pub fn texts_stand() -> bool
    ensures told { result ≡ true }
    ensures list { OneList }
    ensures place { OnePlace }
    ensures apart { NotBoth }
    ensures faultless { FineFaultless }
    ensures fault { OneFault }
{
    true
}
