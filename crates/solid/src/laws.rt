//! What holds of shapes and models as such. Nothing here computes: the contracts are the theorems.

ghost use Rattle.std.specs.Prelude.{◌≡◌, true, length};
ghost use Rattle.solid.specs.Laws.{NothingThere, MovesRight, OnePlace, WorkshopEnds};
ghost use Rattle.solid.specs.Examples.{examples, AllTold};

/// That the laws hold.
#[tactic(auto, using(crate::proofs::Counts::nothing_there, crate::proofs::Carried::moves_right, crate::proofs::Carried::one_place, crate::proofs::Walls::workshop_ends))]
pub fn laws_hold() -> bool
    ensures told { result ≡ true }
    ensures nothing_there { NothingThere }
    ensures moves_right { MovesRight }
    ensures one_place { OnePlace }
    ensures workshop_ends { WorkshopEnds }
{
    true
}

/// How many examples there are; each is told as it says.
#[tactic(auto, using(crate::proofs::Tables::all_told))]
pub fn examples_hold() -> usize
    ensures count { result ≡ length examples }
    ensures told { AllTold examples }
{
    5
}
