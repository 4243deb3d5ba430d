//! What holds of the format as such. Nothing here computes: the contracts are the theorems.

ghost use Rattle.std.specs.Prelude.{◌≡◌, true};
ghost use Rattle.model.specs.Laws.{BegunOnce, MeantOnce, SolidOnce, Writable};

/// That the laws hold.
pub fn laws_hold() -> bool
    ensures told { result ≡ true }
    ensures begun_once { BegunOnce }
    ensures meant_once { MeantOnce }
    ensures solid_once { SolidOnce }
    ensures writable { Writable }
{
    true
}
