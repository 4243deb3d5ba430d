//! Exact integers: the laws of the product and of its order, a prover of polynomial identities, and the
//! sizes of sums of products in 64 bits. The proofs are in proofs/; nothing here runs.

#![tactic(auto)]

ghost use Rattle.std.specs.Prelude.{◌≡◌, true};
ghost use Rattle.arith.specs.Laws.{Laws};

/// That the laws hold.
pub fn laws_hold() -> bool
    ensures told { result ≡ true }
    ensures laws { Laws }
{
    true
}
