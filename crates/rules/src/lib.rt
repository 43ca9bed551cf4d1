// The rules of a book as definitions, the ledger of a day, and the proofs of its laws.
#![tactic(auto)]

ghost use Rattle.std.specs.Prelude.{◌≡◌};
ghost use Rattle.rules.specs.Cases.{WorkedCases};

// How many worked cases the rules settle as they should.
pub fn worked_cases() -> u32
    ensures settled { WorkedCases }
    ensures count { result ≡ 9 }
{
    9
}
