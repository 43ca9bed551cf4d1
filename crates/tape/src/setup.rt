// The set-up that a tape begins with.
ghost use Rattle.std.specs.Prelude.{◌≡◌, ℕ, List, ◌++◌, Ok};
ghost use Rattle.terms.specs.Setups.{Allowed, setup_numbers};
ghost use Rattle.terms.specs.declared.setup.Setup.{Setup as AnySetup};
ghost use Rattle.tape.specs.Numbers.{Encodable, seen};
ghost use Rattle.tape.specs.Setups.{read_setup, encoded_setup};

use crate::number::read_numbers;
use std::convert::TryFrom;
use terms::refusal::Refusal;
use terms::setup::Setup;

// The nine numbers of a set-up, all read before one is tested, and the bytes behind them.
pub fn read_setup(bytes: &[u8]) -> Result<(Setup, &[u8]), Refusal>
    ensures reads { seen result ≡ read_setup bytes.now }
    ensures gives_back { (s : AnySetup) (rest : List ℕ) → Allowed s → bytes.now ≡ encoded_setup s ++ rest → seen result ≡ Ok (s, rest) }
    ensures only { (s : AnySetup) (rest : List ℕ) → seen result ≡ Ok (s, rest) → Encodable (setup_numbers s) × (bytes.now ≡ encoded_setup s ++ rest) }
    ensures followed { (s : AnySetup) (rest more : List ℕ) → seen result ≡ Ok (s, rest) → read_setup (bytes.now ++ more) ≡ Ok (s, rest ++ more) }
{
    let (numbers, rest) = read_numbers::<9>(bytes)?;
    let setup = Setup::try_from(numbers)?;
    Ok((setup, rest))
}
