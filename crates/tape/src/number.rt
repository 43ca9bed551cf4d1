// A tape's numbers: seven bits a byte, lowest first, the top bit set on all but the last byte.
ghost use Rattle.std.specs.Prelude.{◌≡◌, ℕ, ◌+◌, ◌^◌, ◌<◌, List, ◌++◌, length, IfOk, Ok};
ghost use Rattle.std.specs.List.{flat_map};
ghost use Rattle.tape.specs.Numbers.{Encodable, seen, read_groups, read_number, read_numbers, encoded};

use terms::refusal::Refusal;

// A last group of seven bits, or one that is followed by others, of which `more` may come.
fn read_groups(bytes: &[u8], more: u32) -> Result<(u32, &[u8]), Refusal>
    requires { more < 4 }
    ensures reads { seen result ≡ read_groups more bytes.now }
    ensures bound { IfOk result (λ p. p.0 < 128 ^ (more + 1)) }
{
    match bytes {
        [] => Err(Refusal::EndsEarly),
        [byte, rest @ ..] => {
            if *byte < 128 {
                return Ok((*byte as u32, rest));
            }
            if more == 0 {
                return Err(Refusal::BadNumber);
            }
            let (high, rest) = read_groups(rest, more - 1)?;
            if high == 0 {
                return Err(Refusal::BadNumber);
            }
            Ok(((*byte as u32 - 128) + 128 * high, rest))
        }
    }
}

// A number, and the bytes behind it.
pub fn read_number(bytes: &[u8]) -> Result<(u32, &[u8]), Refusal>
    ensures reads { seen result ≡ read_number bytes.now }
    ensures gives_back { (n : ℕ) (rest : List ℕ) → n < 2 ^ 28 → bytes.now ≡ encoded n ++ rest → seen result ≡ Ok (n, rest) }
    ensures only { (n : ℕ) (rest : List ℕ) → seen result ≡ Ok (n, rest) → (n < 2 ^ 28) × (bytes.now ≡ encoded n ++ rest) }
{
    read_groups(bytes, 3)
}

// As many numbers as the array has places, and the bytes behind them.
pub fn read_numbers<const N: usize>(bytes: &[u8]) -> Result<([u32; N], &[u8]), Refusal>
    ensures reads { seen result ≡ read_numbers N bytes.now }
    ensures gives_back { (ns rest : List ℕ) → length ns ≡ N → Encodable ns → bytes.now ≡ flat_map encoded ns ++ rest → seen result ≡ Ok (ns, rest) }
    ensures only { (ns rest : List ℕ) → seen result ≡ Ok (ns, rest) → (length ns ≡ N) × Encodable ns × (bytes.now ≡ flat_map encoded ns ++ rest) }
{
    let mut numbers = [0; N];
    let mut rest = bytes;
    for place in &mut numbers {
        let (number, tail) = read_number(rest)?;
        *place = number;
        rest = tail;
    }
    Ok((numbers, rest))
}
