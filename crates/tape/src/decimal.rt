// Decimal numbers in a buffer of the caller's.
ghost use Rattle.std.specs.Prelude.{◌≡◌, length, decimal, MatchOption};
ghost use Rattle.tape.specs.Text.{ended, written, Spelled};

// How many digits `n` has.
fn digit_count(n: u64) -> usize
    ensures { result ≡ length (decimal n) }
{
    n.checked_ilog10().unwrap_or(0) as usize + 1
}

// Writes the digits of `n` into places that are as many.
fn write_digits(places: &mut [u8], n: u64)
    requires { length places.old ≡ length (decimal n) }
    ensures { places.new ≡ decimal n }
{
    let mut rest = n;
    // by index: of what is written through `iter_mut().rev()` the prover knows nothing
    for i in (0..places.len()).rev() {
        places[i] = b'0' + (rest % 10) as u8;
        rest /= 10;
    }
}

// Writes `n` in its shortest digits from the place `at` on and says where they end, or writes nothing where there is no
// room. Into the caller's buffer and not a String, since the listing of a C host has fixed memory.
pub fn write_decimal(out: &mut [u8], at: usize, n: u64) -> Option<usize>
    ensures ends { result ≡ ended out.old at (decimal n) }
    ensures writes { out.new ≡ written out.old at (decimal n) }
    ensures reads_back { MatchOption result (out.new ≡ out.old) (λ end. Spelled n at end out.old out.new) }
{
    let end = at.checked_add(digit_count(n))?;
    if end > out.len() {
        return None;
    }
    write_digits(&mut out[at..end], n);
    Some(end)
}
