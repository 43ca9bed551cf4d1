// The letters of a tape's messages, and the two numbers of its set-up that choose a kind.
ghost use Rattle.std.specs.Prelude.{◌≡◌, [], ◌∷◌, Some};
ghost use Rattle.std.specs.Option.{ok_or};
ghost use Rattle.terms.specs.declared.refusal.Refusal.TheVariants.{OutsideLimits, UnknownLetter};
ghost use Rattle.terms.specs.Values.{letter_byte, letter_of, make_number, make_of, market_number, market_of};

use crate::refusal::Refusal;
use std::convert::TryFrom;
use std::fmt;

#[derive(Clone, Copy, Debug, PartialEq, Eq)]
pub enum Letter {
    Buy = b'B' as isize,
    Sell = b'S' as isize,
    ImmediateBuy = b'I' as isize,
    ImmediateSell = b'J' as isize,
    Change = b'A' as isize,
    Cancel = b'C' as isize,
    Quote = b'Q' as isize,
    Renew = b'R' as isize,
    Halt = b'H' as isize,
    Resume = b'U' as isize,
    End = b'E' as isize,
}

// The byte that stands for the letter on a tape, which reads back as the letter.
impl From<Letter> for u8 {
    ghost from_gives = { λ letter byte. (byte ≡ letter_byte letter) × (letter_of byte ≡ Some letter) };

    fn from(letter: Letter) -> u8 {
        letter as u8
    }
}

// The letter that a byte stands for, or a refusal where it stands for none.
impl TryFrom<u8> for Letter {
    type Error = Refusal;

    ghost try_from_gives = { λ byte r. r ≡ ok_or (letter_of byte) UnknownLetter };

    fn try_from(byte: u8) -> Result<Letter, Refusal> {
        match byte {
            b'B' => Ok(Letter::Buy),
            b'S' => Ok(Letter::Sell),
            b'I' => Ok(Letter::ImmediateBuy),
            b'J' => Ok(Letter::ImmediateSell),
            b'A' => Ok(Letter::Change),
            b'C' => Ok(Letter::Cancel),
            b'Q' => Ok(Letter::Quote),
            b'R' => Ok(Letter::Renew),
            b'H' => Ok(Letter::Halt),
            b'U' => Ok(Letter::Resume),
            b'E' => Ok(Letter::End),
            _ => Err(Refusal::UnknownLetter),
        }
    }
}

// The letter as a character.
impl fmt::Display for Letter {
    ghost output = { λ letter. Some (letter_byte letter ∷ []) };

    fn fmt<W: fmt::Write>(&self, f: &mut fmt::Formatter<W>) -> fmt::Result {
        f.write_char(char::from(u8::from(*self)))
    }
}

// Which kind of queue a tape's book has.
#[derive(Clone, Copy, Debug, PartialEq, Eq)]
pub enum Make {
    Sorted = 0,
    Heaps = 1,
}

// The number that stands for the make in a set-up, which reads back as the make.
impl From<Make> for u32 {
    ghost from_gives = { λ make number. (number ≡ make_number make) × (make_of number ≡ Some make) };

    fn from(make: Make) -> u32 {
        make as u32
    }
}

// The make that a number stands for, or a refusal where it stands for none.
impl TryFrom<u32> for Make {
    type Error = Refusal;

    ghost try_from_gives = { λ number r. r ≡ ok_or (make_of number) OutsideLimits };

    fn try_from(number: u32) -> Result<Make, Refusal> {
        match number {
            0 => Ok(Make::Sorted),
            1 => Ok(Make::Heaps),
            _ => Err(Refusal::OutsideLimits),
        }
    }
}

// Which price range a tape's book has.
#[derive(Clone, Copy, Debug, PartialEq, Eq)]
pub enum Market {
    Warrant = 0,
    Stock = 1,
}

// Not one with the impls of Make: a trait of such types would have these same members in each of its impls.
impl From<Market> for u32 {
    ghost from_gives = { λ market number. (number ≡ market_number market) × (market_of number ≡ Some market) };

    fn from(market: Market) -> u32 {
        market as u32
    }
}

// The market that a number stands for, or a refusal where it stands for none.
impl TryFrom<u32> for Market {
    type Error = Refusal;

    ghost try_from_gives = { λ number r. r ≡ ok_or (market_of number) OutsideLimits };

    fn try_from(number: u32) -> Result<Market, Refusal> {
        match number {
            0 => Ok(Market::Warrant),
            1 => Ok(Market::Stock),
            _ => Err(Refusal::OutsideLimits),
        }
    }
}
