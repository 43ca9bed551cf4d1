// A message: a letter, and the numbers of its body.
ghost use Rattle.std.specs.Prelude.{◌≡◌, ℕ, ◌*◌, ◌^◌, ◌<◌, List, ◌++◌, Ok};
ghost use Rattle.terms.specs.Messages.{numbers_for};
ghost use Rattle.terms.specs.declared.message.Message.{Message as AnyMessage};
ghost use Rattle.tape.specs.Numbers.{Encodable, seen, read_numbers};
ghost use Rattle.tape.specs.Messages.{MadeOf, read_body, read_message, encoded_message};

use crate::number::read_numbers;
use std::convert::TryFrom;
use terms::letter::Letter;
use terms::message::Message;
use terms::refusal::Refusal;

// The message that `kind` makes of the body whose `N` numbers stand first, and the bytes behind it.
fn read_as<const N: usize, T: From<[u32; N]>, F: FnOnce(T) -> Message>(
    bytes: &[u8],
    kind: F,
) -> Result<(Message, &[u8]), Refusal>
    requires callable { F.IsAlwaysCallable kind }
    requires fits_memory { N * 4 < 2 ^ 63 }
    ensures { MadeOf T.from_gives (F.post kind) (read_numbers N bytes.now) (seen result) }
{
    // no `?`: at a pair of `N` numbers and a reference the borrow checker does not cover one yet
    match read_numbers::<N>(bytes) {
        Ok(read) => {
            let (numbers, rest) = read;
            Ok((kind(T::from(numbers)), rest))
        }
        Err(refusal) => Err(refusal),
    }
}

// The message with this letter, whose body stands first.
#[tactic(auto, unfolding(crate::specs::Numbers::read_numbers))]
fn read_body(letter: Letter, bytes: &[u8]) -> Result<(Message, &[u8]), Refusal>
    ensures { seen result ≡ read_body letter bytes.now }
{
    match letter {
        Letter::Buy => read_as(bytes, Message::Buy),
        Letter::Sell => read_as(bytes, Message::Sell),
        Letter::ImmediateBuy => read_as(bytes, Message::ImmediateBuy),
        Letter::ImmediateSell => read_as(bytes, Message::ImmediateSell),
        Letter::Change => read_as(bytes, Message::Change),
        Letter::Cancel => read_as(bytes, Message::Cancel),
        Letter::Quote => read_as(bytes, Message::Quote),
        Letter::Renew => Ok((Message::Renew, bytes)),
        Letter::Halt => Ok((Message::Halt, bytes)),
        Letter::Resume => Ok((Message::Resume, bytes)),
        Letter::End => Ok((Message::End, bytes)),
    }
}

// The message that stands first, read whole, and the bytes behind it.
pub fn read_message(bytes: &[u8]) -> Result<(Message, &[u8]), Refusal>
    ensures reads { seen result ≡ read_message bytes.now }
    ensures gives_back { (m : AnyMessage) (rest : List ℕ) → Encodable (numbers_for m) → bytes.now ≡ encoded_message m ++ rest → seen result ≡ Ok (m, rest) }
    ensures only { (m : AnyMessage) (rest : List ℕ) → seen result ≡ Ok (m, rest) → Encodable (numbers_for m) × (bytes.now ≡ encoded_message m ++ rest) }
    ensures followed { (m : AnyMessage) (rest more : List ℕ) → seen result ≡ Ok (m, rest) → read_message (bytes.now ++ more) ≡ Ok (m, rest ++ more) }
{
    match bytes {
        [] => Err(Refusal::EndsEarly),
        [byte, rest @ ..] => read_body(Letter::try_from(*byte)?, rest),
    }
}
