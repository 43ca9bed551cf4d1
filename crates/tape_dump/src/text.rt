// The lines that are printed for a tape.
ghost use Rattle.std.specs.Prelude.{◌≡◌, ◌++◌, Some, decimal, string_bytes, OnOk};
ghost use Rattle.tape.specs.Lines.{line, spaced};
ghost use Rattle.terms.specs.Messages.{numbers_for};
ghost use Rattle.tape_dump.specs.Dumps.{setup_words, message_words, stop_words, count_words};

use std::alloc::AllocError;
use std::fmt;
use tape::decimal::write_decimal;
use terms::message::Message;
use terms::refusal::Refusal;
use terms::setup::Setup;

// The digits of `n`, written into `places` by the writer of a tape's numbers.
fn digits(places: &mut [u8; 20], n: u64) -> &str
    ensures { result.now ≡ decimal n }
{
    let end = write_decimal(places, 0, n).unwrap();
    // proved: digits are ASCII, so these bytes are UTF-8
    unsafe { str::from_utf8_unchecked(&places[..end]) }
}

// A number in decimal.
#[derive(Clone, Copy)]
struct Decimal(u64);

impl fmt::Display for Decimal {
    ghost output = { λ n. Some (decimal n.0) };

    fn fmt<W: fmt::Write>(&self, f: &mut fmt::Formatter<W>) -> fmt::Result {
        f.write_str(digits(&mut [0; 20], self.0))
    }
}

// Numbers, a space before each. By pushes, as the lines of a set-up and of a message: through `writeln!` a line takes
// twice the time.
fn push_numbers(text: &mut String, numbers: &[u32]) -> Result<(), AllocError>
    ensures { OnOk result (string_bytes text.new ≡ string_bytes text.old ++ spaced numbers.now) }
{
    for n in numbers {
        text.push(' ')?;
        text.push_str(digits(&mut [0; 20], u64::from(*n)))?;
    }
    Ok(())
}

// The numbers of a message's body, a space before each.
fn push_body(text: &mut String, message: &Message) -> Result<(), AllocError>
    ensures { OnOk result (string_bytes text.new ≡ string_bytes text.old ++ spaced (numbers_for message.now)) }
{
    match *message {
        Message::Buy(o) | Message::Sell(o) | Message::ImmediateBuy(o) | Message::ImmediateSell(o) =>
            push_numbers(text, &<[u32; 3]>::from(o)),
        Message::Change(c) => push_numbers(text, &<[u32; 4]>::from(c)),
        Message::Cancel(c) => push_numbers(text, &<[u32; 2]>::from(c)),
        Message::Quote(q) => push_numbers(text, &<[u32; 4]>::from(q)),
        Message::Renew | Message::Halt | Message::Resume | Message::End => Ok(()),
    }
}

// The line of the set-up.
pub fn push_setup(text: &mut String, setup: &Setup) -> Result<(), AllocError>
    ensures { OnOk result (string_bytes text.new ≡ string_bytes text.old ++ line (setup_words setup.now)) }
{
    text.push_str("0 set-up")?;
    push_numbers(text, &<[u32; 9]>::from(*setup))?;
    text.push('\n')
}

// The line of a message whose letter stands at `place`.
pub fn push_message(text: &mut String, place: usize, message: &Message) -> Result<(), AllocError>
    ensures { OnOk result (string_bytes text.new ≡ string_bytes text.old ++ line (message_words (record { place = place; message = message.now }))) }
{
    text.push_str(digits(&mut [0; 20], place as u64))?;
    text.push(' ')?;
    text.push(char::from(u8::from(message.letter())))?;
    push_body(text, message)?;
    text.push('\n')
}

// The line of the refusal that ends the reading.
pub fn push_stop(text: &mut String, refusal: Refusal, place: usize) -> Result<(), AllocError>
    ensures { OnOk result (string_bytes text.new ≡ string_bytes text.old ++ line (stop_words refusal place)) }
{
    let place = Decimal(place as u64);
    writeln!(text, "X {} {place}", Decimal(u64::from(u8::from(refusal))))
}

// The last line: how many messages and bytes were read.
pub fn push_count(text: &mut String, messages: usize, bytes: usize) -> Result<(), AllocError>
    ensures { OnOk result (string_bytes text.new ≡ string_bytes text.old ++ line (count_words messages bytes)) }
{
    let (messages, bytes) = (Decimal(messages as u64), Decimal(bytes as u64));
    writeln!(text, "{messages} messages, {bytes} bytes")
}
