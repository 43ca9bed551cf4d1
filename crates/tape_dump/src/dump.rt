// What stands on a tape, as text.
ghost use Rattle.std.specs.Prelude.{◌≡◌, ℕ, ◌-◌, ◌≤◌, List, ◌++◌, map, length, take, drop, string_bytes, IfOk, Some, Ok, OnOk};
ghost use Rattle.std.specs.List.{flat_map};
ghost use Rattle.terms.specs.declared.setup.Setup.{Setup as AnySetup};
ghost use Rattle.tape.specs.Lines.{line, lines_of};
ghost use Rattle.tape.specs.Numbers.{seen};
ghost use Rattle.tape.specs.Readings.{read_all, Covers};
ghost use Rattle.tape.specs.Setups.{encoded_setup};
ghost use Rattle.tape_dump.specs.Dumps.{reading_lines, setup_of, reading_of, dumped, entry_of};

use crate::text::{push_count, push_message, push_setup, push_stop};
use std::alloc::{AllocError, Global};
use tape::message::read_message;
use tape::setup::read_setup;
use terms::limits::TAPE_MAX;
use terms::refusal::Refusal;
use terms::setup::Setup;

// The set-up of a tape that is not too long, and the bytes behind it.
fn read_start(tape: &[u8]) -> Result<(Setup, &[u8]), Refusal>
    ensures { seen result ≡ setup_of tape.now }
{
    if tape.len() > TAPE_MAX {
        return Err(Refusal::TapeTooLong);
    }
    read_setup(tape)
}

// The lines for the messages of `bytes`, which are the last of the `tape_len` bytes of a tape.
fn push_messages(text: &mut String, tape_len: usize, bytes: &[u8]) -> Result<(), AllocError>
    requires { length bytes.now ≤ tape_len }
    ensures { OnOk result (string_bytes text.new ≡ string_bytes text.old ++ flat_map line (reading_lines (read_all (tape_len - length bytes.now) bytes.now))) }
{
    // not an iterator over the messages: their count and the place where reading stops are printed after them
    let mut rest = bytes;
    let mut messages = 0;
    while !rest.is_empty() {
        let place = tape_len - rest.len();
        match read_message(rest) {
            Ok((message, behind)) => {
                push_message(text, place, &message)?;
                rest = behind;
                messages += 1;
            }
            Err(refusal) => {
                push_stop(text, refusal, place)?;
                return push_count(text, messages, place);
            }
        }
    }
    push_count(text, messages, tape_len)
}

// The text for a tape.
pub fn dump_tape(heap: Global, tape: &[u8]) -> Result<String, AllocError>
    ensures prints { IfOk result (λ text. string_bytes text ≡ dumped tape.now) }
    ensures covers { OnOk result ((s : AnySetup) (rest : List ℕ) → setup_of tape.now ≡ Ok (s, rest) → (tape.now ≡ encoded_setup s ++ rest) × Covers (length (encoded_setup s)) rest (reading_of tape.now)) }
    ensures reads_back { IfOk result (λ text. map entry_of (take (length (reading_of tape.now).messages) (drop 1 (lines_of (string_bytes text)))) ≡ map Some (reading_of tape.now).messages) }
{
    let mut text = String::new(heap);
    match read_start(tape) {
        Ok((setup, rest)) => {
            push_setup(&mut text, &setup)?;
            push_messages(&mut text, tape.len(), rest)?;
        }
        Err(refusal) => {
            push_stop(&mut text, refusal, 0)?;
            push_count(&mut text, 0, 0)?;
        }
    }
    Ok(text)
}
