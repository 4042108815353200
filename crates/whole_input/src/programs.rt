// A program that holds its input whole: it reads the input, and writes what is printed for it. An input that is too long, or whose answers are, prints
// one line: 11 and five 0.
ghost use Rattle.std.specs.Prelude.{◌≡◌, ℕ, List, [], length, IfSome};
ghost use Rattle.std.specs.Io.KnownBytes.{Appends};
ghost use Rattle.machine.specs.Replay.{replayed, text_into};
ghost use Rattle.standard_io.specs.declared.End.TheVariants.{Input, Unread};
ghost use Rattle.whole_input.specs.WholeInput.{printed_text, held_printed, held_into};
ghost use Rattle.whole_input.specs.WaitingTimes.{asked};
ghost use Rattle.whole_input.specs.HeldText.{held_text};

use crate::Refused;
use standard_io::End;
use std::io::{Read, Write};

// The bytes that a program holds of its input; one that fills them is too long.
const INPUT: usize = 131072;

// The bytes that it prints at most.
const OUTPUT: usize = 131072;

// What is printed for a whole input.
pub trait Printing {
    ghost text: { List ℕ → List ℕ };

    fn print(input: &[u8], out: &mut [u8]) -> Result<usize, Refused>
        ensures { (result ≡ printed_text (text input.now) (length out.old)) × (out.new ≡ text_into (text input.now) out.old) };
}

// The answers of a replay.
pub struct Replaying;

impl Printing for Replaying {
    ghost text = { replayed };

    fn print(input: &[u8], out: &mut [u8]) -> Result<usize, Refused> {
        crate::replay(input, out)
    }
}

// The waiting times that lines ask for.
pub struct Asking;

impl Printing for Asking {
    ghost text = { asked };

    fn print(input: &[u8], out: &mut [u8]) -> Result<usize, Refused> {
        crate::waiting_times(input, out)
    }
}

// What is printed for an input that was read; one that fills what the program holds is too long.
pub fn result<P: Printing>(input: &[u8], out: &mut [u8]) -> Result<usize, Refused>
    ensures { (result ≡ held_printed (length input.now) (printed_text (P.text input.now) (length out.old))) × (out.new ≡ held_into (length input.now) (text_into (P.text input.now) out.old) out.old) }
{
    if input.len() < INPUT {
        return P::print(input, out);
    }
    crate::no_room()
}

// Reads an input whole, and writes what is printed for it; and why that ended. Where the input cannot be read nothing is written: what was
// read of it is no whole input.
pub fn run<P: Printing, R: Read, W: Write>(from: &mut R, to: &mut W) -> End
    ensures printed { result ≡ Input → IfSome (R.remaining from.old) (λ xs. Appends (W.contents to.old) (W.contents to.new) (held_text xs (P.text xs))) }
    ensures unread { result ≡ Unread → Appends (W.contents to.old) (W.contents to.new) [] }
{
    let mut input = standard_io::buffer::<INPUT>();
    let mut out = standard_io::buffer::<OUTPUT>();
    let Ok(n) = standard_io::read_whole_from(from, &mut input) else {
        return End::Unread;
    };
    let r = result::<P>(&input[..n], &mut out);
    let k = crate::shown(&mut out, r);
    match standard_io::write_whole_to(to, &out[..k]) {
        Ok(()) => End::Input,
        Err(_) => End::Unwritten,
    }
}
