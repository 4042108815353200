// Waiting times from standard input: a table, then a line of t, partition and four 0 for each question; one line of code, n and four 0 for
// each to standard output. An input that is too long prints one line: 11 and five 0.
#![tactic(auto)]

ghost use Rattle.std.specs.Prelude.{◌≡◌, [], IfSome};
ghost use Rattle.std.specs.Io.KnownBytes.{Appends};
ghost use Rattle.whole_input.specs.WaitingTimes.{asked};
ghost use Rattle.whole_input.specs.HeldText.{held_text};
ghost use Rattle.standard_io.specs.declared.End.TheVariants.{Input, Unread};

use standard_io::End;
use std::io::{Read, Write};
use whole_input::Asking;

// The waiting times that lines ask for, over any reader and writer; and why that ended.
fn run<R: Read, W: Write>(from: &mut R, to: &mut W) -> End
    ensures printed { result ≡ Input → IfSome (R.remaining from.old) (λ xs. Appends (W.contents to.old) (W.contents to.new) (held_text xs (asked xs))) }
    ensures unread { result ≡ Unread → Appends (W.contents to.old) (W.contents to.new) [] }
{
    whole_input::run::<Asking, R, W>(from, to)
}

fn main(rt: HostRuntime) {
    let end = run(&mut rt.stdin(), &mut rt.stdout());
    standard_io::report(rt, end);
}
