// The replay of a standard input that is held whole. An input that is too long for it, or whose answers are, prints one line: 11 and five 0.
#![tactic(auto)]

ghost use Rattle.std.specs.Prelude.{◌≡◌, [], IfSome};
ghost use Rattle.std.specs.Io.KnownBytes.{Appends};
ghost use Rattle.machine.specs.Replay.{replayed};
ghost use Rattle.whole_input.specs.HeldText.{held_text};
ghost use Rattle.standard_io.specs.declared.End.TheVariants.{Input, Unread};

use standard_io::End;
use std::io::{Read, Write};
use whole_input::Replaying;

// The answers of a replay, over any reader and writer; and why that ended.
fn run<R: Read, W: Write>(from: &mut R, to: &mut W) -> End
    ensures printed { result ≡ Input → IfSome (R.remaining from.old) (λ xs. Appends (W.contents to.old) (W.contents to.new) (held_text xs (replayed xs))) }
    ensures unread { result ≡ Unread → Appends (W.contents to.old) (W.contents to.new) [] }
{
    whole_input::run::<Replaying, R, W>(from, to)
}

fn main(rt: HostRuntime) {
    let end = run(&mut rt.stdin(), &mut rt.stdout());
    standard_io::report(rt, end);
}
