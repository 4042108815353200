// Standard input and standard output: a replay in constant memory, and an input that is held whole; each from any reader and to any writer too.
// Where the bytes of these are known, contracts say which are read and written. No contract can say which bytes standard input gives, or whether
// the system fails; what is done with what a read gives is settled. A failed read or write of these two is told on standard error.
#![tactic(auto)]

ghost use Rattle.std.specs.Prelude.{◌≡◌, ◌-◌, ◌<◌, ◌≤◌, true, length, take, drop, replicate, IfSome, IsOk, Some};
ghost use Rattle.std.specs.Result.{is_ok};
ghost use Rattle.std.specs.Io.KnownBytes.{Appends, Consumes, IsAtEnd};
ghost use Rattle.machine.specs.Limits.{line_length};
ghost use Rattle.stream.specs.Stream.{begun, fed_all, closed};
ghost use Rattle.standard_io.specs.declared.End.TheVariants.{Input, Unwritten};
ghost use Rattle.standard_io.specs.StandardIo.{got_of, Quiet, end_after, after_shown, bytes_of, shown_of, ReadOnce, Carried, is_going, is_failure, ReadToEnd, input_end, after_last, LastTurn, last_text, AfterInput, ReplayedOver, ReplayedWhole, GotFrom, whole_length, ReadWhole, IsPrefixLen, Wrote};

use executive::Executive;
use machine::Module;
use std::io;
use std::io::{Read, Write};
use stream::Stream;

// Why reading ended: it goes on; at the input's end; after a refused table; since a read failed; since a write failed.
#[derive(Clone, Copy)]
pub enum End {
    Going,
    Input,
    Table,
    Unread,
    Unwritten,
}

// A stream after a chunk, and whether what was to be printed was written. It is no result: the stream goes on where a write failed too.
#[derive(Clone, Copy)]
struct Shown {
    stream: Stream,
    written: bool,
}

// A stream after some input, and why reading ended, if it did.
#[derive(Clone, Copy)]
struct Turn {
    stream: Stream,
    end: End,
}

// The executive after a replay, and why the replay ended.
#[derive(Clone, Copy)]
pub struct Replayed {
    pub executive: Executive,
    pub end: End,
}

// A read failed, after so many bytes of an input, which lie at the front of a buffer.
#[derive(Clone, Copy)]
pub struct Cut {
    pub length: usize,
    pub error: io::Error,
}

// ---------------------------------------------------------------- output
// Writes the front of an output, where it is to be printed.
fn print<W: Write>(to: &mut W, prints: bool, out: &[u8], n: usize) -> io::Result<()>
    requires { n ≤ length out.now }
    ensures quiet { Quiet prints (is_ok result) }
    ensures wrote { IsOk result → Appends (W.contents to.old) (W.contents to.new) (shown_of prints (take n out.now)) }
{
    if !prints {
        return Ok(());
    }
    to.write_all(&out[..n])
}

// The stream after a chunk, printed piece by piece through an output.
fn print_chunk<W: Write>(to: &mut W, s: Stream, chunk: &[u8], out: &mut [u8], prints: bool) -> Shown
    requires { line_length ≤ length out.old }
    ensures shown { (result.stream ≡ (fed_all s chunk.now).stream) × Quiet prints result.written }
    ensures wrote { result.written ≡ true → Appends (W.contents to.old) (W.contents to.new) (shown_of prints (fed_all s chunk.now).text) }
{
    let mut stream = s;
    let mut written = true;
    let mut at: usize = 0;
    // The step is what the stream took, which only it knows.
    while at < chunk.len() {
        let a = stream.advance(&chunk[at..], out);
        if print(to, prints, out, a.printed).is_err() {
            written = false;
        }
        stream = a.stream;
        at += a.taken;
    }
    Shown { stream, written }
}

// ---------------------------------------------------------------- input
// Why reading ended after a chunk: not where it was written and the table, if it was read, is accepted.
fn end_after(written: bool, refused: bool) -> End
    ensures { result ≡ end_after written refused }
{
    if !written {
        return End::Unwritten;
    }
    if refused { End::Table } else { End::Going }
}

fn after_shown(p: Shown) -> Turn
    ensures { result ≡ after_shown p }
{
    Turn {
        stream: p.stream,
        end: end_after(p.written, p.stream.is_ended()),
    }
}

// Reads once, into a buffer that is lent, as the one printed into is: a buffer made here would be cleared each time.
fn read_once<R: Read, W: Write>(
    from: &mut R,
    to: &mut W,
    s: Stream,
    prints: bool,
    input: &mut [u8],
    out: &mut [u8],
) -> Turn
    requires { line_length ≤ length out.old }
    ensures once { ReadOnce prints s result }
    ensures carried { 0 < length input.old → Carried prints (R.remaining from.old) (R.remaining from.new) (W.contents to.old) (W.contents to.new) s result }
{
    match from.read(input) {
        Ok(0) => Turn {
            stream: s,
            end: End::Input,
        },
        Ok(n) => after_shown(print_chunk(to, s, &input[..n], out, prints)),
        Err(_) => Turn {
            stream: s,
            end: End::Unread,
        },
    }
}

fn is_going(end: End) -> bool
    ensures { result ≡ is_going end }
{
    matches!(end, End::Going)
}

// The bytes of a block of lines: a read that gives as many cuts no line, and what it gives is run as one block.
const CHUNK: usize = event_lines::BLOCK * Module::LINE;

// The bytes that are printed at once: the answers of a chunk, as a rule.
const OUTPUT: usize = 65536;

// A buffer of zeros.
pub fn buffer<const N: usize>() -> [u8; N]
    ensures long { length result ≡ N }
    ensures zeros { result ≡ replicate N 0 }
{
    [0; N]
}

// Reads to the end. A proved loop has to end, and nothing says that the input does: it has more turns than any run uses up.
fn read_all<R: Read, W: Write>(from: &mut R, to: &mut W, prints: bool) -> Turn
    ensures ended { ReadToEnd prints result }
    ensures carried { Carried prints (R.remaining from.old) (R.remaining from.new) (W.contents to.old) (W.contents to.new) begun result }
{
    let mut input = buffer::<CHUNK>();
    let mut out = buffer::<OUTPUT>();
    let mut t = Turn {
        stream: Stream::begin(),
        end: End::Going,
    };
    for turn in 0..u64::MAX {
        t = read_once(from, to, t.stream, prints, &mut input, &mut out);
        if !is_going(t.end) {
            break;
        }
    }
    t
}

// ---------------------------------------------------------------- the end
// The stream after the last line, which is printed.
fn print_last<W: Write>(to: &mut W, s: Stream, prints: bool) -> Shown
    ensures shown { (result.stream ≡ (closed s).stream) × Quiet prints result.written }
    ensures wrote { result.written ≡ true → Appends (W.contents to.old) (W.contents to.new) (shown_of prints (closed s).text) }
{
    let mut out = buffer::<OUTPUT>();
    let a = s.finish(&mut out);
    Shown {
        stream: a.stream,
        written: print(to, prints, &out, a.printed).is_ok(),
    }
}

// Why the replay ended where the last line was printed.
fn input_end(written: bool) -> End
    ensures { result ≡ input_end written }
{
    if written { End::Input } else { End::Unwritten }
}

fn after_last(p: Shown) -> Turn
    ensures { result ≡ after_last p }
{
    Turn {
        stream: p.stream,
        end: input_end(p.written),
    }
}

// At the input's end the bytes after the last LF are a line; a line that a failure cut is none.
fn last_turn<W: Write>(to: &mut W, t: Turn, prints: bool) -> Turn
    ensures last { LastTurn prints t result }
    ensures wrote { (result.end ≡ Unwritten → ⊥) → Appends (W.contents to.old) (W.contents to.new) (shown_of prints (last_text t.end t.stream)) }
{
    match t.end {
        End::Input => after_last(print_last(to, t.stream, prints)),
        End::Going => t,
        End::Table => t,
        End::Unread => t,
        End::Unwritten => t,
    }
}

// Says on standard error that a read or a write failed, and gives whether one did.
pub fn report(rt: HostRuntime, end: End) -> bool
    ensures { result ≡ is_failure end }
{
    match end {
        End::Unread => {
            let _ = eprintln!(rt; "the input cannot be read");
            true
        }
        End::Unwritten => {
            let _ = eprintln!(rt; "the output cannot be written");
            true
        }
        End::Going => false,
        End::Input => false,
        End::Table => false,
    }
}

// A replay of what a reader gives, printed to a writer or not.
pub fn replay_over<R: Read, W: Write>(from: &mut R, to: &mut W, prints: bool) -> Replayed
    ensures after { AfterInput prints result }
    ensures over { ReplayedOver prints (R.remaining from.old) (R.remaining from.new) (W.contents to.old) (W.contents to.new) result }
    ensures whole { result.end ≡ Input → IfSome (R.remaining from.old) (ReplayedWhole prints (W.contents to.old) (W.contents to.new) result) }
{
    let read = read_all(from, to, prints);
    let t = last_turn(to, read, prints);
    Replayed {
        executive: t.stream.executive(),
        end: t.end,
    }
}

// A replay of standard input, printed to standard output or not; a failed read or write is told on standard error.
pub fn replay(rt: HostRuntime, prints: bool) -> Replayed
    ensures { AfterInput prints result }
{
    let r = replay_over(&mut rt.stdin(), &mut rt.stdout(), prints);
    report(rt, r.end);
    r
}

// ---------------------------------------------------------------- whole inputs
// One read into a buffer from a position on.
fn read_from<R: Read>(from: &mut R, input: &mut [u8], at: usize) -> io::Result<usize>
    requires { at ≤ length input.old }
    ensures got { GotFrom (length input.old - at) (got_of result) }
    ensures consumed { Consumes (R.remaining from.old) (R.remaining from.new) (bytes_of (got_of result) (drop at input.new)) }
    ensures end { at < length input.old → got_of result ≡ Some 0 → IsAtEnd (R.remaining from.new) }
    ensures kept { take at input.new ≡ take at input.old }
{
    from.read(&mut input[at..])
}

// Reads a whole input into a buffer: until it is full, the input ends, or a read fails.
pub fn read_whole_from<R: Read>(from: &mut R, input: &mut [u8]) -> Result<usize, Cut>
    ensures read_whole { ReadWhole (length input.old) result }
    ensures prefix_len { IsPrefixLen (whole_length result) input.new }
    ensures consumed { Consumes (R.remaining from.old) (R.remaining from.new) (take (whole_length result) input.new) }
    ensures end { IsOk result → whole_length result < length input.new → IsAtEnd (R.remaining from.new) }
{
    let mut at: usize = 0;
    // The step is what a read gave.
    while at < input.len() {
        match read_from(from, input, at) {
            Ok(0) => return Ok(at),
            Ok(n) => {
                at += n;
            }
            Err(error) => return Err(Cut { length: at, error }),
        }
    }
    Ok(at)
}

// The same from standard input; standard error is told where a read fails.
pub fn read_whole(rt: HostRuntime, input: &mut [u8]) -> Result<usize, Cut>
    ensures read_whole { ReadWhole (length input.old) result }
    ensures prefix_len { IsPrefixLen (whole_length result) input.new }
{
    let whole = read_whole_from(&mut rt.stdin(), input);
    if whole.is_err() {
        report(rt, End::Unread);
    }
    whole
}

// Writes a whole output.
pub fn write_whole_to<W: Write>(to: &mut W, text: &[u8]) -> io::Result<()>
    ensures wrote { Wrote (length text.now) (is_ok result) }
    ensures appended { IsOk result → Appends (W.contents to.old) (W.contents to.new) text.now }
{
    if text.is_empty() {
        return Ok(());
    }
    to.write_all(text)
}

// The same to standard output; standard error is told where the output was not written.
pub fn write_whole(rt: HostRuntime, text: &[u8]) -> io::Result<()>
    ensures { Wrote (length text.now) (is_ok result) }
{
    let written = write_whole_to(&mut rt.stdout(), text);
    if written.is_err() {
        report(rt, End::Unwritten);
    }
    written
}
