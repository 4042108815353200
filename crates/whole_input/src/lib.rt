// Whole inputs, into a lent output: what the replay program prints, and the waiting times that lines ask for.
#![tactic(auto)]

ghost use Rattle.std.specs.Prelude.{◌≡◌, ◌/◌, length, drop, ltb};
ghost use Rattle.machine.specs.Limits.{line_length};
ghost use Rattle.machine.specs.Line.{lines, numbers_of, read_at, written, written_at};
ghost use Rattle.machine.specs.Windows.{waited};
ghost use Rattle.machine.specs.Replay.{line_next, line_answer, refusal_numbers, text_into, replayed_into};
ghost use Rattle.whole_input.specs.WholeInput.{no_room, refusal_printed, Counts, shown_length, shown_into, printed_text, printed};
ghost use Rattle.whole_input.specs.WaitingTimes.{is_question, gets, waiting_numbers, line_waiting, asked};

use executive::Executive;
use machine::{Line, Module, Numbers, Refusal, Row};

mod programs;

pub use programs::{Asking, Printing, Replaying, result, run};

// Why nothing was printed: what the line of a refusal has before its four 0. Any code may be shown, so it is no `Refusal`, which would admit fewer.
#[derive(Clone, Copy)]
pub struct Refused {
    pub code: u8,
    pub value: u32,
}

// 11 with value 0.
pub fn no_room() -> Result<usize, Refused>
    ensures { result ≡ no_room }
{
    Err(Refused {
        code: Refusal::BadLine.code(),
        value: 0,
    })
}

// A bad table prints one line: code, line number, four 0.
fn print_refusal(out: &mut [u8], code: u8, value: u32) -> Result<usize, Refused>
    ensures { (result ≡ refusal_printed (length out.old) code value) × (out.new ≡ written out.old (refusal_numbers code value)) }
{
    match line::write(out, event_lines::refusal(code, value)) {
        Ok(()) => Ok(Module::LINE),
        Err(_) => no_room(),
    }
}

// What a program prints of a result: how many bytes of the output, in which the line of its code stands where it is refused.
pub fn shown(out: &mut [u8], r: Result<usize, Refused>) -> usize
    ensures value { (result ≡ shown_length (length out.old) r) × (out.new ≡ shown_into out.old r) }
    ensures counts { Counts result out.new }
{
    match r {
        Ok(length) => length.min(out.len()),
        Err(x) => print_refusal(out, x.code, x.value).unwrap_or(0),
    }
}

// How many lines an input has from a position on. Lines have any length, so the position goes from one's end to the next one's; a chain over the
// pieces between LFs would be no plainer, since `next_line` says already where a line ends.
fn count_lines(input: &[u8], from: usize) -> usize
    ensures { result ≡ length (lines (drop from input.now)) }
{
    let mut n: usize = 0;
    let mut at = from;
    while at < input.len() {
        at = line::next_line(input, at);
        n += 1;
    }
    n
}

// Whether an output has no room for an answer to each line of an input from a position on.
fn is_short(room: usize, input: &[u8], at: usize) -> bool
    ensures { result ≡ ltb (room / line_length) (length (lines (drop at input.now))) }
{
    room / Module::LINE < count_lines(input, at)
}

// The answer to the line at a position of the input, written at a position of the output; gives the executive after it. The result of
// the line writer is not looked at: where there is room, every answer of a replay can be written.
fn answer_line(e: Executive, input: &[u8], at: usize, out: &mut [u8], to: usize) -> Executive
    ensures { (result.inner ≡ line_next e.inner (read_at input.now at)) × (out.new ≡ written_at to out.old (line_answer e.inner (read_at input.now at))) }
{
    let h = event_lines::step_line(e, line::read_at(input, at));
    let _ = line::write_at(out, to, Numbers::from(h.answer));
    h.executive
}

// Reads a table, then event lines, and prints one answer line for each, 11 too; or the one line of a bad table. Where the output is too
// short for all of it, nothing is written.
pub fn replay(input: &[u8], out: &mut [u8]) -> Result<usize, Refused>
    ensures { (result ≡ printed input.now (length out.old)) × (out.new ≡ replayed_into input.now out.old) }
{
    let o = Executive::open(input);
    if o.code != 0 {
        return print_refusal(out, o.code, o.value);
    }
    let mut at = o.lines as usize * Module::LINE;
    if is_short(out.len(), input, at) {
        return no_room();
    }
    let mut executive = o.executive;
    let mut to: usize = 0;
    // The step is the block of lines that was taken.
    while at < input.len() {
        let r = event_lines::run_lines(executive, input, at, out, to);
        if 0 < r.lines {
            executive = r.executive;
            at += r.lines * Module::LINE;
            to += r.printed;
            continue;
        }
        executive = answer_line(executive, input, at, out, to);
        at = line::next_line(input, at);
        to += Module::LINE;
    }
    Ok(to)
}

// ---------------------------------------------------------------- waiting times
// A question is t, a partition and four 0.
fn is_question(r: Row) -> bool
    ensures { result ≡ is_question r }
{
    fields::is_number(r.f3, 0)
        && (fields::is_number(r.f4, 0)
            && (fields::is_number(r.f5, 0) && fields::is_number(r.f6, 0)))
}

// What a line gets: 11 where it is no six numbers, 13 where an unused number is not 0, else the waiting time.
fn waiting_of(e: Executive, l: Line) -> Result<u32, Refusal>
    ensures { waited result ≡ gets e.inner.table l }
{
    let Line::Six(n) = l else {
        return Err(Refusal::BadLine);
    };
    if !is_question(Row::from(n)) {
        return Err(Refusal::Malformed);
    }
    e.waiting_time(n.n1, n.n2)
}

// Code, n, four 0: the waiting time, or the number of why there is none.
fn waiting_numbers(w: Result<u32, Refusal>) -> Numbers
    ensures { result ≡ numbers_of (waiting_numbers (waited w)) }
{
    match w {
        Ok(n) => event_lines::refusal(0, n),
        Err(e) => event_lines::refusal(e.code(), 0),
    }
}

// The answer to the line at a position of the input, written at a position of the output: code, n, four 0.
fn ask_line(e: Executive, input: &[u8], at: usize, out: &mut [u8], to: usize)
    ensures { out.new ≡ written_at to out.old (line_waiting e.inner.table (read_at input.now at)) }
{
    let w = waiting_of(e, line::read_at(input, at));
    let _ = line::write_at(out, to, waiting_numbers(w));
}

// Reads a table, then a question a line, and prints one answer line for each; or the one line of a bad table. Where the output is too
// short for all of it, nothing is written.
pub fn waiting_times(input: &[u8], out: &mut [u8]) -> Result<usize, Refused>
    ensures { (result ≡ printed_text (asked input.now) (length out.old)) × (out.new ≡ text_into (asked input.now) out.old) }
{
    let o = Executive::open(input);
    if o.code != 0 {
        return print_refusal(out, o.code, o.value);
    }
    let mut at = o.lines as usize * Module::LINE;
    if is_short(out.len(), input, at) {
        return no_room();
    }
    let executive = o.executive;
    let mut to: usize = 0;
    // The step is the length of a line, as in `count_lines`.
    while at < input.len() {
        ask_line(executive, input, at, out, to);
        at = line::next_line(input, at);
        to += Module::LINE;
    }
    Ok(to)
}
