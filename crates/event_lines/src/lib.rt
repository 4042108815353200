// Event lines and answer lines: what a line gets, and the numbers of an answer.
#![tactic(auto)]

ghost use Rattle.std.specs.Prelude.{◌≡◌, ◌+◌, ◌-◌, ◌*◌, ◌/◌, ◌≤◌, length, take, drop};
ghost use Rattle.std.proofs.lemmas.List.Edits.{sets};
ghost use Rattle.machine.specs.Limits.{line_length};
ghost use Rattle.machine.specs.Line.{numbers_of, number_list};
ghost use Rattle.machine.specs.Replay.{line_step, refusal_numbers};
ghost use Rattle.executive.specs.Executive.{turned};
ghost use Rattle.executive.specs.Lists.{six, event_numbers};
ghost use Rattle.event_lines.specs.Blocks.{good_events, line_count, roomed_line, printed_sixes, over_at, block_events, block_text, block_of};

use executive::{Executive, Turn};
use machine::{Event, Line, Module, Numbers};

// The lines of a block, at most.
pub const BLOCK: usize = 1024;

// The numbers of an event, and of its answer.
const SIX: usize = 6;

// The numbers of a block.
const NUMBERS: usize = BLOCK * SIX;

// What a block of event lines gives: the executive after them, how many lines they are, and how many bytes their answers have.
#[derive(Clone, Copy)]
pub struct Block {
    pub executive: Executive,
    pub lines: usize,
    pub printed: usize,
}

// A bad table prints one line: code, line number, four 0.
pub fn refusal(code: u8, value: u32) -> Numbers
    ensures { result ≡ numbers_of (refusal_numbers code value) }
{
    Numbers {
        n1: code as i64,
        n2: value as i64,
        n3: 0,
        n4: 0,
        n5: 0,
        n6: 0,
    }
}

// What a line gets: an event is stepped, and any other line is answered with 11.
pub fn step_line(e: Executive, l: Line) -> Turn
    ensures { result ≡ turned (line_step e.inner l) }
{
    match l {
        Line::Six(n) => e.step(Event::from(n)),
        Line::Bad => Turn {
            executive: e,
            answer: e.unread(),
        },
    }
}

// ---------------------------------------------------------------- a block of lines
// The list is lent as numbers, so a line's six are stored and read by their places: an array between would be no plainer.
fn put_six(list: &mut [i64], at: usize, n: Numbers)
    requires { at + six ≤ length list.old }
    ensures { list.new ≡ sets list.old at (number_list n) }
{
    list[at] = n.n1;
    list[at + 1] = n.n2;
    list[at + 2] = n.n3;
    list[at + 3] = n.n4;
    list[at + 4] = n.n5;
    list[at + 5] = n.n6;
}

fn six_at(list: &[i64], at: usize) -> Numbers
    requires { at + six ≤ length list.now }
    ensures { result ≡ numbers_of (drop at list.now) }
{
    Numbers {
        n1: list[at],
        n2: list[at + 1],
        n3: list[at + 2],
        n4: list[at + 3],
        n5: list[at + 4],
        n6: list[at + 5],
    }
}

// As many lines as a block has, and as an output has room for from a position on.
fn line_count(length: usize, to: usize) -> usize
    ensures { result ≡ line_count (length - to) }
{
    (length.saturating_sub(to) / Module::LINE).min(BLOCK)
}

// Reads the good lines from a position of a text on, up to so many: how many they are. Their numbers stand at the front of the list.
fn read_lines(text: &[u8], from: usize, limit: usize, list: &mut [i64]) -> usize
    requires { limit * six ≤ length list.old }
    ensures { (result ≡ length (good_events limit (drop from text.now))) × (take (result * six) list.new ≡ event_numbers (good_events limit (drop from text.now))) }
{
    let mut at = from;
    for n in 0..limit {
        let Line::Six(q) = line::read_at(text, at) else {
            return n;
        };
        put_six(list, n * SIX, q);
        at += Module::LINE;
    }
    limit
}

// Prints a line at a position of the output, where there is room for one: how many bytes; none for a number out of range.
pub fn print_line(out: &mut [u8], to: usize, n: Numbers) -> usize
    ensures { (result ≡ length (roomed_line (length out.old - to) (number_list n))) × (out.new ≡ over_at to (roomed_line (length out.old - to) (number_list n)) out.old) }
{
    match line::write_at(out, to, n) {
        Ok(()) => Module::LINE,
        Err(_) => 0,
    }
}

// Prints a line for each six numbers of a list, from a position of the output on: how many bytes.
fn print_lines(out: &mut [u8], from: usize, list: &[i64]) -> usize
    requires { from + length list.now / six * line_length ≤ length out.old }
    ensures { (result ≡ length (printed_sixes (length list.now / six) list.now)) × (out.new ≡ over_at from (printed_sixes (length list.now / six) list.now) out.old) }
{
    let mut to = from;
    for i in 0..list.len() / SIX {
        to += print_line(out, to, six_at(list, i * SIX));
    }
    to - from
}

// Runs the good lines from a position of a text on, as many as a block has and as the output has room for from a position on, and
// prints their answers there. No line where the one at the position is bad or cut.
pub fn run_lines(e: Executive, text: &[u8], from: usize, out: &mut [u8], to: usize) -> Block
    ensures { (result ≡ block_of e.inner (block_events text.now from out.old to)) × (out.new ≡ over_at to (block_text e.inner (block_events text.now from out.old to)) out.old) }
{
    let mut list = [0i64; NUMBERS];
    let lines = read_lines(text, from, line_count(out.len(), to), &mut list);
    if lines == 0 {
        return Block {
            executive: e,
            lines,
            printed: 0,
        };
    }
    let used = lines * SIX;
    let executive = e.run(&mut list[..used]);
    let printed = print_lines(out, to, &list[..used]);
    Block {
        executive,
        lines,
        printed,
    }
}
