// Replay of an input that comes in chunks of any size, in constant memory.
#![tactic(auto)]

ghost use Rattle.std.specs.Prelude.{◌≡◌, true, cond, not, ◌&&◌, ◌++◌, ◌+◌, ◌-◌, ◌≤◌, min, length, take, drop, set, ltb};
ghost use Rattle.machine.specs.declared.Numbers.{Numbers};
ghost use Rattle.machine.specs.Limits.{line_length};
ghost use Rattle.stream.specs.Stream.{held_limit, begun, nothing_printed, refusal, missing, accepted, table_turn, event_turn, events_turn, turn, text_of, prints, one_more, due, is_between, is_ended, left_result, is_stuck, run, advanced, finished, finished_of};
ghost use Rattle.event_lines.specs.Blocks.{over};

use executive::Executive;
use machine::{Module, Numbers, Refusal};

// The bytes of the longest table.
const HELD: usize = (1 + Module::WINDOWS + Module::CHANNELS) * Module::LINE;

// What the next line of the input belongs to; after a refused table nothing is read.
#[derive(Clone, Copy)]
pub enum Stage {
    Table,
    Events,
    Ended,
}

// Where a replay stands: its stage, its executive, and how many bytes it holds.
#[derive(Clone, Copy)]
pub struct Place {
    stage: Stage,
    executive: Executive,
    count: usize,
}

#[derive(Clone, Copy)]
pub struct Stream {
    place: Place,
    held: [u8; HELD],
}

// What a stream took of a chunk and printed at the front of an output. The outcome is a refusal, 11, where something is left for which the
// output has no room: bytes of the chunk, or the last line.
#[derive(Clone, Copy)]
pub struct Advance {
    pub stream: Stream,
    pub taken: usize,
    pub printed: usize,
    pub outcome: Result<(), Refusal>,
}

// Where a line leads, and the numbers that it prints, if it does.
#[derive(Clone, Copy)]
struct Printout {
    place: Place,
    numbers: Option<Numbers>,
}

fn print_nothing(place: Place) -> Printout
    ensures { result ≡ nothing_printed place }
{
    Printout {
        place,
        numbers: None,
    }
}

// ---------------------------------------------------------------- the table
fn accept(executive: Executive) -> Printout
    ensures { result ≡ accepted executive }
{
    print_nothing(Place {
        stage: Stage::Events,
        executive,
        count: 0,
    })
}

// A bad table prints one line and ends there.
fn refuse(x: Place, code: u8, value: u32) -> Printout
    ensures { result ≡ refusal x code value }
{
    Printout {
        place: Place {
            stage: Stage::Ended,
            executive: x.executive,
            count: 0,
        },
        numbers: Some(event_lines::refusal(code, value)),
    }
}

// Whether n bytes are good lines, and the next line is missing.
fn is_missing(code: u8, value: u32, n: usize) -> bool
    requires { n ≤ held_limit }
    ensures { result ≡ missing code value n }
{
    code == Refusal::BadLine.code() && value as usize * Module::LINE == n + Module::LINE
}

// The same before the input's end.
fn is_awaited(ended: bool, code: u8, value: u32, n: usize) -> bool
    requires { n ≤ held_limit }
    ensures { result ≡ (not ended && missing code value n) }
{
    !ended && is_missing(code, value, n)
}

// The table so far.
fn table_turn(ended: bool, x: Place, text: &[u8]) -> Printout
    requires { length text.now ≤ held_limit }
    ensures { result ≡ table_turn ended x text.now }
{
    let r = Executive::open(text);
    if r.code == 0 {
        return accept(r.executive);
    }
    if is_awaited(ended, r.code, r.value, text.len()) {
        return print_nothing(x);
    }
    refuse(x, r.code, r.value)
}

// ---------------------------------------------------------------- events
fn event_turn(x: Place, text: &[u8]) -> Printout
    ensures { result ≡ event_turn x text.now }
{
    let h = event_lines::step_line(x.executive, line::read(text));
    Printout {
        place: Place {
            stage: Stage::Events,
            executive: h.executive,
            count: 0,
        },
        numbers: Some(Numbers::from(h.answer)),
    }
}

// Bytes after the last LF are a line; nothing after it is none.
fn events_turn(ended: bool, x: Place, text: &[u8]) -> Printout
    ensures { result ≡ events_turn ended x text.now }
{
    if ended && text.len() == 0 {
        return print_nothing(x);
    }
    event_turn(x, text)
}

// ---------------------------------------------------------------- by stage
// A line is complete, or the input has ended.
fn turn_of(ended: bool, x: Place, text: &[u8]) -> Printout
    requires { length text.now ≤ held_limit }
    ensures { result ≡ turn ended x text.now }
{
    match x.stage {
        Stage::Table => table_turn(ended, x, text),
        Stage::Events => events_turn(ended, x, text),
        Stage::Ended => print_nothing(Place { count: 0, ..x }),
    }
}

// Whether the bytes held are looked at after a byte: at an LF, and where no table is longer.
fn is_due(stage: Stage, n: usize, b: u8) -> bool
    ensures { result ≡ due stage n b }
{
    b == b'\n' || matches!(stage, Stage::Table) && HELD <= n
}

// How many bytes are held.
fn held_count(n: usize) -> usize
    ensures { result ≡ min n held_limit }
{
    n.min(HELD)
}

// Holds a byte, where there is a place for it: how many are held.
fn hold(held: &mut [u8; HELD], n: usize, b: u8) -> usize
    ensures { (result ≡ one_more n) × (held.new ≡ cond (ltb n held_limit) (set held.old n b) held.old) }
{
    if n < HELD {
        held[n] = b;
        return n + 1;
    }
    n
}

// Whether the stream is at the events, and holds nothing.
fn is_between(stage: Stage, n: usize) -> bool
    ensures { result ≡ is_between stage n }
{
    matches!(stage, Stage::Events) && n == 0
}

// Holds the bytes of the line that ends at a position, as if they had come one by one.
fn hold_line(held: &mut [u8; HELD], chunk: &[u8], end: usize)
    requires { (length held.old ≡ held_limit) × (line_length ≤ end) × (end ≤ length chunk.now) }
    ensures { held.new ≡ over (take line_length (drop (end - line_length) chunk.now)) held.old }
{
    held[..Module::LINE].copy_from_slice(&chunk[end - Module::LINE..end]);
}

// ---------------------------------------------------------------- output
// Prints a line at a position of the output: how many bytes it has.
fn print(out: &mut [u8], to: usize, numbers: Option<Numbers>) -> usize
    requires { prints numbers ≡ true → to + line_length ≤ length out.old }
    ensures { (result ≡ length (text_of numbers)) × (out.new ≡ take to out.old ++ over (text_of numbers) (drop to out.old)) }
{
    match numbers {
        Some(n) => event_lines::print_line(out, to, n),
        None => 0,
    }
}

// 11 where something is left for which there is no room.
fn left_result(left: bool) -> Result<(), Refusal>
    ensures { result ≡ left_result left }
{
    if left { Err(Refusal::BadLine) } else { Ok(()) }
}

// Whether a line is to be printed, and there is no room for one.
fn is_stuck(numbers: Option<Numbers>, room: usize) -> bool
    ensures { result ≡ is_stuck numbers room }
{
    numbers.is_some() && room < Module::LINE
}

impl Stream {
    // Before the first byte.
    pub fn begin() -> Stream
        ensures { result ≡ begun }
    {
        let held = [0u8; HELD];
        let r = Executive::open(&held[..0]);
        Stream {
            place: Place {
                stage: Stage::Table,
                executive: r.executive,
                count: 0,
            },
            held,
        }
    }

    // Takes bytes of a chunk, as long as the output has room for a line, and prints at the front of the output; 11 where bytes are left.
    // Between two lines a block of good ones is taken out of the chunk as it lies; a byte at a time elsewhere.
    pub fn advance(self, chunk: &[u8], out: &mut [u8]) -> Advance
        ensures { (result ≡ advanced self (length out.old) chunk.now) × (out.new ≡ over (run self (length out.old) chunk.now).text out.old) }
    {
        let mut held = self.held;
        let mut x = self.place;
        let mut at: usize = 0;
        let mut to: usize = 0;
        // The step is a block of lines or a byte, as the place in the input says.
        while at < chunk.len() {
            if out.len() - to < Module::LINE {
                break;
            }
            if is_between(x.stage, x.count) {
                let r = event_lines::run_lines(x.executive, chunk, at, out, to);
                if 0 < r.lines {
                    x.executive = r.executive;
                    at += r.lines * Module::LINE;
                    to += r.printed;
                    hold_line(&mut held, chunk, at);
                    continue;
                }
            }
            let b = chunk[at];
            at += 1;
            x.count = hold(&mut held, x.count, b);
            if is_due(x.stage, x.count, b) {
                let n = held_count(x.count);
                let y = turn_of(false, x, &held[..n]);
                to += print(out, to, y.numbers);
                x = y.place;
            }
        }
        Advance {
            stream: Stream { place: x, held },
            taken: at,
            printed: to,
            outcome: left_result(at < chunk.len()),
        }
    }

    // The input has ended: prints the last line; 11, and nothing is done, where one is to be printed and the output has no room for it.
    pub fn finish(self, out: &mut [u8]) -> Advance
        ensures { (result ≡ finished_of self (length out.old)) × (out.new ≡ over (finished self (length out.old)).text out.old) }
    {
        let n = held_count(self.place.count);
        let y = turn_of(true, self.place, &self.held[..n]);
        if is_stuck(y.numbers, out.len()) {
            return Advance {
                stream: self,
                taken: 0,
                printed: 0,
                outcome: Err(Refusal::BadLine),
            };
        }
        let printed = print(out, 0, y.numbers);
        Advance {
            stream: Stream {
                place: y.place,
                held: self.held,
            },
            taken: 0,
            printed,
            outcome: Ok(()),
        }
    }

    // Whether nothing more is read: after a refused table.
    pub fn is_ended(self) -> bool
        ensures { result ≡ is_ended self.place.stage }
    {
        matches!(self.place.stage, Stage::Ended)
    }

    // The executive after the lines so far.
    pub fn executive(self) -> Executive
        ensures { result ≡ self.place.executive }
    {
        self.place.executive
    }
}
