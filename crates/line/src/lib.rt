// Text lines: one is read out of an input, one is written into an output.
#![tactic(auto)]

ghost use Rattle.std.specs.Prelude.{◌≡◌, true, ◌+◌, ◌-◌, ◌*◌, ◌≤◌, length, get_or, take, drop, pos};
ghost use Rattle.std.proofs.lemmas.List.Edits.{sets};
ghost use Rattle.machine.specs.Limits.{line_length};
ghost use Rattle.machine.specs.Refusals.{result_code};
ghost use Rattle.machine.specs.Line.{base, space, field_width, field_count, in_range, last_digit, number_text, field_text, line_text, read_field, number_list, meaning, line_meaning, text_at, all_in_range, write_code, written, written_at, line_end};
ghost use Rattle.line.specs.Scan.{digits_from, number_from, first_from};
ghost use Rattle.line.specs.Blank.{fields_length, Blank, Alike};

use machine::{Line, Module, Numbers, Refusal};

// The columns of a field.
const WIDTH: usize = 10;

// The fields of a line.
const FIELDS: usize = Module::LINE / WIDTH;

// Numbers are base ten.
const BASE: u64 = 10;

// The byte of a number's last digit.
fn last_digit(n: u64) -> u8
    ensures { result ≡ last_digit n }
{
    b'0' + (n % BASE) as u8
}

// What digits to the field's end spell.
fn digits(s: &[u8]) -> Option<i64>
    requires { length s.now ≤ field_width }
    ensures { result ≡ digits_from s.now 0 }
{
    let mut v: u64 = 0;
    for b in s {
        if !b.is_ascii_digit() {
            return None;
        }
        v = v * BASE + (*b - b'0') as u64;
    }
    Some(v as i64)
}

// What the columns hold from the first byte on that is no space: a minus stands before a 1 alone, a 0 stands alone.
fn number_from(s: &[u8]) -> Option<i64>
    requires { (1 ≤ length s.now) × (length s.now ≤ field_width) }
    ensures { result ≡ number_from s.now }
{
    match s[0] {
        b'-' => if s.len() == 2 && s[1] == b'1' {
            Some(-1)
        } else {
            None
        },
        b'0' => if s.len() == 1 { Some(0) } else { None },
        _ => digits(s),
    }
}

// The first column past the first one that has no space; the last column where none before it has.
fn first(s: &[u8]) -> usize
    requires { length s.now ≡ field_width }
    ensures { (result + 1 ≤ field_width) × (number_from (drop result s.now) ≡ first_from (drop 1 s.now)) }
{
    for i in 1..WIDTH - 1 {
        if s[i] != b' ' {
            return i;
        }
    }
    WIDTH - 1
}

// Whether the columns between the first and the last have spaces, as those of most fields do.
fn is_last(s: &[u8]) -> bool
    requires { length s.now ≡ field_width }
    ensures { result ≡ true → first_from (drop (field_width - 1) s.now) ≡ first_from (drop 1 s.now) }
{
    s[1..WIDTH - 1].iter().all(|b| *b == b' ')
}

// What a field's columns hold, read once from the left: no number in range fills the first column.
fn field(s: &[u8]) -> Option<i64>
    requires { length s.now ≡ field_width }
    ensures { result ≡ read_field s.now }
{
    if s[0] != b' ' {
        return None;
    }
    if is_last(s) {
        return digits(&s[WIDTH - 1..]);
    }
    number_from(&s[first(s)..])
}

// What the field from `at` on holds.
fn field_at(s: &[u8], at: usize) -> Option<i64>
    requires { at + field_width ≤ length s.now }
    ensures { result ≡ read_field (take field_width (drop at s.now)) }
{
    let end = at + WIDTH;
    field(&s[at..end])
}

// What a line holds.
pub fn read(s: &[u8]) -> Line
    ensures { meaning result ≡ line_meaning s.now }
{
    if s.len() != Module::LINE {
        return Line::Bad;
    }
    let mut ns = [0i64; FIELDS];
    for i in 0..FIELDS {
        let Some(x) = field_at(s, i * WIDTH) else {
            return Line::Bad;
        };
        ns[i] = x;
    }
    if s[Module::LINE - 1] != b'\n' {
        return Line::Bad;
    }
    let [n1, n2, n3, n4, n5, n6] = ns;
    Line::Six(Numbers {
        n1,
        n2,
        n3,
        n4,
        n5,
        n6,
    })
}

// What the line at a position of the input holds; Bad where fewer bytes are left than a line has.
pub fn read_at(input: &[u8], at: usize) -> Line
    ensures { meaning result ≡ line_meaning (text_at input.now at) }
{
    if input.len() < at {
        return Line::Bad;
    }
    if input.len() - at < Module::LINE {
        return Line::Bad;
    }
    let end = at + Module::LINE;
    read(&input[at..end])
}

// Where the line at a position ends: past its LF, or at the input's end.
pub fn next_line(s: &[u8], at: usize) -> usize
    ensures { result ≡ line_end s.now at }
{
    if s.len() < at {
        return s.len();
    }
    match s[at..].iter().position(|b| *b == b'\n') {
        Some(i) => at + i + 1,
        None => s.len(),
    }
}

fn in_range(x: i64) -> bool
    ensures { result ≡ in_range x }
{
    if x == -1 {
        return true;
    }
    if x < 0 {
        return false;
    }
    x <= Module::NUMBER
}

// The number at a place, counted from 0.
fn number(n: Numbers, i: usize) -> i64
    ensures { result ≡ get_or (number_list n) i (pos 0) }
{
    match i {
        0 => n.n1,
        1 => n.n2,
        2 => n.n3,
        3 => n.n4,
        4 => n.n5,
        5 => n.n6,
        _ => 0,
    }
}

fn all_in_range(n: Numbers) -> bool
    ensures { result ≡ all_in_range (number_list n) }
{
    for i in 0..FIELDS {
        if !in_range(number(n, i)) {
            return false;
        }
    }
    true
}

// Spaces where the fields are to stand. The writer calls no function but its own (tests/writer), so none of the library's, as `fill`.
fn put_spaces(out: &mut [u8])
    requires { fields_length ≤ length out.old }
    ensures { (length out.new ≡ length out.old) × Blank out.new 0 fields_length × Alike fields_length out.new out.old }
{
    for k in 0..Module::LINE - 1 {
        out[k] = b' ';
    }
}

// The text of a number of one digit over spaces.
fn put_digit(out: &mut [u8], at: usize, digit: u8, sign: u8)
    requires { (at + field_width ≤ length out.old) × Blank out.old at (at + field_width) × (digit + 1 ≤ base) }
    ensures { out.new ≡ sets out.old at (number_text digit sign) }
{
    out[at + (WIDTH - 1)] = b'0' + digit;
    out[at + (WIDTH - 2)] = sign;
}

// The text of a number over spaces, from the right, each digit straight into its column.
fn put_number(out: &mut [u8], at: usize, magnitude: u64, sign: u8)
    requires { (at + field_width ≤ length out.old) × Blank out.old at (at + field_width) }
    ensures { out.new ≡ sets out.old at (number_text magnitude sign) }
{
    out[at + (WIDTH - 1)] = last_digit(magnitude);
    let mut rest = magnitude / BASE;
    for left in 1..WIDTH {
        let column = at + (WIDTH - left - 1);
        if rest == 0 {
            out[column] = sign;
            return;
        }
        out[column] = last_digit(rest);
        rest = rest / BASE;
    }
}

fn put_magnitude(out: &mut [u8], at: usize, n: u64)
    requires { (at + field_width ≤ length out.old) × Blank out.old at (at + field_width) }
    ensures { out.new ≡ sets out.old at (number_text n space) }
{
    if n < BASE {
        put_digit(out, at, n as u8, b' ');
    } else {
        put_number(out, at, n, b' ');
    }
}

fn put_field(out: &mut [u8], at: usize, x: i64)
    requires { (at + field_width ≤ length out.old) × Blank out.old at (at + field_width) × (in_range x ≡ true) }
    ensures { out.new ≡ sets out.old at (field_text x) }
{
    if x == -1 {
        put_digit(out, at, 1, b'-');
    } else {
        put_magnitude(out, at, x as u64);
    }
}

// The number at a place into its field: the fields from the next one on, over spaces, and the LF are left to store.
fn put_next(out: &mut [u8], n: Numbers, i: usize)
    requires { (i + 1 ≤ field_count) × (line_length ≤ length out.old) × (all_in_range (drop i (number_list n)) ≡ true) × Blank out.old (i * field_width) fields_length }
    ensures { (length out.new ≡ length out.old) × (all_in_range (drop (i + 1) (number_list n)) ≡ true) × Blank out.new ((i + 1) * field_width) fields_length × (sets out.new ((i + 1) * field_width) (line_text (drop (i + 1) (number_list n))) ≡ sets out.old (i * field_width) (line_text (drop i (number_list n)))) }
{
    put_field(out, i * WIDTH, number(n, i));
}

// The fields one after another, then LF. There is no loop: each field's number is known where it is written, and the compiled code is shorter.
fn put_line(out: &mut [u8], n: Numbers)
    requires { (line_length ≤ length out.old) × (all_in_range (number_list n) ≡ true) }
    ensures { out.new ≡ sets out.old 0 (line_text (number_list n)) }
{
    put_spaces(out);
    put_next(out, n, 0);
    put_next(out, n, 1);
    put_next(out, n, 2);
    put_next(out, n, 3);
    put_next(out, n, 4);
    put_next(out, n, 5);
    out[Module::LINE - 1] = b'\n';
}

// The line of six numbers at the front of the output; or a refusal and no byte changed, where a number is out of range or the output too short.
pub fn write(out: &mut [u8], n: Numbers) -> Result<(), Refusal>
    ensures { (result_code result ≡ write_code (length out.old) (number_list n)) × (out.new ≡ written out.old (number_list n)) }
{
    if out.len() < Module::LINE {
        return Err(Refusal::BadLine);
    }
    if !all_in_range(n) {
        return Err(Refusal::BadLine);
    }
    put_line(out, n);
    Ok(())
}

// The same from a position of the output on.
pub fn write_at(out: &mut [u8], at: usize, n: Numbers) -> Result<(), Refusal>
    ensures { (result_code result ≡ write_code (length out.old - at) (number_list n)) × (out.new ≡ written_at at out.old (number_list n)) }
{
    if out.len() < at {
        return Err(Refusal::BadLine);
    }
    write(&mut out[at..], n)
}
