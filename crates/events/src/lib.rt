// What an event does before its partition is looked at, and its answer.
#![tactic(auto)]

ghost use Rattle.std.specs.Prelude.{◌≡◌};
ghost use Rattle.machine.specs.Fields.{number_of};
ghost use Rattle.machine.specs.Step.{sees};
ghost use Rattle.machine.specs.declared.Table.{Table as TableT};
ghost use Rattle.events.specs.Plans.{place_code, tick_count, slot_of, call_slot, takes_start_rule, release_for, shown_slot, planned, answer_of, no_answer};

use machine::{Answer, Lookup, Module, Reply, Request, Table};
use places::Placed;

// ---------------------------------------------------------------- before its partition is looked at
// The code of the places that need no partition, the time, the current partition and the ticks left after the event, how many
// partitions are ticked, and where these lie: the channel that a call may name, the current partition, the one that makes a call,
// the one whose running process is shown; past the last for none, which `planned` says too, so that one test of the array's bound serves both.
// The code is a number, since 0 goes on to the partition; time, window and places are there whatever it is.
#[derive(Clone, Copy)]
pub struct Plan {
    pub request: Request,
    pub own: u32,
    pub call: u32,
    pub place: usize,
    pub code: u8,
    pub time: u32,
    pub current: u8,
    pub left: u32,
    pub ticks: usize,
    pub spot: usize,
    pub slot: usize,
    pub shown: usize,
}

// 8 for a call, and 9 for a partition that the record has no place for; n where it is another code already.
#[tactic(auto, unfolding(machine::specs::Decisions::checked))]
fn call_code(n: u8, k: u32, current: u8) -> u8
    ensures { result ≡ place_code n k current }
{
    if n != 0 {
        return n;
    }
    if k == 0 {
        0
    } else if u32::from(current) != k {
        8
    } else if (Module::PARTITIONS as u32) < k {
        9
    } else {
        0
    }
}

// Of a table of this size.
fn tick_count(size: u8, code: u8, k: u32) -> usize
    ensures { (T : TableT) → T.size ≡ size → result ≡ tick_count T code k }
{
    if code != 0 || k != 0 {
        0
    } else {
        ticks::count(size)
    }
}

// Where partition k lies, past the last for none.
fn slot_of(k: u32) -> usize
    ensures { result ≡ slot_of k }
{
    if k == 0 {
        Module::PARTITIONS
    } else {
        (k - 1) as usize
    }
}

// Whether a call takes the start rule: 1 SET_PARTITION_MODE, 3 START, 4 DELAYED_START.
fn takes_start_rule(call: u32) -> bool
    ensures { result ≡ takes_start_rule call }
{
    matches!(call, 1 | 3 | 4)
}

// The release point that a call of partition k is shown: it is looked up only for one that takes the start rule.
pub fn release_for(table: Table, t: u32, k: u32, call: u32) -> u32
    ensures { result ≡ release_for table t k call }
{
    if takes_start_rule(call) {
        windows::release_point(table, t, k)
    } else {
        0
    }
}

fn call_slot(code: u8, k: u32) -> usize
    ensures { result ≡ call_slot code k }
{
    if code != 0 {
        Module::PARTITIONS
    } else {
        slot_of(k)
    }
}

// Whether an event of this partition is shown the running process of partition k.
fn is_shown(r: Request, k: u8) -> bool
    ensures { result ≡ sees r k }
{
    let own = r.partition;
    fields::is_number(own, 0) || fields::is_number(own, u32::from(k))
}

fn shown_slot(r: Request, k: u8) -> usize
    ensures { result ≡ shown_slot r k }
{
    if is_shown(r, k) {
        slot_of(u32::from(k))
    } else {
        Module::PARTITIONS
    }
}

// Of a request so placed, over a table of this size, with the window at the time after it.
pub fn plan_of(size: u8, request: Request, first: Placed, window: Lookup) -> Plan
    ensures { (T : TableT) → T.size ≡ size → result ≡ planned T request (number_of request.partition) first window }
{
    let own = fields::number_of(request.partition);
    let code = call_code(first.code, own, window.partition);
    Plan {
        request,
        own,
        call: fields::number_of(request.call),
        place: channels::place_of(request.a) as usize,
        code,
        time: first.time,
        current: window.partition,
        left: window.left,
        ticks: tick_count(size, code, own),
        spot: slot_of(u32::from(window.partition)),
        slot: call_slot(code, own),
        shown: shown_slot(request, window.partition),
    }
}

// ---------------------------------------------------------------- the answer
pub fn answer_of(reply: Reply, t: u32, current: u8, running: u8) -> Answer
    ensures { result ≡ answer_of reply t current running }
{
    Answer {
        code: reply.code,
        value: reply.value,
        extra: reply.extra,
        t,
        current,
        running,
    }
}

pub fn no_answer() -> Answer
    ensures { result ≡ no_answer }
{
    answer_of(decisions::reply_with(0), 0, 0, 0)
}
