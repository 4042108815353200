// What an event decides: its reply, what it changes, and the checks that several calls share.
#![tactic(auto)]

ghost use Rattle.std.specs.Prelude.{◌≡◌, ◌+◌, ◌<◌, ℕ, ◌&&◌, ◌||◌, true, eqb, ltb, leb, take, OnOk, IfOk};
ghost use Rattle.machine.specs.Mode.{mode_number};
ghost use Rattle.machine.specs.Decisions.{coded, checked, code_of, reply_of, changed, blocked, creation_checks, unknown, name_taken};
ghost use Rattle.decisions.specs.Results.{decided, code_given, after};
ghost use Rattle.machine.specs.declared.Decision.{Decision as DecisionT};
ghost use Rattle.machine.specs.declared.Decision.TheVariants.{Refused};
ghost use Rattle.decisions.specs.Names.{process_name, semaphore_name, event_name, buffer_name, blackboard_name};

use machine::{
    Blackboard, Buffer, Change, Context, Decision, EventState, Field, Mode, Process, Refusal,
    Reply, Semaphore, Time,
};

mod questions;

pub use questions::{
    does_change, first_change, is_restart, message_at, message_of, mode_of, second_change,
    transfer_at, transfer_of, wait_code,
};

// ---------------------------------------------------------------- decisions
fn reply(code: u8, value: u32, extra: Time) -> Reply
    ensures { result ≡ record { code = code; value = value; extra = extra } }
{
    Reply { code, value, extra }
}

// A reply of this code alone.
pub fn reply_with(code: u8) -> Reply
    ensures { result ≡ coded code }
{
    reply(code, 0, Some(0))
}

// The numbers of a decision.
pub fn reply_of(d: Decision) -> Reply
    ensures { result ≡ reply_of d }
{
    match d {
        Decision::Refused(code) => reply_with(code),
        Decision::Blocked(_, _) => reply_with(7),
        Decision::Unchanged(value, extra) => reply(0, value, extra),
        Decision::Changed(_, _, value) | Decision::Passed(_, _, value) => reply(0, value, Some(0)),
        Decision::Ticked | Decision::Restarted(_) | Decision::Written(_, _) => reply_with(0),
    }
}

// Code 0 and one change.
pub fn changed(change: Change) -> Decision
    ensures { result ≡ changed change }
{
    Decision::Changed(change, Change::Nothing, 0)
}

// The only place that gives code 7: process id has the record x, in which it waits; 5 while preemption is locked.
#[tactic(auto, unfolding(machine::specs::Decisions::checked, machine::specs::Decisions::blocked))]
pub fn block(level: u8, id: u8, x: Process) -> Result<Decision, Refusal>
    ensures { decided result ≡ blocked level id x }
{
    if 0 < level {
        return Err(Refusal::InvalidMode);
    }
    Ok(Decision::Blocked(id, x))
}

// ---------------------------------------------------------------- checks that several calls share
// Whether none of count things has this id.
pub fn is_unknown(id: u32, count: u8) -> bool
    ensures { result ≡ unknown id count }
{
    id == 0 || (count as u32) < id
}

// 9: whether a partition in the mode of this number whose running process is this one makes no call. By number: a `Mode` would ask more of
// callers, who may give any.
pub fn has_no_caller(mode: u8, running: u8) -> bool
    ensures { result ≡ (eqb mode 0 || (eqb mode 3 && eqb running 0)) }
{
    mode == 0 || (mode == 3 && running == 0)
}

// ---------------------------------------------------------------- names
// What has a name of its own among its kind.
pub trait Named: Copy {
    ghost name: { Self → ℕ };

    fn name(self) -> u16
        ensures { result ≡ name self };
}

impl Named for Process {
    ghost name = { process_name };

    fn name(self) -> u16 {
        self.given.name
    }
}

impl Named for Semaphore {
    ghost name = { semaphore_name };

    fn name(self) -> u16 {
        self.name
    }
}

impl Named for EventState {
    ghost name = { event_name };

    fn name(self) -> u16 {
        self.name
    }
}

impl Named for Buffer {
    ghost name = { buffer_name };

    fn name(self) -> u16 {
        self.name
    }
}

impl Named for Blackboard {
    ghost name = { blackboard_name };

    fn name(self) -> u16 {
        self.name
    }
}

// Whether one of the first count has this name. Not by `.any`: the equation of its result with `name_taken` did not close.
#[tactic(auto, using(std::proofs::lemmas::List::take_min, crate::proofs::Names::name_here, crate::proofs::Names::name_later, crate::proofs::Names::name_nowhere))]
pub fn is_named<T: Named>(items: &[T], count: u8, name: Field) -> bool
    ensures { result ≡ name_taken T.name name (take count items.now) }
{
    let created = &items[..(count as usize).min(items.len())];
    for x in created {
        if fields::is_number(name, x.name() as u32) {
            return true;
        }
    }
    false
}

// ---------------------------------------------------------------- what a call sees
// The context of the call; mode and preemption lock; how many there are of each kind; whether the name in field a is taken among its kind; the records of what field a
// names, of a buffer its limit, how many messages it holds and the first of them, and the caller's; the first process that waits for the object that the call looks at, 0 for none, and its record.
#[derive(Clone, Copy)]
pub struct View {
    pub context: Context,
    pub mode: Mode,
    pub level: u8,
    pub holder: u8,
    pub count: u8,
    pub semaphores: u8,
    pub events: u8,
    pub buffers: u8,
    pub blackboards: u8,
    pub taken: bool,
    pub named: Process,
    pub calling: Process,
    pub semaphore: Semaphore,
    pub event: EventState,
    pub limit: u8,
    pub len: u8,
    pub first: u32,
    pub blackboard: Blackboard,
    pub waiter: u8,
    pub served: Process,
}

impl View {
    // Whether the buffer takes one more message.
    pub fn has_room(self) -> bool
        ensures { result ≡ ltb self.len self.limit }
    {
        self.len < self.limit
    }

    // The id of what is created next of a kind of which count exist and at most limit can, by the checks of a creation.
    #[tactic(auto, unfolding(machine::specs::Decisions::checked))]
    pub fn next_id(self, count: u8, limit: usize, admitted: bool) -> Result<u32, Refusal>
        ensures code { code_given result ≡ code_of (creation_checks (leb limit count) self.taken admitted (eqb (mode_number self.mode) 3)) }
        ensures checks { (d : DecisionT) → after result d ≡ checked Refused (creation_checks (leb limit count) self.taken admitted (eqb (mode_number self.mode) 3)) d }
        ensures id { IfOk result (λ id. id ≡ count + 1) }
        ensures room { OnOk result (count < limit) }
        ensures admitted { OnOk result (admitted ≡ true) }
    {
        if limit <= count as usize {
            return Err(Refusal::NoRoom);
        }
        if self.taken {
            return Err(Refusal::NoAction);
        }
        if !admitted {
            return Err(Refusal::InvalidParameter);
        }
        if self.mode.is_normal() {
            return Err(Refusal::InvalidMode);
        }
        Ok(count as u32 + 1)
    }
}
