// Semaphores and events of a partition: calls 14 to 20.
#![tactic(auto, unfolding(machine::specs::Decisions::checked, machine::specs::Decisions::queued, machine::specs::Decisions::awaiting, machine::specs::Objects::create_semaphore, machine::specs::Objects::create_event, machine::specs::Objects::wait_semaphore, machine::specs::Objects::wait_event, machine::specs::Objects::signal, machine::specs::Objects::set_event, machine::specs::Objects::reset_event))]

ghost use Rattle.std.specs.Prelude.{◌≡◌, ℕ, cond, ◌&&◌, [], eqb, leb, take};
ghost use Rattle.machine.specs.Limits.{value_limit};
ghost use Rattle.machine.specs.Fields.{is_name, is_message, is_timeout, between, number_of};
ghost use Rattle.machine.specs.declared.Decision.TheVariants.{Refused};
ghost use Rattle.machine.specs.Partition.{semaphore, event, no_semaphore, no_event, waiters, first_waiter};
ghost use Rattle.machine.specs.Objects.{semaphore_named, event_named, create_semaphore, create_event, wait_semaphore, wait_event, signalled, signal, set_event, reset_event};
ghost use Rattle.machine.specs.Decisions.{queued, awaiting};
ghost use Rattle.machine.specs.declared.Partition.{Partition as PartitionT};
ghost use Rattle.machine.specs.Process.{object};
ghost use Rattle.machine.specs.declared.Wait.TheVariants.{Semaphore as SemaphoreW};
ghost use Rattle.decisions.specs.Results.{decided};
ghost use Rattle.decisions.specs.Views.{Shows, Follows};

use decisions::View;
use machine::{
    Change, Decision, EventState, Field, Module, Partition, Refusal, Request, Semaphore, Wait,
};

pub fn no_semaphore() -> Semaphore
    ensures { result ≡ no_semaphore }
{
    Semaphore {
        name: 0,
        value: 0,
        max: 0,
    }
}

pub fn no_event() -> EventState
    ensures { result ≡ no_event }
{
    EventState { name: 0, up: false }
}

pub fn semaphore_at(p: Partition, k: u32) -> Semaphore
    ensures { result ≡ semaphore k p }
{
    partition::by_id(&p.semaphores, k, no_semaphore())
}

pub fn event_at(p: Partition, k: u32) -> EventState
    ensures { result ≡ event k p }
{
    partition::by_id(&p.events, k, no_event())
}

// What CREATE_SEMAPHORE admits: name, start, max.
fn is_semaphore_admitted(r: Request) -> bool
    ensures { result ≡ is_name r.a && (between 1 value_limit r.c && between 0 (number_of r.c) r.b) }
{
    fields::is_name(r.a)
        && fields::is_between(r.c, 1, Module::VALUE)
        && fields::is_between(r.b, 0, fields::number_of(r.c))
}

// 14 CREATE_SEMAPHORE
pub fn create_semaphore(v: View, r: Request) -> Result<Decision, Refusal>
    ensures { (p : PartitionT) (id : ℕ) → Shows v id p → v.taken ≡ semaphore_named r.a (take p.semaphore_count p.semaphores) → decided result ≡ create_semaphore r p }
{
    let k = v.next_id(v.semaphores, Module::SEMAPHORES, is_semaphore_admitted(r))?;
    let s = Semaphore {
        name: fields::number_of(r.a) as u16,
        value: fields::number_of(r.b) as u16,
        max: fields::number_of(r.c) as u16,
    };
    Ok(Decision::Changed(Change::StoredSemaphore(k, s), Change::Nothing, k))
}

// 17 CREATE_EVENT
pub fn create_event(v: View, name: Field) -> Result<Decision, Refusal>
    ensures { (p : PartitionT) (id : ℕ) → Shows v id p → v.taken ≡ event_named name (take p.event_count p.events) → decided result ≡ create_event name p }
{
    let k = v.next_id(v.events, Module::EVENTS, fields::is_name(name))?;
    let e = EventState {
        name: fields::number_of(name) as u16,
        up: false,
    };
    Ok(Decision::Changed(Change::StoredEvent(k, e), Change::Nothing, k))
}

// Waits on an object, last in its queue.
fn wait_queued(v: View, a: Field, wait: Wait) -> Result<Decision, Refusal>
    ensures { (id : ℕ) → Follows v id result (queued v.context a wait) }
{
    if fields::is_number(a, 0) {
        return Err(Refusal::NotAvailable);
    }
    let until = process::later_time(Some(v.context.time), fields::time_of(a));
    decisions::block(
        v.level,
        v.context.caller,
        process::waiting_for(v.calling, wait, until),
    )
}

// What a send that may wait admits.
pub fn is_sending_admitted(m: Field, a: Field) -> bool
    ensures { result ≡ is_message m && is_timeout a }
{
    fields::is_message(m) && fields::is_timeout(a)
}

// The id of an object in 8 bits; 0 for one that no object has.
pub fn short_id(k: u32) -> u8
    ensures { result ≡ cond (leb k 255) k 0 }
{
    u8::try_from(k).unwrap_or(0)
}

// A call that waits with time-out a, by the code of its checks: where it need not wait, success.
pub fn awaited(v: View, code: u8, a: Field, passes: bool, success: Decision, wait: Wait) -> Decision
    ensures { (p : PartitionT) (id : ℕ) → Shows v id p → result ≡ cond (eqb code 0) (cond passes success (queued v.context a wait p)) (Refused code) }
{
    if code != 0 {
        return Decision::Refused(code);
    }
    if passes {
        return success;
    }
    match wait_queued(v, a, wait) {
        Ok(d) => d,
        Err(e) => Decision::Refused(e.code()),
    }
}

// A call that may wait, once it has passed the checks of its own: the checks of the mode, and of time-out a with what stands beside it; where it
// need not wait, success; else it waits.
pub fn awaited_in_mode(
    v: View,
    beside: bool,
    a: Field,
    passes: bool,
    success: Decision,
    wait: Wait,
) -> Result<Decision, Refusal>
    ensures { (id : ℕ) → Follows v id result (awaiting v.context [] beside [] a passes success wait) }
{
    if !v.mode.is_normal() {
        return Err(Refusal::InvalidMode);
    }
    if !(beside && fields::is_timeout(a)) {
        return Err(Refusal::InvalidParameter);
    }
    if passes {
        return Ok(success);
    }
    wait_queued(v, a, wait)
}

// 15 WAIT_SEMAPHORE
pub fn wait_semaphore(v: View, k: u32, a: Field) -> Result<Decision, Refusal>
    ensures { Follows v k result (wait_semaphore v.context k a) }
{
    if decisions::is_unknown(k, v.semaphores) {
        return Err(Refusal::InvalidParameter);
    }
    let s = v.semaphore;
    let value = s.value.saturating_sub(1);
    let success = decisions::changed(Change::StoredSemaphore(k, Semaphore { value, ..s }));
    awaited_in_mode(v, true, a, 0 < s.value, success, Wait::Semaphore(k as u8))
}

// 20 WAIT_EVENT
pub fn wait_event(v: View, k: u32, a: Field) -> Result<Decision, Refusal>
    ensures { Follows v k result (wait_event v.context k a) }
{
    if decisions::is_unknown(k, v.events) {
        return Err(Refusal::InvalidParameter);
    }
    let success = Decision::Unchanged(0, Some(0));
    awaited_in_mode(v, true, a, v.event.up, success, Wait::Event(k as u8))
}

// The first waiter's wait on an object ends; none: the value rises by one.
#[tactic(auto, using(crate::proofs::Laws::none_signalled, crate::proofs::Laws::first_signalled))]
fn signal_change(v: View, k: u32) -> Change
    ensures { (p : PartitionT) (o : ℕ) → Shows v k p → v.waiter ≡ first_waiter o p → (o ≡ 0 → ⊥) → result ≡ signalled (waiters o p) k p }
{
    let id = v.waiter;
    if id == 0 {
        let s = v.semaphore;
        let value = s.value.saturating_add(1);
        return Change::StoredSemaphore(k, Semaphore { value, ..s });
    }
    Change::Stored(u32::from(id), process::wait_ended(v.served, 0))
}

// 16 SIGNAL
pub fn signal_semaphore(v: View, k: u32) -> Result<Decision, Refusal>
    ensures { (p : PartitionT) → Shows v k p → v.waiter ≡ first_waiter (object (SemaphoreW k)) p → decided result ≡ signal k p }
{
    if decisions::is_unknown(k, v.semaphores) {
        return Err(Refusal::InvalidParameter);
    }
    if v.semaphore.value == v.semaphore.max {
        return Err(Refusal::NoAction);
    }
    Ok(decisions::changed(signal_change(v, k)))
}

// 18 SET_EVENT
pub fn set_event(v: View, k: u32) -> Result<Decision, Refusal>
    ensures { Follows v k result (set_event k) }
{
    if decisions::is_unknown(k, v.events) {
        return Err(Refusal::InvalidParameter);
    }
    let up = EventState {
        up: true,
        ..v.event
    };
    let o = process::object_of(Wait::Event(k as u8));
    Ok(Decision::Changed(Change::StoredEvent(k, up), Change::Ended(o), 0))
}

// 19 RESET_EVENT
pub fn reset_event(v: View, k: u32) -> Result<Decision, Refusal>
    ensures { Follows v k result (reset_event k) }
{
    if decisions::is_unknown(k, v.events) {
        return Err(Refusal::InvalidParameter);
    }
    let down = EventState {
        up: false,
        ..v.event
    };
    Ok(decisions::changed(Change::StoredEvent(k, down)))
}
