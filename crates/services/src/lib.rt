// Every call by its number: what each decides.
#![tactic(auto)]

ghost use Rattle.std.specs.Prelude.{◌≡◌};
ghost use Rattle.machine.specs.Fields.{number_of};
ghost use Rattle.machine.specs.Services.{call_decision, called};
ghost use Rattle.machine.specs.declared.Partition.{Partition as PartitionT};
ghost use Rattle.decisions.specs.Results.{decided};
ghost use Rattle.decisions.specs.Views.{Shows};
ghost use Rattle.services.specs.Looked.{taken_for, waiter_for, creates, object_for};

use decisions::View;
use machine::{Decision, Field, Partition, Port, Refusal, Request};

// ---------------------------------------------------------------- what a call looks at, by its number
// Calls go by their numbers here, as in the list that defines them: an enum of them would be a fifth table beside these four.

// Whether call n creates: only such a call looks at a name.
pub fn does_create(n: u32) -> bool
    ensures { result ≡ creates n }
{
    matches!(n, 2 | 14 | 17 | 23 | 26)
}

// Whether one of the kind that call n creates has this name.
pub fn is_taken(p: Partition, n: u32, name: Field) -> bool
    ensures { result ≡ taken_for n name p }
{
    match n {
        2 => decisions::is_named(&p.processes, p.process_count, name),
        14 => decisions::is_named(&p.semaphores, p.semaphore_count, name),
        17 => decisions::is_named(&p.events, p.event_count, name),
        23 => decisions::is_named(&p.buffers, p.buffer_count, name),
        26 => decisions::is_named(&p.blackboards, p.blackboard_count, name),
        _ => false,
    }
}

// The object whose first waiter call n looks at, as a number; 0 for none.
pub fn object_for(n: u32, id: u32) -> u64
    ensures { result ≡ object_for n id }
{
    match n {
        16 => 256 + u64::from(id),
        24 => 1024 + u64::from(id),
        25 => 768 + u64::from(id),
        _ => 0,
    }
}

// ---------------------------------------------------------------- what a call decides
// What call n decides of its partition's record; another number decides nothing.
#[tactic(auto, unfolding(machine::specs::Services::call_decision, machine::specs::Services::services))]
fn decide(v: View, x: Port, n: u32, r: Request) -> Result<Decision, Refusal>
    ensures { (p : PartitionT) → Shows v (number_of r.a) p → v.taken ≡ taken_for n r.a p → v.waiter ≡ waiter_for n (number_of r.a) p → decided result ≡ call_decision v.context x n r p }
{
    let id = fields::number_of(r.a);
    match n {
        1 => calls::set_mode(v, r.a),
        2 => calls::create_process(v, r),
        3 => calls::start_process(v, id, Field::Number(0)),
        4 => calls::start_process(v, id, r.b),
        5 => calls::stop_process(v, id),
        6 => calls::stop_self(v),
        7 => calls::suspend_process(v, id),
        8 => calls::suspend_self(v, r.a),
        9 => calls::timed_wait(v, r.a),
        10 => calls::periodic_wait(v),
        11 => calls::resume_process(v, id),
        12 => calls::set_priority(v, id, r.b),
        13 => calls::get_status(v, id),
        14 => objects::create_semaphore(v, r),
        15 => objects::wait_semaphore(v, id, r.b),
        16 => objects::signal_semaphore(v, id),
        17 => objects::create_event(v, r.a),
        18 => objects::set_event(v, id),
        19 => objects::reset_event(v, id),
        20 => objects::wait_event(v, id, r.b),
        21 => channels::write_channel(v.context, x, r.b),
        22 => channels::read_channel(v.context, x),
        23 => buffers::create_buffer(v, r.a, r.b),
        24 => buffers::send_buffer(v, id, r.b, r.c),
        25 => buffers::receive_buffer(v, id, r.b),
        26 => blackboards::create_blackboard(v, r.a),
        27 => blackboards::show_blackboard(v, id, r.b),
        28 => blackboards::read_blackboard(v, id, r.b),
        29 => blackboards::clear_blackboard(v, id),
        30 => queuing::send_channel(v, x, r.b, r.c),
        31 => queuing::receive_channel(v, x, r.b),
        32 => calls::lock_preemption(v),
        33 => calls::unlock_preemption(v),
        34 => Ok(calls::get_ticks_left(v.context)),
        _ => Err(Refusal::Malformed),
    }
}

// 9, then what call n decides; a refusal by its number.
#[tactic(auto, unfolding(machine::specs::Decisions::checked))]
pub fn call(v: View, x: Port, n: u32, r: Request) -> Decision
    ensures { (p : PartitionT) → Shows v (number_of r.a) p → v.taken ≡ taken_for n r.a p → v.waiter ≡ waiter_for n (number_of r.a) p → result ≡ called v.context x n r p }
{
    if decisions::has_no_caller(v.mode.number(), v.context.caller) {
        return Decision::Refused(Refusal::NoCaller.code());
    }
    match decide(v, x, n, r) {
        Ok(d) => d,
        Err(e) => Decision::Refused(e.code()),
    }
}
