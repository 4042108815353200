// Calls 1 to 13 and 32 to 34: what each decides.
#![tactic(auto, unfolding(machine::specs::Decisions::checked, machine::specs::Calls::set_mode, machine::specs::Calls::create_process, machine::specs::Calls::start, machine::specs::Calls::stop, machine::specs::Calls::stop_self, machine::specs::Calls::suspend, machine::specs::Calls::suspend_self, machine::specs::Calls::timed_wait, machine::specs::Calls::periodic_wait, machine::specs::Calls::resume, machine::specs::Calls::set_priority, machine::specs::Calls::get_status, machine::specs::Calls::lock_preemption, machine::specs::Calls::unlock_preemption, machine::specs::Calls::get_ticks_left))]

ghost use Rattle.std.specs.Prelude.{◌≡◌, ℕ, not, ◌&&◌, ◌||◌, take};
ghost use Rattle.machine.specs.Limits.{duration_limit};
ghost use Rattle.machine.specs.Fields.{is_number, is_minus_one, between, is_duration, number_of};
ghost use Rattle.machine.specs.Process.{periodic};
ghost use Rattle.machine.specs.Decisions.{dormant};
ghost use Rattle.machine.specs.declared.Partition.{Partition as PartitionT};
ghost use Rattle.decisions.specs.Results.{decided};
ghost use Rattle.decisions.specs.Views.{Shows, Follows};
ghost use Rattle.machine.specs.Calls.{set_mode, process_named, is_multiple, above, is_priority, admissible, create_process, reaches, start, stop, stop_self, suspend, suspend_self, timed_wait, periodic_wait, resume, set_priority, status, get_status, lock_preemption, unlock_preemption, get_ticks_left};

use decisions::View;
use machine::{
    Change, Context, Decision, Field, Given, Mode, Module, Process, Refusal, Request, Wait,
};

// 1 SET_PARTITION_MODE; the messages are erased with the module.
pub fn set_mode(v: View, a: Field) -> Result<Decision, Refusal>
    ensures { (id : ℕ) → Follows v id result (set_mode v.context a) }
{
    if !fields::is_between(a, 0, Module::MODE) {
        return Err(Refusal::InvalidParameter);
    }
    if fields::is_number(a, 3) {
        if v.mode.is_normal() {
            return Err(Refusal::NoAction);
        }
        if v.count == 0 {
            return Err(Refusal::InvalidMode);
        }
        return Ok(decisions::changed(Change::Entered(v.context)));
    }
    if fields::is_number(a, 2) && v.mode == Mode::ColdStart {
        return Err(Refusal::InvalidMode);
    }
    Ok(Decision::Restarted(Mode::numbered(fields::number_of(a))))
}

pub fn is_multiple(f: Field, frame: u16) -> bool
    ensures { result ≡ is_multiple frame f }
{
    fields::is_between(f, 1, Module::DURATION)
        && frame != 0
        && fields::number_of(f) % (frame as u32) == 0
}

// Whether a capacity lies above a period.
pub fn is_above(capacity: Field, period: Field) -> bool
    ensures { result ≡ above capacity period }
{
    !fields::is_minus_one(capacity)
        && !fields::is_minus_one(period)
        && fields::number_of(period) < fields::number_of(capacity)
}

pub fn is_priority(f: Field) -> bool
    ensures { result ≡ is_priority f }
{
    fields::is_between(f, 1, Module::PRIORITY)
}

fn is_period(f: Field, frame: u16) -> bool
    ensures { result ≡ is_minus_one f || is_multiple frame f }
{
    fields::is_minus_one(f) || is_multiple(f, frame)
}

fn is_capacity(f: Field) -> bool
    ensures { result ≡ is_minus_one f || between 1 duration_limit f }
{
    fields::is_minus_one(f) || fields::is_between(f, 1, Module::DURATION)
}

// What CREATE_PROCESS admits: name, priority, period, capacity.
pub fn is_admissible(r: Request, c: Context) -> bool
    ensures { result ≡ admissible c r }
{
    fields::is_name(r.a)
        && is_priority(r.b)
        && is_period(r.c, c.frame)
        && is_capacity(r.e)
        && !is_above(r.e, r.c)
}

// 2 CREATE_PROCESS.
pub fn create_process(v: View, r: Request) -> Result<Decision, Refusal>
    ensures { (p : PartitionT) (id : ℕ) → Shows v id p → v.taken ≡ process_named r.a (take p.process_count p.processes) → decided result ≡ create_process v.context r p }
{
    let id = v.next_id(v.count, Module::PROCESSES, is_admissible(r, v.context))?;
    let given = Given {
        name: fields::number_of(r.a) as u16,
        base: fields::number_of(r.b) as u8,
        period: fields::time_of(r.c),
        capacity: fields::time_of(r.e),
    };
    let x = process::created_process(given);
    Ok(Decision::Changed(Change::Created(id, x), Change::Nothing, id))
}

// Whether a delay is none of D, or not below the process's period.
fn is_delay_refused(x: Process, delay: Field) -> bool
    ensures { result ≡ not (is_duration delay) || reaches x.given.period (number_of delay) }
{
    !fields::is_duration(delay) || process::does_reach(x.given.period, fields::number_of(delay))
}

// 3 START, with delay 0, and 4 DELAYED_START.
pub fn start_process(v: View, id: u32, delay: Field) -> Result<Decision, Refusal>
    ensures { Follows v id result (start v.context id delay) }
{
    if decisions::is_unknown(id, v.count) {
        return Err(Refusal::InvalidParameter);
    }
    let x = v.named;
    if is_delay_refused(x, delay) {
        return Err(Refusal::InvalidParameter);
    }
    if x.started {
        return Err(Refusal::NoAction);
    }
    let n = fields::number_of(delay);
    let started = if v.mode.is_normal() {
        process::start(x, v.context, n)
    } else {
        process::start_early(x, n)
    };
    Ok(decisions::changed(Change::Stored(id, started)))
}

// 5 STOP.
pub fn stop_process(v: View, id: u32) -> Result<Decision, Refusal>
    ensures { Follows v id result (stop v.context id) }
{
    if decisions::is_unknown(id, v.count) || id == v.context.caller as u32 {
        return Err(Refusal::InvalidParameter);
    }
    if !v.named.started {
        return Err(Refusal::NoAction);
    }
    Ok(decisions::changed(Change::Stored(id, process::stop(v.named))))
}

// 6 STOP_SELF; it ends a preemption lock.
pub fn stop_self(v: View) -> Result<Decision, Refusal>
    ensures { (id : ℕ) → Follows v id result (stop_self v.context) }
{
    if !v.mode.is_normal() {
        return Err(Refusal::InvalidMode);
    }
    Ok(Decision::Changed(
        Change::LevelSet(0, 0),
        Change::Stored(v.context.caller as u32, process::stop(v.calling)),
        0,
    ))
}

// Whether a process is DORMANT or periodic.
fn is_unsuspendable(x: Process) -> bool
    ensures { result ≡ dormant x || periodic x }
{
    !x.started || process::is_periodic(x)
}

// 7 SUSPEND.
pub fn suspend_process(v: View, id: u32) -> Result<Decision, Refusal>
    ensures { Follows v id result (suspend v.context id) }
{
    if decisions::is_unknown(id, v.count) || id == v.context.caller as u32 {
        return Err(Refusal::InvalidParameter);
    }
    if is_unsuspendable(v.named) {
        return Err(Refusal::InvalidMode);
    }
    if v.named.suspended {
        return Err(Refusal::NoAction);
    }
    Ok(decisions::changed(Change::Stored(id, process::with_suspended(v.named, true))))
}

// 8 SUSPEND_SELF.
pub fn suspend_self(v: View, a: Field) -> Result<Decision, Refusal>
    ensures { (id : ℕ) → Follows v id result (suspend_self v.context a) }
{
    if !v.mode.is_normal() || process::is_periodic(v.calling) {
        return Err(Refusal::InvalidMode);
    }
    if !fields::is_timeout(a) {
        return Err(Refusal::InvalidParameter);
    }
    if 0 < v.level {
        return Err(Refusal::InvalidMode);
    }
    if fields::is_number(a, 0) {
        return Ok(Decision::Unchanged(0, Some(0)));
    }
    let wake = process::later_time(Some(v.context.time), fields::time_of(a));
    decisions::block(
        v.level,
        v.context.caller,
        process::suspended_until(v.calling, wake),
    )
}

// 9 TIMED_WAIT.
pub fn timed_wait(v: View, a: Field) -> Result<Decision, Refusal>
    ensures { (id : ℕ) → Follows v id result (timed_wait v.context a) }
{
    if !v.mode.is_normal() {
        return Err(Refusal::InvalidMode);
    }
    if !fields::is_duration(a) {
        return Err(Refusal::InvalidParameter);
    }
    if 0 < v.level {
        return Err(Refusal::InvalidMode);
    }
    if fields::is_number(a, 0) {
        return Ok(decisions::changed(Change::Last(v.context.caller)));
    }
    let wake = process::later_time(Some(v.context.time), fields::time_of(a));
    decisions::block(
        v.level,
        v.context.caller,
        process::waiting_for(v.calling, Wait::Timed, wake),
    )
}

// 10 PERIODIC_WAIT.
pub fn periodic_wait(v: View) -> Result<Decision, Refusal>
    ensures { (id : ℕ) → Follows v id result (periodic_wait v.context) }
{
    let x = v.calling;
    if !v.mode.is_normal() || !process::is_periodic(x) {
        return Err(Refusal::InvalidMode);
    }
    let release = process::later_time(x.times.release, x.given.period);
    decisions::block(
        v.level,
        v.context.caller,
        process::wait_for_release(x, release),
    )
}

// 11 RESUME.
pub fn resume_process(v: View, id: u32) -> Result<Decision, Refusal>
    ensures { Follows v id result (resume v.context id) }
{
    if decisions::is_unknown(id, v.count) || id == v.context.caller as u32 {
        return Err(Refusal::InvalidParameter);
    }
    if is_unsuspendable(v.named) {
        return Err(Refusal::InvalidMode);
    }
    if !v.named.suspended {
        return Err(Refusal::NoAction);
    }
    Ok(decisions::changed(Change::Stored(id, process::resume(v.named))))
}

// 12 SET_PRIORITY. A READY process goes to the end of the arrival list.
pub fn set_priority(v: View, id: u32, a: Field) -> Result<Decision, Refusal>
    ensures { Follows v id result (set_priority id a) }
{
    if decisions::is_unknown(id, v.count) {
        return Err(Refusal::InvalidParameter);
    }
    if !is_priority(a) {
        return Err(Refusal::InvalidParameter);
    }
    let x = v.named;
    if !x.started {
        return Err(Refusal::InvalidMode);
    }
    let last = if process::is_ready(x) {
        Change::Last(id as u8)
    } else {
        Change::Nothing
    };
    let y = process::with_current(x, fields::number_of(a) as u8);
    Ok(Decision::Changed(Change::Stored(id, y), last, 0))
}

// 0 DORMANT, 1 READY, 2 running, 3 else.
pub fn status_of(x: Process, c: Context, id: u32) -> u32
    ensures { result ≡ status c id x }
{
    if !x.started {
        return 0;
    }
    if id == c.caller as u32 {
        return 2;
    }
    if process::is_ready(x) { 1 } else { 3 }
}

// 13 GET_PROCESS_STATUS.
pub fn get_status(v: View, id: u32) -> Result<Decision, Refusal>
    ensures { Follows v id result (get_status v.context id) }
{
    if decisions::is_unknown(id, v.count) {
        return Err(Refusal::InvalidParameter);
    }
    Ok(Decision::Unchanged(status_of(v.named, v.context, id), v.named.times.deadline))
}

// 32 LOCK_PREEMPTION. The process that raises the level from 0 is the holder.
pub fn lock_preemption(v: View) -> Result<Decision, Refusal>
    ensures { (id : ℕ) → Follows v id result (lock_preemption v.context) }
{
    if !v.mode.is_normal() {
        return Err(Refusal::NoAction);
    }
    if Module::LEVEL <= v.level {
        return Err(Refusal::NoRoom);
    }
    let holder = if 0 < v.level {
        v.holder
    } else {
        v.context.caller
    };
    Ok(decisions::changed(Change::LevelSet(v.level + 1, holder)))
}

// 33 UNLOCK_PREEMPTION. At level 0 there is no holder.
pub fn unlock_preemption(v: View) -> Result<Decision, Refusal>
    ensures { (id : ℕ) → Follows v id result unlock_preemption }
{
    if !v.mode.is_normal() {
        return Err(Refusal::NoAction);
    }
    if v.level == 0 {
        return Err(Refusal::NoAction);
    }
    let level = v.level - 1;
    let holder = if 0 < level { v.holder } else { 0 };
    Ok(decisions::changed(Change::LevelSet(level, holder)))
}

// 34 GET_TICKS_LEFT.
pub fn get_ticks_left(c: Context) -> Decision
    ensures { result ≡ get_ticks_left c }
{
    Decision::Unchanged(c.left, Some(0))
}
