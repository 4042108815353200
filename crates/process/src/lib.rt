// A process by itself: times, waits, and what each rule makes of its record.
#![tactic(auto)]

ghost use Rattle.std.specs.Prelude.{◌≡◌, cond};
ghost use Rattle.machine.specs.Process.{created_process, capped, later, due, periodic, object, carried, on_object, waits_for_nothing, waits_for_normal, ready, with_wake, with_deadline, with_delay, released_at, wait_ended, with_suspended, with_current, handed, waiting_for, suspended_until, only_marked, woken, deadline_missed, expired, ticked, begun, started_aperiodic, started_periodic, start_rule, started_early, entered, stopped, resumed, waiting_for_release};
ghost use Rattle.machine.specs.Calls.{reaches};

use machine::{Context, Given, Module, Process, Time, Times, Wait};

pub fn capped_time(n: u64) -> u32
    ensures { result ≡ capped n }
{
    u32::try_from(n).unwrap_or(Module::LATEST)
}

pub fn later_time(a: Time, b: Time) -> Time
    ensures { result ≡ later a b }
{
    Some(capped_time(u64::from(a?) + u64::from(b?)))
}

// Whether a time has come at t.
pub fn is_due(a: Time, t: u32) -> bool
    ensures { result ≡ due t a }
{
    a.is_some_and(|w| w <= t)
}

// Whether a delay is not below a period that is not −1.
pub fn does_reach(period: Time, delay: u32) -> bool
    ensures { result ≡ reaches period delay }
{
    period.is_some_and(|n| n <= delay)
}

pub fn waits_for_nothing(w: Wait) -> bool
    ensures { result ≡ waits_for_nothing w }
{
    matches!(w, Wait::None)
}

pub fn is_for_normal(w: Wait) -> bool
    ensures { result ≡ waits_for_normal w }
{
    matches!(w, Wait::Normal)
}

// The object that a wait names, as a number; 0 for none.
pub fn object_of(w: Wait) -> u16
    ensures { result ≡ object w }
{
    match w {
        Wait::None | Wait::Normal | Wait::Delay | Wait::Timed | Wait::Period => 0,
        Wait::Semaphore(k) => 256 + u16::from(k),
        Wait::Event(k) => 512 + u16::from(k),
        Wait::Sending(k, _) => 768 + u16::from(k),
        Wait::Receiving(k) => 1024 + u16::from(k),
        Wait::Blackboard(k) => 1280 + u16::from(k),
        Wait::Source(k, _) => 1536 + u16::from(k),
        Wait::Destination(k) => 1792 + u16::from(k),
    }
}

// A waiting sender's message, which is kept with its wait; 0 for none.
pub fn carried_by(x: Process) -> u32
    ensures { result ≡ carried x }
{
    match x.wait {
        Wait::Sending(_, m) | Wait::Source(_, m) => m,
        _ => 0,
    }
}

pub fn created_process(given: Given) -> Process
    ensures { result ≡ created_process given }
{
    Process {
        given,
        ..Process::blank()
    }
}

pub fn is_periodic(x: Process) -> bool
    ensures { result ≡ periodic x }
{
    x.given.period.is_some()
}

pub fn is_ready(x: Process) -> bool
    ensures { result ≡ ready x }
{
    x.started && !x.suspended && waits_for_nothing(x.wait)
}

pub fn is_on_object(x: Process) -> bool
    ensures { result ≡ on_object x }
{
    object_of(x.wait) != 0
}

pub fn wait_ended(x: Process, code: u8) -> Process
    ensures { result ≡ wait_ended code x }
{
    Process {
        times: Times {
            wake: None,
            ..x.times
        },
        code,
        wait: Wait::None,
        ..x
    }
}

// The wait ends with wake code 0, and this message is handed over.
pub fn hand(x: Process, m: u32) -> Process
    ensures { result ≡ handed m x }
{
    Process {
        message: m,
        ..wait_ended(x, 0)
    }
}

pub fn with_suspended(x: Process, suspended: bool) -> Process
    ensures { result ≡ with_suspended suspended x }
{
    Process { suspended, ..x }
}

pub fn with_current(x: Process, current: u8) -> Process
    ensures { result ≡ with_current current x }
{
    Process { current, ..x }
}

pub fn waiting_for(x: Process, wait: Wait, wake: Time) -> Process
    ensures { result ≡ waiting_for wait wake x }
{
    Process {
        times: Times { wake, ..x.times },
        wait,
        ..x
    }
}

pub fn suspended_until(x: Process, wake: Time) -> Process
    ensures { result ≡ suspended_until wake x }
{
    Process {
        times: Times { wake, ..x.times },
        suspended: true,
        ..x
    }
}

// The wake code that a time-out leaves.
fn timeout_code(x: Process) -> u8
    ensures { result ≡ cond (on_object x) 6 0 }
{
    if is_on_object(x) { 6 } else { 0 }
}

// Whether a process has no wait, but the suspended mark.
fn is_only_marked(x: Process) -> bool
    ensures { result ≡ only_marked x }
{
    waits_for_nothing(x.wait) && x.suspended
}

// The wake time has come: a wait ends, a suspension without a wait ends.
#[tactic(auto, unfolding(machine::specs::Process::woken))]
pub fn wake(x: Process, t: u32) -> Process
    ensures { result ≡ woken t x }
{
    if is_due(x.times.wake, t) {
        if is_only_marked(x) {
            return with_suspended(wait_ended(x, 6), false);
        }
        return wait_ended(x, timeout_code(x));
    }
    x
}

// The deadline has come.
#[tactic(auto, unfolding(machine::specs::Process::expired))]
pub fn expire(x: Process, t: u32) -> Process
    ensures { result ≡ expired t x }
{
    if is_due(x.times.deadline, t) {
        return Process {
            times: Times {
                deadline: None,
                ..x.times
            },
            missed: true,
            ..x
        };
    }
    x
}

// A tick.
pub fn tick(x: Process, t: u32) -> Process
    ensures { result ≡ ticked t x }
{
    expire(wake(x, t), t)
}

pub fn begin(x: Process, times: Times, wait: Wait) -> Process
    ensures { result ≡ begun times wait x }
{
    Process {
        times,
        current: x.given.base,
        suspended: false,
        missed: false,
        code: 0,
        started: true,
        wait,
        ..x
    }
}

// Times released at r.
pub fn released_at(times: Times, release: Time, capacity: Time) -> Times
    ensures { result ≡ released_at release capacity times }
{
    Times {
        release,
        deadline: later_time(release, capacity),
        wake: release,
        ..times
    }
}

pub fn start_aperiodic(x: Process, c: Context, delay: u32) -> Process
    ensures { result ≡ started_aperiodic c delay x }
{
    let at = later_time(Some(c.time), Some(delay));
    let deadline = later_time(at, x.given.capacity);
    let (wake, wait) = if delay == 0 {
        (None, Wait::None)
    } else {
        (at, Wait::Delay)
    };
    let times = Times {
        deadline,
        wake,
        ..x.times
    };
    begin(x, times, wait)
}

pub fn start_periodic(x: Process, c: Context, delay: u32) -> Process
    ensures { result ≡ started_periodic c delay x }
{
    let release = later_time(Some(c.release), Some(delay));
    let times = released_at(x.times, release, x.given.capacity);
    begin(x, times, Wait::Period)
}

// The start rule.
#[tactic(auto, unfolding(machine::specs::Process::start_rule))]
pub fn start(x: Process, c: Context, delay: u32) -> Process
    ensures { result ≡ start_rule c delay x }
{
    if is_periodic(x) {
        start_periodic(x, c, delay)
    } else {
        start_aperiodic(x, c, delay)
    }
}

// Started in a start mode.
pub fn start_early(x: Process, delay: u32) -> Process
    ensures { result ≡ started_early delay x }
{
    begin(x, Times { delay, ..x.times }, Wait::Normal)
}

// Entering NORMAL.
#[tactic(auto, unfolding(machine::specs::Process::entered))]
pub fn enter(x: Process, c: Context) -> Process
    ensures { result ≡ entered c x }
{
    if is_for_normal(x.wait) {
        let y = start(x, c, x.times.delay);
        return with_suspended(with_current(y, x.current), x.suspended);
    }
    x
}

pub fn stop(x: Process) -> Process
    ensures { result ≡ stopped x }
{
    Process {
        times: Times {
            release: None,
            deadline: None,
            wake: None,
            ..x.times
        },
        suspended: false,
        started: false,
        wait: Wait::None,
        ..x
    }
}

pub fn resume(x: Process) -> Process
    ensures { result ≡ resumed x }
{
    if waits_for_nothing(x.wait) {
        return with_suspended(wait_ended(x, 0), false);
    }
    with_suspended(x, false)
}

// The process waits for a release.
pub fn wait_for_release(x: Process, release: Time) -> Process
    ensures { result ≡ waiting_for_release release x }
{
    Process {
        times: released_at(x.times, release, x.given.capacity),
        wait: Wait::Period,
        ..x
    }
}
