// What is asked of a decision, and the code of the checks of a wait, for a caller that does not match on it. The loop over events matches.
ghost use Rattle.std.specs.Prelude.{◌≡◌, [], ◌∷◌};
ghost use Rattle.machine.specs.Mode.{mode_number};
ghost use Rattle.machine.specs.Decisions.{code_of, wait_checks};
ghost use Rattle.machine.specs.Questions.{changes, restarts, mode_of, first_change, second_change, message_at, message_of, transfer_at, transfer_of};

use machine::{Change, Decision, Message, Module, Refusal, Transfer};

// Whether it changes the caller's partition.
pub fn does_change(d: Decision) -> bool
    ensures { result ≡ changes d }
{
    matches!(
        d,
        Decision::Blocked(..) | Decision::Changed(..) | Decision::Restarted(_)
    )
}

pub fn is_restart(d: Decision) -> bool
    ensures { result ≡ restarts d }
{
    matches!(d, Decision::Restarted(_))
}

// The number of its mode; 0 for another decision.
pub fn mode_of(d: Decision) -> u8
    ensures { result ≡ mode_number (mode_of d) }
{
    match d {
        Decision::Restarted(mode) => mode.number(),
        Decision::Refused(_) | Decision::Unchanged(..) | Decision::Ticked => 0,
        Decision::Blocked(..) | Decision::Changed(..) => 0,
        Decision::Written(..) | Decision::Passed(..) => 0,
    }
}

// The two changes that it makes of the caller's partition, in order, where it is no restart.
pub fn first_change(d: Decision) -> Change
    ensures { result ≡ first_change d }
{
    match d {
        Decision::Blocked(id, x) => Change::Stored(u32::from(id), x),
        Decision::Changed(a, _, _) => a,
        Decision::Refused(_) | Decision::Unchanged(..) | Decision::Ticked => Change::Nothing,
        Decision::Restarted(_) | Decision::Written(..) | Decision::Passed(..) => Change::Nothing,
    }
}

pub fn second_change(d: Decision) -> Change
    ensures { result ≡ second_change d }
{
    match d {
        Decision::Changed(_, b, _) => b,
        Decision::Refused(_) | Decision::Unchanged(..) | Decision::Ticked => Change::Nothing,
        Decision::Blocked(..) | Decision::Restarted(_) => Change::Nothing,
        Decision::Written(..) | Decision::Passed(..) => Change::Nothing,
    }
}

// The place of the channel on which it leaves a message, past the last for none.
pub fn message_at(d: Decision) -> usize
    ensures { result ≡ message_at d }
{
    match d {
        Decision::Written(i, _) => i as usize,
        Decision::Refused(_) | Decision::Unchanged(..) | Decision::Ticked => Module::CHANNELS,
        Decision::Blocked(..) | Decision::Changed(..) => Module::CHANNELS,
        Decision::Restarted(_) | Decision::Passed(..) => Module::CHANNELS,
    }
}

// The message that it leaves there.
pub fn message_of(d: Decision) -> Option<Message>
    ensures { result ≡ message_of d }
{
    match d {
        Decision::Written(_, x) => Some(x),
        Decision::Refused(_) | Decision::Unchanged(..) | Decision::Ticked => None,
        Decision::Blocked(..) | Decision::Changed(..) => None,
        Decision::Restarted(_) | Decision::Passed(..) => None,
    }
}

// The place of the channel on which it makes a transfer, past the last for none.
pub fn transfer_at(d: Decision) -> usize
    ensures { result ≡ transfer_at d }
{
    match d {
        Decision::Passed(i, _, _) => i as usize,
        Decision::Refused(_) | Decision::Unchanged(..) | Decision::Ticked => Module::CHANNELS,
        Decision::Blocked(..) | Decision::Changed(..) => Module::CHANNELS,
        Decision::Restarted(_) | Decision::Written(..) => Module::CHANNELS,
    }
}

// The transfer that it makes there.
pub fn transfer_of(d: Decision) -> Transfer
    ensures { result ≡ transfer_of d }
{
    match d {
        Decision::Passed(_, a, _) => a,
        Decision::Refused(_) | Decision::Unchanged(..) | Decision::Ticked => Transfer::Taken,
        Decision::Blocked(..) | Decision::Changed(..) => Transfer::Taken,
        Decision::Restarted(_) | Decision::Written(..) => Transfer::Taken,
    }
}

// The code of the checks of a wait, or 0.
pub fn wait_code(unknown: bool, start: bool, admitted: bool) -> u8
    ensures { result ≡ code_of (wait_checks ((unknown, 3) ∷ []) start admitted []) }
{
    if unknown {
        return Refusal::InvalidParameter.code();
    }
    if start {
        return Refusal::InvalidMode.code();
    }
    if admitted {
        0
    } else {
        Refusal::InvalidParameter.code()
    }
}
