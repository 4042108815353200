// Blackboards of a partition: calls 26 to 29.
#![tactic(auto, unfolding(machine::specs::Decisions::checked, machine::specs::Decisions::awaiting, machine::specs::Blackboards::create_blackboard, machine::specs::Blackboards::show, machine::specs::Blackboards::read_blackboard, machine::specs::Blackboards::clear))]

ghost use Rattle.std.specs.Prelude.{◌≡◌, take, ℕ};
ghost use Rattle.machine.specs.Partition.{empty_blackboard, blackboard};
ghost use Rattle.machine.specs.Blackboards.{blackboard_named, create_blackboard, show, read_blackboard, clear};
ghost use Rattle.machine.specs.declared.Partition.{Partition as PartitionT};
ghost use Rattle.decisions.specs.Results.{decided};
ghost use Rattle.decisions.specs.Views.{Shows, Follows};

use decisions::View;
use machine::{Blackboard, Change, Decision, Field, Module, Partition, Refusal, Wait};

// A blackboard that shows nothing.
pub fn empty_blackboard(name: u16) -> Blackboard
    ensures { result ≡ empty_blackboard name }
{
    Blackboard {
        name,
        message: None,
    }
}

pub fn blackboard_at(p: Partition, k: u32) -> Blackboard
    ensures { result ≡ blackboard k p }
{
    partition::by_id(&p.blackboards, k, empty_blackboard(0))
}

// 26 CREATE_BLACKBOARD
pub fn create_blackboard(v: View, name: Field) -> Result<Decision, Refusal>
    ensures { (p : PartitionT) (id : ℕ) → Shows v id p → v.taken ≡ blackboard_named name (take p.blackboard_count p.blackboards) → decided result ≡ create_blackboard name p }
{
    let k = v.next_id(v.blackboards, Module::BLACKBOARDS, fields::is_name(name))?;
    let b = empty_blackboard(fields::number_of(name) as u16);
    Ok(Decision::Changed(Change::StoredBlackboard(k, b), Change::Nothing, k))
}

// 27 SHOW
pub fn show_blackboard(v: View, k: u32, m: Field) -> Result<Decision, Refusal>
    ensures { Follows v k result (show k m) }
{
    if decisions::is_unknown(k, v.blackboards) || !fields::is_message(m) {
        return Err(Refusal::InvalidParameter);
    }
    let message = fields::number_of(m);
    let b = Blackboard {
        message: Some(message),
        ..v.blackboard
    };
    let o = process::object_of(Wait::Blackboard(k as u8));
    Ok(Decision::Changed(
        Change::StoredBlackboard(k, b),
        Change::Handed(o, message),
        0,
    ))
}

// 28 READ_BLACKBOARD
pub fn read_blackboard(v: View, k: u32, a: Field) -> Result<Decision, Refusal>
    ensures { Follows v k result (read_blackboard v.context k a) }
{
    if decisions::is_unknown(k, v.blackboards) {
        return Err(Refusal::InvalidParameter);
    }
    let message = v.blackboard.message;
    let success = Decision::Unchanged(message.unwrap_or(0), Some(0));
    objects::awaited_in_mode(
        v,
        true,
        a,
        message.is_some(),
        success,
        Wait::Blackboard(k as u8),
    )
}

// 29 CLEAR
pub fn clear_blackboard(v: View, k: u32) -> Result<Decision, Refusal>
    ensures { Follows v k result (clear k) }
{
    if decisions::is_unknown(k, v.blackboards) {
        return Err(Refusal::InvalidParameter);
    }
    let b = empty_blackboard(v.blackboard.name);
    Ok(decisions::changed(Change::StoredBlackboard(k, b)))
}
