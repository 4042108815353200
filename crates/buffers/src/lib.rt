// Buffers of a partition: calls 23 to 25.
#![tactic(auto, unfolding(machine::specs::Decisions::checked, machine::specs::Decisions::awaiting, machine::specs::Buffers::create_buffer, machine::specs::Buffers::send_buffer, machine::specs::Buffers::receive_buffer))]

ghost use Rattle.std.specs.Prelude.{◌≡◌, ◌&&◌, take, ℕ};
ghost use Rattle.machine.specs.Limits.{message_limit};
ghost use Rattle.machine.specs.Fields.{is_name, between};
ghost use Rattle.machine.specs.Partition.{buffer, first_waiter};
ghost use Rattle.machine.specs.Buffers.{buffer_named, create_buffer, send_buffer, receive_buffer};
ghost use Rattle.machine.specs.declared.Partition.{Partition as PartitionT};
ghost use Rattle.machine.specs.Process.{object};
ghost use Rattle.machine.specs.declared.Wait.TheVariants.{Sending, Receiving};
ghost use Rattle.decisions.specs.Results.{decided};
ghost use Rattle.decisions.specs.Views.{Shows};

use decisions::View;
use machine::{Buffer, Change, Decision, Field, Module, Partition, Refusal, Wait};

pub fn buffer_at(p: Partition, k: u32) -> Buffer
    ensures { result ≡ buffer k p }
{
    partition::by_id(&p.buffers, k, Buffer::blank())
}

// What CREATE_BUFFER admits.
fn is_buffer_admitted(name: Field, limit: Field) -> bool
    ensures { result ≡ is_name name && between 1 message_limit limit }
{
    fields::is_name(name) && fields::is_between(limit, 1, Module::MESSAGES as u32)
}

// 23 CREATE_BUFFER
pub fn create_buffer(v: View, name: Field, limit: Field) -> Result<Decision, Refusal>
    ensures { (p : PartitionT) (id : ℕ) → Shows v id p → v.taken ≡ buffer_named name (take p.buffer_count p.buffers) → decided result ≡ create_buffer name limit p }
{
    let k = v.next_id(v.buffers, Module::BUFFERS, is_buffer_admitted(name, limit))?;
    let change = Change::CreatedBuffer(
        k,
        fields::number_of(name) as u16,
        fields::number_of(limit) as u8,
    );
    Ok(Decision::Changed(change, Change::Nothing, k))
}

// 24 SEND_BUFFER
pub fn send_buffer(v: View, k: u32, m: Field, a: Field) -> Result<Decision, Refusal>
    ensures { (p : PartitionT) → Shows v k p → v.waiter ≡ first_waiter (object (Receiving k)) p → decided result ≡ send_buffer v.context k m a p }
{
    if decisions::is_unknown(k, v.buffers) {
        return Err(Refusal::InvalidParameter);
    }
    let n = fields::number_of(m);
    let success = decisions::changed(Change::Moved(k, messages::sent_to(v.waiter, n)));
    let wait = Wait::Sending(k as u8, n);
    objects::awaited_in_mode(v, fields::is_message(m), a, v.has_room(), success, wait)
}

// 25 RECEIVE_BUFFER
pub fn receive_buffer(v: View, k: u32, a: Field) -> Result<Decision, Refusal>
    ensures { (p : PartitionT) → Shows v k p → v.waiter ≡ first_waiter (object (Sending k 0)) p → decided result ≡ receive_buffer v.context k a p }
{
    if decisions::is_unknown(k, v.buffers) {
        return Err(Refusal::InvalidParameter);
    }
    let m = process::carried_by(v.served);
    let success = Decision::Changed(
        Change::Moved(k, messages::received_from(v.waiter, m)),
        Change::Nothing,
        v.first,
    );
    objects::awaited_in_mode(v, true, a, 0 < v.len, success, Wait::Receiving(k as u8))
}
