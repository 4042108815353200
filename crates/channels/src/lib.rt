// What a call sees of a channel; sampling channels: calls 21 and 22, and what a restart erases.
#![tactic(auto)]

ghost use Rattle.std.specs.Prelude.{◌≡◌, ◌-◌, false, cond, leb, OnOk};
ghost use Rattle.machine.specs.Limits.{partition_limit, channel_limit};
ghost use Rattle.machine.specs.Fields.{number_of};
ghost use Rattle.machine.specs.Decisions.{checked, code_of};
ghost use Rattle.machine.specs.Partition.{within};
ghost use Rattle.machine.specs.Module.{no_channel, channel};
ghost use Rattle.machine.specs.declared.Decision.{Decision as DecisionT};
ghost use Rattle.machine.specs.declared.Decision.TheVariants.{Refused};
ghost use Rattle.machine.specs.declared.Table.{Table as TableT};
ghost use Rattle.machine.specs.Channels.{queuing, seen_at, port_at, apart, channel_checks, write, read, kept_to};
ghost use Rattle.decisions.specs.Results.{decided, code_given, after};

use machine::{Channel, Context, Decision, Field, Message, Module, Port, Refusal, Table, Traffic};

// ---------------------------------------------------------------- what a call sees of a channel
// The place of the channel that a field names: its number less one.
pub fn place_of(a: Field) -> u32
    ensures { result ≡ number_of a - 1 }
{
    fields::number_of(a).saturating_sub(1)
}

// What stands for a channel where there is none.
pub fn no_channel() -> Channel
    ensures { result ≡ no_channel }
{
    Channel {
        source: 0,
        destination: 0,
        refresh: 0,
        size: 0,
    }
}

pub fn channel_at(table: Table, i: usize) -> Channel
    ensures { result ≡ channel table i }
{
    table.channels.get(i).copied().unwrap_or(no_channel())
}

// The message is seen at the destination alone.
fn seen_at(k: u32, c: Channel, x: Option<Message>) -> Option<Message>
    ensures { result ≡ seen_at k c x }
{
    if c.destination as u32 == k { x } else { None }
}

// What partition k sees of the channel that a names, which is this one of so many, on which x lies, with this traffic.
pub fn port_at(
    count: u8,
    here: Channel,
    k: u32,
    a: Field,
    x: Option<Message>,
    traffic: Traffic,
) -> Port
    ensures { (T : TableT) → T.channel_count ≡ count → here ≡ channel T (number_of a - 1) → result ≡ port_at T k a x traffic }
{
    Port {
        own: k,
        place: place_of(a),
        exists: fields::is_between(a, 1, count as u32),
        channel: here,
        message: seen_at(k, here, x),
        traffic,
    }
}

// Whether the record has a place for partition k.
fn has_place(k: u8) -> bool
    ensures { result ≡ within partition_limit k }
{
    k != 0 && k as usize <= Module::PARTITIONS
}

// Whether a channel is queuing; else it is sampling.
pub fn is_queuing(c: Channel) -> bool
    ensures { result ≡ queuing c }
{
    c.size != 0 && has_place(c.source) && has_place(c.destination)
}

// Whether partition k is at neither end.
pub fn is_apart(c: Channel, k: u32) -> bool
    ensures { result ≡ apart k c }
{
    c.source as u32 != k && c.destination as u32 != k
}

// ---------------------------------------------------------------- the calls
// The checks of a call on a channel, by whether it is one of the other kind and by the end that the caller's partition must be.
#[tactic(auto, unfolding(machine::specs::Decisions::checked, machine::specs::Channels::channel_checks))]
pub fn check_end(x: Port, other: bool, wanted: u8) -> Result<(), Refusal>
    ensures code { code_given result ≡ code_of (channel_checks x other wanted) }
    ensures checks { (d : DecisionT) → after result d ≡ checked Refused (channel_checks x other wanted) d }
    ensures kind { OnOk result (other ≡ false) }
{
    if !x.exists || other || is_apart(x.channel, x.own) {
        return Err(Refusal::InvalidParameter);
    }
    if wanted as u32 != x.own {
        return Err(Refusal::InvalidMode);
    }
    Ok(())
}

// 21 WRITE
#[tactic(auto, unfolding(machine::specs::Decisions::checked, machine::specs::Channels::write))]
pub fn write_channel(c: Context, x: Port, a: Field) -> Result<Decision, Refusal>
    ensures { decided result ≡ write c x a }
{
    check_end(x, is_queuing(x.channel), x.channel.source)?;
    if !fields::is_duration(a) {
        return Err(Refusal::InvalidParameter);
    }
    let message = Message {
        value: fields::number_of(a),
        written: c.time,
    };
    Ok(Decision::Written(x.place, message))
}

// 1 where a message written then is not older than refresh at t, else 0.
fn freshness_at(t: u32, written: u32, refresh: u32) -> u32
    ensures { result ≡ cond (leb (t - written) refresh) 1 0 }
{
    u32::from(t.saturating_sub(written) <= refresh)
}

// 22 READ
#[tactic(auto, unfolding(machine::specs::Decisions::checked, machine::specs::Channels::read))]
pub fn read_channel(c: Context, x: Port) -> Result<Decision, Refusal>
    ensures { decided result ≡ read c x }
{
    check_end(x, is_queuing(x.channel), x.channel.destination)?;
    let message = x.message.ok_or(Refusal::NoAction)?;
    let fresh = freshness_at(c.time, message.written, x.channel.refresh);
    Ok(Decision::Unchanged(message.value, Some(fresh)))
}

// ---------------------------------------------------------------- restarts
// The messages without those on channels into partition k, channel by channel as the definition counts them.
#[tactic(auto, using(machine::proofs::Folds::kept_none, machine::proofs::Folds::kept_erased, machine::proofs::Folds::kept_same))]
pub fn erase_into(messages: &mut [Option<Message>; Module::CHANNELS], table: Table, k: u32)
    ensures { messages.new ≡ kept_to table k channel_limit messages.old }
{
    for i in 0..Module::CHANNELS {
        if table.channels[i].destination as u32 == k {
            messages[i] = None;
        }
    }
}
