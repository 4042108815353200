// Queuing channels: what a call sees of their traffic, calls 30 and 31, and queues that a restart fills anew.
#![tactic(auto)]

ghost use Rattle.std.specs.Prelude.{◌≡◌, ℕ, ◌-◌, ◌<◌, cond, not, ◌&&◌, ltb, Some, None, IfSome};
ghost use Rattle.machine.specs.Limits.{partition_limit, channel_limit};
ghost use Rattle.machine.specs.Messages.{ends_wait};
ghost use Rattle.machine.specs.Module.{channel};
ghost use Rattle.machine.specs.Channels.{queuing, apart, queuing_at, sees_traffic, other_end, other_queue, no_traffic, traffic_of, queuing_port, send, receive, leads_into, refilled_at, refilled_to};
ghost use Rattle.machine.specs.declared.Table.{Table as TableT};
ghost use Rattle.queuing.specs.Ports.{number_at};
ghost use Rattle.decisions.specs.Views.{Follows};

use decisions::View;
use machine::{
    Channel, Decision, Field, Module, Partition, Port, Queue, Refusal, Table, Traffic, Transfer,
    Wait,
};

// ---------------------------------------------------------------- what a call sees of a queuing channel
// Whether there is a channel at this place, and it is queuing.
fn is_queuing_at(table: Table, i: usize) -> bool
    ensures { result ≡ queuing_at table i }
{
    i < table.channel_count as usize && channels::is_queuing(channels::channel_at(table, i))
}

// Whether partition k sees the traffic of the channel at this place, which is this one of so many.
fn sees_traffic(count: u8, c: Channel, k: u32, place: usize) -> bool
    ensures { result ≡ ((ltb place count && queuing c) && not (apart k c)) }
{
    place < count as usize && channels::is_queuing(c) && !channels::is_apart(c, k)
}

fn other_end(c: Channel, k: u32) -> u8
    ensures { result ≡ other_end k c }
{
    if c.source as u32 == k {
        c.destination
    } else {
        c.source
    }
}

// Where the partition at the other end of a channel lies.
fn end_slot(c: Channel, k: u32) -> usize
    ensures { result ≡ other_end k c - 1 }
{
    usize::from(other_end(c, k)).saturating_sub(1)
}

// Where the partition at the other end lies, if partition k sees the traffic of the channel at this place, which is this one of so many.
#[tactic(auto, using(crate::proofs::Laws::end_within))]
pub fn seen_slot(count: u8, c: Channel, k: u32, place: usize) -> Option<usize>
    ensures slot { (T : TableT) → T.channel_count ≡ count → c ≡ channel T place → result ≡ cond (sees_traffic T k place) (Some (other_end k (channel T place) - 1)) None }
    ensures within { IfSome result (λ i. i < partition_limit) }
{
    if sees_traffic(count, c, k, place) {
        Some(end_slot(c, k))
    } else {
        None
    }
}

// Where it lies, if this transfer of partition k ends a wait there; past the last if not. An end that no table checked may itself lie past the
// last, so that one test of the place serves both.
pub fn ended_slot(table: Table, k: u32, place: usize, a: Transfer) -> usize
    ensures { result ≡ cond (ends_wait a) (other_end k (channel table place) - 1) partition_limit }
{
    if messages::ends_wait(a) {
        end_slot(channels::channel_at(table, place), k)
    } else {
        Module::PARTITIONS
    }
}

// The number of the channel at this place; 0 past the last.
fn number_at(place: usize) -> u8
    ensures { result ≡ number_at place }
{
    if place < Module::CHANNELS {
        place as u8 + 1
    } else {
        0
    }
}

// The object that those wait for who wait there, where this is the channel at the place; 0 past the last channel.
pub fn other_object(c: Channel, k: u32, place: usize) -> u16
    ensures { result ≡ cond (ltb place channel_limit) (other_queue k place c) 0 }
{
    if Module::CHANNELS <= place {
        return 0;
    }
    let n = number_at(place);
    process::object_of(if c.source as u32 == k {
        Wait::Destination(n)
    } else {
        Wait::Source(n, 0)
    })
}

pub fn no_traffic() -> Traffic
    ensures { result ≡ no_traffic }
{
    Traffic {
        len: 0,
        first: 0,
        waiter: 0,
        carried: 0,
    }
}

// What is seen of these messages, and of those who wait for this object in the partition at the other end.
pub fn traffic_of(q: Queue, object: u16, other: Partition) -> Traffic
    ensures { result ≡ traffic_of q object other }
{
    let waiter = partition::first_waiter(other, object);
    let x = partition::process_at(other, waiter as u32);
    Traffic {
        len: q.len,
        first: messages::first_of(q),
        waiter,
        carried: process::carried_by(x),
    }
}

// ---------------------------------------------------------------- the calls
// Whether the channel that a call names is queuing.
fn is_queuing_port(x: Port) -> bool
    ensures { result ≡ queuing_port x }
{
    channels::is_queuing(x.channel) && (x.place as usize) < Module::CHANNELS
}

// 30 SEND
#[tactic(auto, unfolding(machine::specs::Decisions::checked, machine::specs::Decisions::awaiting, machine::specs::Channels::channel_checks, machine::specs::Channels::send))]
pub fn send_channel(v: View, x: Port, m: Field, a: Field) -> Result<Decision, Refusal>
    ensures { (id : ℕ) → Follows v id result (send v.context x m a) }
{
    channels::check_end(x, !is_queuing_port(x), x.channel.source)?;
    let n = fields::number_of(m);
    let success = Decision::Passed(x.place, messages::sent_to(x.traffic.waiter, n), 0);
    let has_room = x.traffic.len < x.channel.size;
    let wait = Wait::Source(number_at(x.place as usize), n);
    objects::awaited_in_mode(v, fields::is_message(m), a, has_room, success, wait)
}

// 31 RECEIVE
#[tactic(auto, unfolding(machine::specs::Decisions::checked, machine::specs::Decisions::awaiting, machine::specs::Channels::channel_checks, machine::specs::Channels::receive))]
pub fn receive_channel(v: View, x: Port, a: Field) -> Result<Decision, Refusal>
    ensures { (id : ℕ) → Follows v id result (receive v.context x a) }
{
    channels::check_end(x, !is_queuing_port(x), x.channel.destination)?;
    let success = Decision::Passed(
        x.place,
        messages::received_from(x.traffic.waiter, x.traffic.carried),
        x.traffic.first,
    );
    let wait = Wait::Destination(number_at(x.place as usize));
    objects::awaited_in_mode(v, true, a, 0 < x.traffic.len, success, wait)
}

// ---------------------------------------------------------------- restarts
// Whether the channel at this place is queuing and leads into partition k.
fn is_refilled(table: Table, k: u32, i: usize) -> bool
    ensures { result ≡ queuing_at table i && leads_into k (channel table i) }
{
    is_queuing_at(table, i) && channels::channel_at(table, i).destination as u32 == k
}

// The queuing channel at this place holds the messages of its first waiting senders, whose waits end.
fn refill_at(m: Module, i: usize) -> Module
    ensures { result ≡ cond (queuing_at m.table i) (refilled_at i m) m }
{
    let table = m.table;
    if !is_queuing_at(table, i) {
        return m;
    }
    let c = channels::channel_at(table, i);
    let slot = (c.source - 1) as usize;
    let p = m.partitions[slot];
    let o = process::object_of(Wait::Source(number_at(i), 0));
    let queue = partition::waiting_messages(p, o, c.size);
    let q = partition::let_in(p, o, c.size);
    let mut r = m;
    r.queues[i] = queue;
    r.partitions[slot] = q;
    r
}

// The queues into partition k filled anew, channels by ascending number.
#[tactic(auto, using(crate::proofs::Laws::refilled_none, crate::proofs::Laws::refilled_here, crate::proofs::Laws::refilled_past))]
pub fn refill(m: Module, k: u32) -> Module
    ensures { result ≡ refilled_to k channel_limit m }
{
    let mut r = m;
    for i in 0..Module::CHANNELS {
        if is_refilled(m.table, k, i) {
            r = refill_at(r, i);
        }
    }
    r
}
