// Reads a table and event lines from standard input and prints the whole record at the end, one item a line
// (tests/separate/README.md, "The dump format"). After a failed write nothing more is written.
#![tactic(auto)]

use machine::{
    Blackboard, Buffer, Channel, EventState, Ids, Message, Module, Partition, Process, Queue,
    Semaphore, Table, Wait,
};
use std::{fmt, io};

// ---------------------------------------------------------------- words
// A number, or -1 for none.
#[derive(Clone, Copy)]
struct OrMinusOne(Option<u32>);

impl fmt::Display for OrMinusOne {
    fn fmt<W: fmt::Write>(&self, f: &mut fmt::Formatter<W>) -> fmt::Result {
        match self.0 {
            Some(t) => write!(f, "{t}"),
            None => write!(f, "-1"),
        }
    }
}

// What a process waits for.
#[derive(Clone, Copy)]
struct Waited(Wait);

impl fmt::Display for Waited {
    fn fmt<W: fmt::Write>(&self, f: &mut fmt::Formatter<W>) -> fmt::Result {
        match self.0 {
            Wait::None => write!(f, "none"),
            Wait::Normal => write!(f, "normal"),
            Wait::Delay => write!(f, "delay"),
            Wait::Timed => write!(f, "timed"),
            Wait::Period => write!(f, "period"),
            Wait::Semaphore(id) => write!(f, "semaphore {id}"),
            Wait::Event(id) => write!(f, "event {id}"),
            Wait::Sending(id, m) => write!(f, "sending {id} {m}"),
            Wait::Receiving(id) => write!(f, "receiving {id}"),
            Wait::Blackboard(id) => write!(f, "blackboard {id}"),
            Wait::Source(n, m) => write!(f, "sending channel {n} {m}"),
            Wait::Destination(n) => write!(f, "receiving channel {n}"),
        }
    }
}

// ---------------------------------------------------------------- a process
fn print_process(rt: &impl Print, id: u8, x: Process) -> io::Result<()> {
    let given = x.given;
    let times = x.times;
    print!(rt;
        "process {id} name {} base {} current {}",
        given.name, given.base, x.current
    )?;
    print!(rt;
        " period {} capacity {}",
        OrMinusOne(given.period),
        OrMinusOne(given.capacity)
    )?;
    print!(rt;
        " release {} deadline {}",
        OrMinusOne(times.release),
        OrMinusOne(times.deadline)
    )?;
    print!(rt; " wake {} delay {}", OrMinusOne(times.wake), times.delay)?;
    print!(rt;
        " suspended {} missed {}",
        x.suspended as u8, x.missed as u8
    )?;
    print!(rt;
        " code {} message {} started {}",
        x.code, x.message, x.started as u8
    )?;
    println!(rt; " wait {}", Waited(x.wait))
}

// ---------------------------------------------------------------- a partition
fn print_semaphore(rt: &impl Print, id: u8, s: Semaphore) -> io::Result<()> {
    println!(rt;
        "semaphore {id} name {} value {} max {}",
        s.name, s.value, s.max
    )
}

fn print_event(rt: &impl Print, id: u8, v: EventState) -> io::Result<()> {
    println!(rt; "event {id} name {} up {}", v.name, v.up as u8)
}

// How many messages a queue may hold, and those that it holds.
fn print_limited(rt: &impl Print, limit: u8, q: Queue) -> io::Result<()> {
    print!(rt; " limit {limit} messages")?;
    for m in q.items.iter().take(q.len as usize) {
        print!(rt; " {m}")?;
    }
    rt.print("\n")
}

fn print_buffer(rt: &impl Print, id: u8, b: Buffer) -> io::Result<()> {
    print!(rt; "buffer {id} name {}", b.name)?;
    print_limited(rt, b.limit, b.queue)
}

fn print_blackboard(rt: &impl Print, id: u8, b: Blackboard) -> io::Result<()> {
    println!(rt;
        "blackboard {id} name {} message {}",
        b.name,
        OrMinusOne(b.message)
    )
}

fn print_ids(rt: &impl Print, q: Ids) -> io::Result<()> {
    for id in q.items.iter().take(q.len as usize) {
        print!(rt; " {id}")?;
    }
    rt.print("\n")
}

// The queue of the object that a wait names.
fn print_queue(rt: &impl Print, label: &str, id: u8, p: Partition, w: Wait) -> io::Result<()> {
    print!(rt; "waiters {label} {id}")?;
    print_ids(rt, partition::queue_of(p, process::object_of(w)))
}

// A line of each id.
fn print_each<F: Fn(u8) -> io::Result<()>>(n: u8, print: F) -> io::Result<()>
    requires { F.IsAlwaysCallable print }
{
    for id in 1..=n {
        print(id)?;
    }
    Ok(())
}

fn print_objects(rt: &impl Print, p: Partition) -> io::Result<()> {
    print_each(
        p.process_count,
        |id| print_process(rt, id, partition::process_at(p, id as u32)),
    )?;
    print_each(
        p.semaphore_count,
        |id| print_semaphore(rt, id, objects::semaphore_at(p, id as u32)),
    )?;
    print_each(
        p.event_count,
        |id| print_event(rt, id, objects::event_at(p, id as u32)),
    )?;
    print_each(
        p.buffer_count,
        |id| print_buffer(rt, id, buffers::buffer_at(p, id as u32)),
    )?;
    print_each(
        p.blackboard_count,
        |id| print_blackboard(rt, id, blackboards::blackboard_at(p, id as u32)),
    )
}

fn print_queues(rt: &impl Print, p: Partition) -> io::Result<()> {
    print_each(
        p.semaphore_count,
        |id| print_queue(rt, "semaphore", id, p, Wait::Semaphore(id)),
    )?;
    print_each(
        p.event_count,
        |id| print_queue(rt, "event", id, p, Wait::Event(id)),
    )?;
    print_each(
        p.buffer_count,
        |id| print_queue(rt, "sending", id, p, Wait::Sending(id, 0)),
    )?;
    print_each(
        p.buffer_count,
        |id| print_queue(rt, "receiving", id, p, Wait::Receiving(id)),
    )?;
    print_each(
        p.blackboard_count,
        |id| print_queue(rt, "blackboard", id, p, Wait::Blackboard(id)),
    )
}

fn print_partition(rt: &impl Print, k: u32, p: Partition) -> io::Result<()> {
    print!(rt;
        "partition {k} mode {} processes {}",
        p.mode.number(),
        p.process_count
    )?;
    print!(rt;
        " semaphores {} events {}",
        p.semaphore_count, p.event_count
    )?;
    print!(rt;
        " buffers {} blackboards {}",
        p.buffer_count, p.blackboard_count
    )?;
    println!(rt; " level {} holder {}", p.level, p.holder)?;
    print_objects(rt, p)?;
    rt.print("arrival")?;
    print_ids(rt, p.arrival)?;
    print_queues(rt, p)
}

// ---------------------------------------------------------------- a partition's ends of queuing channels
// Those who wait at one end of the queuing channels of which partition k is this end.
fn print_ends<E: Fn(Channel) -> u8, F: Fn(u8) -> io::Result<()>>(
    table: Table,
    k: u32,
    end: E,
    print: F,
) -> io::Result<()>
    requires { E.IsAlwaysCallable end × F.IsAlwaysCallable print }
{
    print_each(table.channel_count, |n| {
        let c = channels::channel_at(table, (n as usize).saturating_sub(1));
        if channels::is_queuing(c) && end(c) as u32 == k {
            print(n)
        } else {
            Ok(())
        }
    })
}

fn print_channel_queues(rt: &impl Print, table: Table, k: u32, p: Partition) -> io::Result<()> {
    print_ends(
        table,
        k,
        |c| c.source,
        |n| print_queue(rt, "sending channel", n, p, Wait::Source(n, 0)),
    )?;
    print_ends(
        table,
        k,
        |c| c.destination,
        |n| print_queue(rt, "receiving channel", n, p, Wait::Destination(n)),
    )
}

// ---------------------------------------------------------------- the module
fn print_windows(rt: &impl Print, table: Table) -> io::Result<()> {
    for (n, w) in (1u32..).zip(table.windows.iter().take(table.window_count as usize)) {
        print!(rt; "window {n} start {} duration {}", w.start, w.duration)?;
        println!(rt; " partition {} flag {}", w.partition, w.flag as u8)?;
    }
    Ok(())
}

fn print_message(rt: &impl Print, held: Option<Message>) -> io::Result<()> {
    println!(rt;
        " message {} written {}",
        OrMinusOne(held.map(|x| x.value)),
        OrMinusOne(held.map(|x| x.written))
    )
}

// What a channel holds: the messages of a queuing one, or the message of a sampling one.
fn print_content(rt: &impl Print, c: Channel, x: Option<Message>, q: Queue) -> io::Result<()> {
    if channels::is_queuing(c) {
        return print_limited(rt, c.size, q);
    }
    print_message(rt, x)
}

fn print_channels(rt: &impl Print, m: Module) -> io::Result<()> {
    for i in 0..(m.table.channel_count as usize).min(Module::CHANNELS) {
        let c = m.table.channels[i];
        print!(rt;
            "channel {} source {} destination {}",
            i + 1,
            c.source,
            c.destination
        )?;
        print!(rt; " refresh {}", c.refresh)?;
        print_content(rt, c, m.messages[i], m.queues[i])?;
    }
    Ok(())
}

fn print_partitions(rt: &impl Print, m: Module) -> io::Result<()> {
    for (k, p) in (1u32..).zip(m.partitions.iter().take(m.table.size as usize)) {
        print_partition(rt, k, *p)?;
        print_channel_queues(rt, m.table, k, *p)?;
    }
    Ok(())
}

// The running process of the current partition k; 0 where there is none.
fn running_in(m: Module, k: u8) -> u8 {
    if k == 0 {
        return 0;
    }
    m.partitions
        .get((k - 1) as usize)
        .map_or(0, |p| partition::running_process(*p))
}

fn print_heading(rt: &impl Print, m: Module) -> io::Result<()> {
    let now = windows::lookup_at(m.table, m.t);
    print!(rt; "module t {} current {}", m.t, now.partition)?;
    print!(rt;
        " running {} frame {}",
        running_in(m, now.partition),
        m.table.frame
    )?;
    print!(rt;
        " partitions {} windows {}",
        m.table.size, m.table.window_count
    )?;
    println!(rt; " channels {}", m.table.channel_count)
}

// The record of a refused table is empty.
fn print_module(rt: &impl Print, m: Module) -> io::Result<()> {
    if m.table.size == 0 {
        return rt.print("empty\n");
    }
    print_heading(rt, m)?;
    print_windows(rt, m.table)?;
    print_channels(rt, m)?;
    print_partitions(rt, m)
}

fn main(rt: HostRuntime) {
    let r = standard_io::replay(rt, false);
    if print_module(&rt, r.executive.module()).is_err() {
        standard_io::report(rt, standard_io::End::Unwritten);
    }
}
