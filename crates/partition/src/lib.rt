// A partition's record: its processes, the lists that follow them, the running process and the tick.
#![tactic(auto)]

ghost use Rattle.std.specs.Prelude.{◌≡◌, ◌≤◌, ℕ, Bool, max, cond, ◌||◌, map, length, take, get_or, eqb, fold};
ghost use Rattle.partition.specs.Places.{slot_of, in_byte};
ghost use Rattle.partition.specs.Soonest.{sooner, soonest_of};
ghost use Rattle.partition.specs.Waits.{served_with, ended_id, ended_as};
ghost use Rattle.machine.specs.Mode.{mode_number};
ghost use Rattle.machine.specs.Ids.{members, ids_of, kept, other, appended, removed, follow};
ghost use Rattle.machine.specs.Messages.{queue_of};
ghost use Rattle.machine.specs.Process as Pr;
ghost use Rattle.machine.specs.Process.{carried, due, ready, on_object, ticked, served, entered};
ghost use Rattle.machine.specs.Partition.{by_id, process, stored, arrived_last, preferred, running, waits_on, waiters, first_waiter, changed_all, tick_partition, entered_normal, nothing_created, stored_event, stored_buffer, empty_buffer, created, ended_by, applied, partition_after};

use lists::{Priority, Test};
pub use lists::{first_where as first_by, greatest as greatest_by, keep as keep_by, or_later};
use machine::{
    Buffer, Choice, Context, EventState, Ids, Mode, Module, Partition, Process, Queue, Time,
    Transfer,
};

// An id in a byte; no record has one past 255.
fn narrow(id: u32) -> u8
    ensures { result ≡ in_byte id }
{
    u8::try_from(id).unwrap_or(u8::MAX)
}

fn append(q: Ids, id: u8) -> Ids
    ensures { result ≡ appended id q }
{
    let mut r = q;
    r.len = arrays::join_last(&mut r.items, q.len, id);
    r
}

// The ids of a list that pass a test, by a closure. The new list is filled where it lies: a function that gives a list would copy it at each turn.
pub fn keep<F: Fn(u8) -> bool>(q: Ids, test: F) -> Ids
    requires { F.IsAlwaysCallable test }
    ensures { (f : ℕ → Bool) → ((x : ℕ) (r : Bool) → F.post test x r → r ≡ f x) → result ≡ ids_of (kept f (members q)) }
{
    let mut found = Ids {
        items: [0; Module::PROCESSES],
        len: 0,
    };
    for id in arrays::held(&q.items, q.len) {
        if test(*id) {
            let len = found.len;
            found.len = arrays::join_last(&mut found.items, len, *id);
        }
    }
    found
}

// The first id of a list that passes a test, 0 for none, by a closure.
pub fn first_where<F: Fn(u8) -> bool>(q: Ids, test: F) -> u8
    requires { F.IsAlwaysCallable test }
    ensures { (f : ℕ → Bool) → ((x : ℕ) (r : Bool) → F.post test x r → r ≡ f x) → result ≡ get_or (kept f (members q)) 0 0 }
{
    for id in arrays::held(&q.items, q.len) {
        if test(*id) {
            return *id;
        }
    }
    0
}

// The id of a list that has the greatest priority, the first among equals, by a closure; 0 for none.
pub fn greatest<F: Fn(u8) -> u8>(q: Ids, priority: F) -> u8
    requires { F.IsAlwaysCallable priority }
    ensures { (f : ℕ → ℕ) → ((x r : ℕ) → F.post priority x r → r ≡ f x) → result ≡ (fold (λ c id. preferred c id (f id)) (record { id = 0; priority = 0 }) (members q)).id }
{
    let mut best = Choice { id: 0, priority: 0 };
    for id in arrays::held(&q.items, q.len) {
        best = or_later(best, *id, priority(*id));
    }
    best.id
}

// Every id but one passes.
#[derive(Clone, Copy)]
struct Except {
    id: u8,
}

impl Test<Ids> for Except {
    ghost passes = { λ s q. other s.id };

    fn passes(self, _known: &Ids, id: u8) -> bool {
        id != self.id
    }
}

// A list without an id.
#[tactic(auto, unfolding(machine::specs::Ids::removed))]
fn remove(q: Ids, id: u8) -> Ids
    ensures { result ≡ removed id q }
{
    keep_by(q, &q, Except { id })
}

// The list with this id at its end, and nowhere else.
pub fn last_in(q: Ids, id: u8) -> Ids
    ensures { result ≡ appended id (removed id q) }
{
    append(remove(q, id), id)
}

// The list after process id went from belonging to it or not (was) to belonging to it or not (now).
fn followed(q: Ids, was: bool, now: bool, id: u8) -> Ids
    ensures { result ≡ follow was now id q }
{
    match (was, now) {
        (true, false) => remove(q, id),
        (false, true) => append(q, id),
        (true, true) | (false, false) => q,
    }
}

// Where in an array of this length the record of an id lies, or past the last. A loop that reads it there copies no partition.
pub fn slot(id: u32, limit: usize) -> usize
    ensures { result ≡ slot_of limit id }
{
    if id == 0 { limit } else { id as usize - 1 }
}

// What an id names in an array of records, or what stands for none.
pub fn by_id<T: Copy>(items: &[T], id: u32, none: T) -> T
    ensures { result ≡ by_id (length items.now) none id items.now }
{
    let k = slot(id, items.len());
    if k < items.len() { items[k] } else { none }
}

pub fn process_at(p: Partition, id: u32) -> Process
    ensures { result ≡ process id p }
{
    by_id(&p.processes, id, Process::blank())
}

// While preemption is locked, the holder.
pub fn running_process(p: Partition) -> u8
    ensures { result ≡ running p }
{
    if !p.mode.is_normal() {
        return 0;
    }
    if 0 < p.level {
        return p.holder;
    }
    greatest_by(p.arrival, &p, Current)
}

// The record of process id, read where it lies: no partition is copied.
fn record_in(p: &Partition, id: u8) -> Process
    ensures { result ≡ process id p.now }
{
    by_id(&p.processes, u32::from(id), Process::blank())
}

// A process's current priority.
#[derive(Clone, Copy)]
struct Current;

impl Priority<Partition> for Current {
    ghost priority = { λ s p id. (process id p).current };

    fn priority(self, known: &Partition, id: u8) -> u8 {
        record_in(known, id).current
    }
}

// Whether a process waits for an object.
#[derive(Clone, Copy)]
struct WaitsOn {
    object: u16,
}

impl Test<Partition> for WaitsOn {
    ghost passes = { λ s. waits_on s.object };

    fn passes(self, known: &Partition, id: u8) -> bool {
        process::object_of(record_in(known, id).wait) == self.object
    }
}

// The queue of an object.
#[tactic(auto, unfolding(machine::specs::Partition::waiters))]
pub fn queue_of(p: Partition, object: u16) -> Ids
    ensures { result ≡ ids_of (waiters object p) }
{
    keep_by(p.waiting, &p, WaitsOn { object })
}

// The first of the queue of an object, 0 for none.
#[tactic(auto, unfolding(machine::specs::Partition::waiters))]
pub fn first_waiter(p: Partition, object: u16) -> u8
    ensures { result ≡ first_waiter object p }
{
    first_by(p.waiting, &p, WaitsOn { object })
}

// The first n of the queue of an object.
fn first_waiters(p: Partition, object: u16, n: u8) -> Ids
    ensures { members result ≡ take n (waiters object p) }
{
    let ids = queue_of(p, object);
    Ids {
        len: ids.len.min(n),
        ..ids
    }
}

// The messages that are kept with their waits.
pub fn waiting_messages(p: Partition, object: u16, n: u8) -> Queue
    ensures { result ≡ queue_of (map (λ id. carried (process id p)) (take n (waiters object p))) }
{
    let ids = first_waiters(p, object, n);
    let mut q = Queue::empty();
    for id in arrays::held(&ids.items, ids.len) {
        q = messages::put(q, process::carried_by(record_in(&p, *id)));
    }
    q
}

// The lesser of a time and a number.
fn sooner_of(a: Time, n: u32) -> u32
    ensures { result ≡ sooner a n }
{
    a.map_or(n, |t| t.min(n))
}

// The sooner of a process's wake time and deadline, and a number.
fn soonest_with(x: Process, n: u32) -> u32
    ensures { result ≡ sooner x.times.wake (sooner x.times.deadline n) }
{
    sooner_of(x.times.wake, sooner_of(x.times.deadline, n))
}

// No wake time or deadline comes before it.
pub fn soonest_of(p: Partition) -> u32
    ensures { result ≡ soonest_of p }
{
    let mut s = Module::LATEST;
    for k in (0..p.process_count).rev() {
        s = soonest_with(record_in(&p, k + 1), s);
    }
    s
}

// ---------------------------------------------------------------- one record stored
// The arrival list and the waiting list after process id, which had the record old, has the record x.
pub fn arrival_with(q: Ids, old: Process, x: Process, id: u32) -> Ids
    ensures { result ≡ follow (ready old) (ready x) (in_byte id) q }
{
    followed(q, process::is_ready(old), process::is_ready(x), narrow(id))
}

pub fn waiting_with(q: Ids, old: Process, x: Process, id: u32) -> Ids
    ensures { result ≡ follow (on_object old) (on_object x) (in_byte id) q }
{
    followed(
        q,
        process::is_on_object(old),
        process::is_on_object(x),
        narrow(id),
    )
}

// Stores a process's record; both lists follow.
fn store(p: Partition, id: u32, x: Process) -> Partition
    ensures { result ≡ stored id x p }
{
    let i = slot(id, Module::PROCESSES);
    if Module::PROCESSES <= i {
        return p;
    }
    let mut q = p;
    let old = q.processes[i];
    q.processes[i] = x;
    q.arrival = arrival_with(q.arrival, old, x, id);
    q.waiting = waiting_with(q.waiting, old, x, id);
    q
}

// How many there are with this one among them.
pub fn counted(n: u8, id: u32) -> u8
    ensures { result ≡ max n (in_byte id) }
{
    n.max(narrow(id))
}

// Process id is created with this record.
pub fn create(p: Partition, id: u32, x: Process) -> Partition
    ensures { result ≡ created id x p }
{
    let i = slot(id, Module::PROCESSES);
    if Module::PROCESSES <= i {
        return p;
    }
    let mut q = p;
    q.processes[i] = x;
    q.process_count = counted(p.process_count, id);
    q
}

// Buffer k is created, with nothing in it.
pub fn create_buffer(p: Partition, k: u32, name: u16, limit: u8) -> Partition
    ensures { result ≡ stored_buffer k (empty_buffer name limit) p }
{
    let i = slot(k, Module::BUFFERS);
    if Module::BUFFERS <= i {
        return p;
    }
    let mut q = p;
    q.buffers[i] = Buffer {
        name,
        limit,
        ..Buffer::blank()
    };
    q.buffer_count = counted(p.buffer_count, k);
    q
}

// ---------------------------------------------------------------- many records stored
// The wait of a process ends with wake code 0; where one is handed over, the message stays in its record.
fn serve(x: Process, hands: bool, m: u32) -> Process
    ensures { result ≡ served_with hands m x }
{
    if hands {
        process::hand(x, m)
    } else {
        process::wait_ended(x, 0)
    }
}

// The wait of process id ends.
fn end_wait(p: Partition, id: u8, hands: bool, m: u32) -> Partition
    ensures { result ≡ stored id (served_with hands m (process id p)) p }
{
    store(p, u32::from(id), serve(record_in(&p, id), hands, m))
}

// The waits of these processes end, one after the other.
fn end_waits(p: Partition, ids: Ids, hands: bool, m: u32) -> Partition
    ensures { result ≡ changed_all (served_with hands m) (members ids) p }
{
    let mut q = p;
    for id in arrays::held(&ids.items, ids.len) {
        q = end_wait(q, *id, hands, m);
    }
    q
}

// The waits of the queue of an object end.
pub fn end_queue(p: Partition, object: u16, hands: bool, m: u32) -> Partition
    ensures { result ≡ changed_all (served_with hands m) (waiters object p) p }
{
    end_waits(p, queue_of(p, object), hands, m)
}

// The waits of the first n of the queue of an object end with wake code 0.
pub fn let_in(p: Partition, object: u16, n: u8) -> Partition
    ensures { result ≡ changed_all served (take n (waiters object p)) p }
{
    end_waits(p, first_waiters(p, object, n), false, 0)
}

// The process whose wait a transfer ends, 0 for none.
pub fn ended_id(a: Transfer) -> u32
    ensures { result ≡ ended_id a }
{
    match a {
        Transfer::HandedTo(id, _) | Transfer::LetIn(id, _) => u32::from(id),
        Transfer::Put(_) | Transfer::Taken => 0,
    }
}

// Its record then.
pub fn ended_as(x: Process, a: Transfer) -> Process
    ensures { result ≡ ended_as a x }
{
    match a {
        Transfer::HandedTo(_, m) => process::hand(x, m),
        Transfer::LetIn(..) => process::wait_ended(x, 0),
        Transfer::Put(_) | Transfer::Taken => x,
    }
}

// The partition of those who wait after a transfer.
pub fn after_transfer(p: Partition, a: Transfer) -> Partition
    ensures { result ≡ ended_by a p }
{
    let id = ended_id(a);
    store(p, id, ended_as(process_at(p, id), a))
}

// Whether a wake time or a deadline has come.
fn is_touched(x: Process, t: u32) -> bool
    ensures { result ≡ (due t x.times.wake || due t x.times.deadline) }
{
    process::is_due(x.times.wake, t) || process::is_due(x.times.deadline, t)
}

// A tick of a partition.
pub fn ticked(p: Partition, t: u32) -> Partition
    ensures { result ≡ tick_partition t p }
{
    if !p.mode.is_normal() {
        return p;
    }
    let mut q = p;
    for k in 0..p.process_count {
        // Read in place and not by `by_id`: where q is lent, each tick copies the partition twice more, which misses the time of a line.
        let i = usize::from(k);
        let mut x = Process::blank();
        if i < Module::PROCESSES {
            x = q.processes[i];
        }
        if is_touched(x, t) {
            q = store(q, u32::from(k + 1), process::tick(x, t));
        }
    }
    q
}

// Process id enters NORMAL.
fn enter_process(p: Partition, c: Context, id: u32) -> Partition
    ensures { result ≡ stored id (entered c (process id p)) p }
{
    store(p, id, process::enter(process_at(p, id), c))
}

pub fn enter_normal(p: Partition, c: Context) -> Partition
    ensures { result ≡ entered_normal c p }
{
    let mut q = Partition {
        mode: Mode::Normal,
        level: 0,
        holder: 0,
        ..p
    };
    for k in 0..p.process_count {
        q = enter_process(q, c, u32::from(k + 1));
    }
    q
}

// A partition with nothing created, in the mode of this number (a `Mode` would ask more of callers).
#[tactic(auto, unfolding(machine::specs::Partition::empty_partition))]
pub fn nothing_created(mode: u8) -> Partition
    ensures { result ≡ nothing_created mode }
{
    Partition {
        mode: Mode::numbered(u32::from(mode)),
        ..Partition::empty()
    }
}

#[cfg(test)]
mod tests {
    use super::*;

    // Closures that choose from a list of three and from an empty one.
    #[test]
    fn closures_choose(rt: HostRuntime) {
        let none = Ids {
            items: [0; Module::PROCESSES],
            len: 0,
        };
        let three = append(append(append(none, 4), 2), 7);

        let even = keep(three, |id| id % 2 == 0);
        assert_eq!(rt; even.len, 2);
        assert_eq!(rt; even.items[0], 4);
        assert_eq!(rt; even.items[1], 2);
        assert_eq!(rt; even.items[2], 0);
        assert_eq!(rt; keep(none, |id| id % 2 == 0).len, 0);

        assert_eq!(rt; first_where(three, |id| id < 4), 2);
        assert_eq!(rt; first_where(three, |id| 7 < id), 0, "none passes");
        assert_eq!(rt; first_where(none, |id| id < 4), 0, "an empty list");

        assert_eq!(rt; greatest(three, |id| id), 7);
        assert_eq!(rt;
            greatest(three, |id| if id == 7 { 1 } else { 5 }),
            4,
            "the first among equals"
        );
        assert_eq!(rt; greatest(none, |id| id), 0, "an empty list");
    }
}
