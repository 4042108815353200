// Numbers kept beside the partition that the loop holds: the current priority of each process, and the object that each waits for. A function
// is lent them without a copy. Two arrays and not one of pairs: `Mirrors` speaks of each by itself, and a function reads one of them alone.
#![tactic(auto)]

ghost use Rattle.std.specs.Prelude.{◌≡◌, length};
ghost use Rattle.machine.specs.Limits.{process_limit};
ghost use Rattle.machine.specs.Ids.{ids_of};
ghost use Rattle.machine.specs.Partition.{by_id};
ghost use Rattle.resident.specs.Mirrors.{current_of, object_of, filled, is_on, queue_on, first_on, running_by};

use lists::{Priority, Test};
use machine::{Ids, Module, Partition, Process};

// The object that a process waits for, 0 for none.
pub fn object_of(x: Process) -> u16
    ensures { result ≡ object_of x }
{
    process::object_of(x.wait)
}

// The current priority of process id, and the object that it waits for; 0 for none.
fn priority_of(currents: &[u8; Module::PROCESSES], id: u8) -> u8
    ensures { result ≡ by_id process_limit 0 id currents.now }
{
    partition::by_id(currents, u32::from(id), 0)
}

fn waited_for(objects: &[u16; Module::PROCESSES], id: u8) -> u16
    ensures { result ≡ by_id process_limit 0 id objects.now }
{
    partition::by_id(objects, u32::from(id), 0)
}

fn is_on(objects: &[u16; Module::PROCESSES], id: u8, object: u64) -> bool
    ensures { result ≡ is_on object objects.now id }
{
    u64::from(waited_for(objects, id)) == object
}

// The priorities, by the numbers.
#[derive(Clone, Copy)]
struct Current;

impl Priority<[u8; Module::PROCESSES]> for Current {
    ghost priority = { λ s l id. by_id process_limit 0 id l };

    fn priority(self, known: &[u8; Module::PROCESSES], id: u8) -> u8 {
        priority_of(known, id)
    }
}

// Whether a process waits for an object, by the numbers.
#[derive(Clone, Copy)]
struct WaitsOn {
    object: u64,
}

impl Test<[u16; Module::PROCESSES]> for WaitsOn {
    ghost passes = { λ s. is_on s.object };

    fn passes(self, known: &[u16; Module::PROCESSES], id: u8) -> bool {
        is_on(known, id, self.object)
    }
}

// The running process of a partition in the mode of this number, with this lock and this arrival list. While preemption is locked, the holder.
// By number: a `Mode` would ask more of callers, who may give any.
pub fn running(
    mode: u8,
    level: u8,
    holder: u8,
    arrival: Ids,
    currents: &[u8; Module::PROCESSES],
) -> u8
    ensures { result ≡ running_by mode level holder arrival currents.now }
{
    if mode != 3 {
        return 0;
    }
    if 0 < level {
        return holder;
    }
    lists::greatest(arrival, currents, Current)
}

// The first of the queue of an object, 0 for none.
pub fn first_on(waiting: Ids, objects: &[u16; Module::PROCESSES], object: u64) -> u8
    ensures { result ≡ first_on object waiting objects.now }
{
    lists::first_where(waiting, objects, WaitsOn { object })
}

// The queue of an object.
pub fn queue_on(waiting: Ids, objects: &[u16; Module::PROCESSES], object: u64) -> Ids
    ensures { result ≡ ids_of (queue_on object waiting objects.now) }
{
    lists::keep(waiting, objects, WaitsOn { object })
}

// The numbers of a partition's processes.
pub fn fill(
    p: Partition,
    currents: &mut [u8; Module::PROCESSES],
    objects: &mut [u16; Module::PROCESSES],
)
    ensures { (length p.processes ≡ process_limit) × (currents.new ≡ filled current_of p.processes currents.old) × (objects.new ≡ filled object_of p.processes objects.old) }
{
    for i in 0..Module::PROCESSES {
        let x = p.processes[i];
        currents[i] = x.current;
        objects[i] = object_of(x);
    }
}
