// The executive: a module that comes only from table reading and from events.
#![tactic(auto)]

ghost use Rattle.std.specs.Prelude.{◌≡◌, ◌+◌, ◌-◌, ◌≤◌, length, false, List, ℕ};
ghost use Rattle.std.proofs.lemmas.List.Edits.{sets};
ghost use Rattle.machine.specs.Limits.{process_limit};
ghost use Rattle.machine.specs.Partition.{nothing_created, process, applied, stored, created, stored_buffer, empty_buffer, changed_all, waiters, entered_normal, running};
ghost use Rattle.partition.specs.Waits.{served_with};
ghost use Rattle.machine.specs.Mode.{mode_number};
ghost use Rattle.machine.specs.Module.{channel, message};
ghost use Rattle.machine.specs.Channels.{port_at, traffic_at};
ghost use Rattle.machine.specs.Step.{restarted, step};
ghost use Rattle.machine.specs.Replay.{answer_numbers, unread};
ghost use Rattle.machine.specs.Table.{read_table};
ghost use Rattle.machine.specs.Windows.{waited, waiting_of};
ghost use Rattle.events.specs.Plans.{no_answer};
ghost use Rattle.resident.specs.Mirrors.{Mirrors};
ghost use Rattle.resident.specs.Settled.{settled};
ghost use Rattle.machine.specs.Fields.{number_of};
ghost use Rattle.decisions.specs.Views.{Shows};
ghost use Rattle.services.specs.Looked.{taken_for, waiter_for};
ghost use Rattle.executive.specs.Executive.{turned, opened};
ghost use Rattle.executive.specs.Places.{HasPlaces};
ghost use Rattle.executive.specs.Lists.{six, event_at, after_list, answered_list, last_answer, events_in};

use decisions::View;
use machine::{
    Answer, Buffer, Change, Channel, Context, Decision, Event, Field, Mode, Module, Partition,
    Port, Process, Refusal, Request, Traffic,
};

#[derive(Clone, Copy)]
pub struct Executive {
    inner: Module,
}

// What an event gives: the executive after it, and its answer.
#[derive(Clone, Copy)]
pub struct Turn {
    pub executive: Executive,
    pub answer: Answer,
}

// What reading a table gives: the executive, or an empty one with 11 or 12 and the line's number; and how many lines it took. It is no Result,
// since `opened` gives executive and lines where it is refused too.
#[derive(Clone, Copy)]
pub struct Opening {
    pub executive: Executive,
    pub code: u8,
    pub value: u32,
    pub lines: u32,
}

// ---------------------------------------------------------------- a restart
// Partition k is restarted in this mode: nothing is created, the messages on channels into it are erased, and the queues into it filled anew.
fn restart(m: Module, k: u32, mode: Mode) -> Module
    ensures { result ≡ restarted k (nothing_created (mode_number mode)) m }
{
    let mut r = m;
    channels::erase_into(&mut r.messages, r.table, k);
    let slot = k.saturating_sub(1) as usize;
    if slot < Module::PARTITIONS {
        r.partitions[slot] = partition::nothing_created(mode.number());
    }
    queuing::refill(r, k)
}

// ---------------------------------------------------------------- the lent list
// The numbers of an event, and of its answer.
const SIX: usize = 6;

fn event_at(list: &[i64], at: usize) -> Event
    requires { at + six ≤ length list.now }
    ensures { result ≡ event_at list.now at }
{
    Event {
        partition: list[at],
        call: list[at + 1],
        a: list[at + 2],
        b: list[at + 3],
        c: list[at + 4],
        e: list[at + 5],
    }
}

// Stores code, value, extra, t, current, running.
fn put_answer(list: &mut [i64], at: usize, a: Answer)
    requires { at + six ≤ length list.old }
    ensures { list.new ≡ sets list.old at (answer_numbers a) }
{
    list[at] = a.code as i64;
    list[at + 1] = a.value as i64;
    list[at + 2] = machine::time_number(a.extra);
    list[at + 3] = a.t as i64;
    list[at + 4] = a.current as i64;
    list[at + 5] = a.running as i64;
}

// The partition that lies in place, and beside it the current priority of each of its processes and the object that each waits for, which are lent
// without a copy.
#[derive(Clone, Copy)]
struct Resident {
    partition: Partition,
    currents: [u8; Module::PROCESSES],
    objects: [u16; Module::PROCESSES],
}

impl Resident {
    // Stores a process's record: both lists and the numbers beside it follow.
    fn store(&mut self, id: u32, x: Process)
        ensures stored { self.new.partition ≡ stored id x self.old.partition }
        ensures beside { Mirrors self.old.partition self.old.currents self.old.objects → Mirrors self.new.partition self.new.currents self.new.objects }
    {
        let k = partition::slot(id, Module::PROCESSES);
        if k < Module::PROCESSES {
            let old = self.partition.processes[k];
            self.partition.processes[k] = x;
            self.partition.arrival = partition::arrival_with(self.partition.arrival, old, x, id);
            self.partition.waiting = partition::waiting_with(self.partition.waiting, old, x, id);
            self.currents[k] = x.current;
            self.objects[k] = resident::object_of(x);
        }
    }

    // A process's record, read where it lies: by `process_at` each message would copy the partition.
    fn process(&self, id: u32) -> Process
        ensures { result ≡ process id self.now.partition }
    {
        partition::by_id(&self.partition.processes, id, Process::blank())
    }

    // Four changes that give a whole partition, which is copied. Each is a function of its own: a function pays at its entry for all that it
    // holds, and `change` would do so at every event.
    fn create(&mut self, id: u32, x: Process)
        ensures { self.new.partition ≡ created id x self.old.partition }
    {
        self.partition = partition::create(self.partition, id, x);
    }

    fn create_buffer(&mut self, id: u32, name: u16, limit: u8)
        ensures made { self.new.partition ≡ stored_buffer id (empty_buffer name limit) self.old.partition }
        ensures beside { Mirrors self.old.partition self.old.currents self.old.objects → Mirrors self.new.partition self.new.currents self.new.objects }
    {
        self.partition = partition::create_buffer(self.partition, id, name, limit);
    }

    fn end_queue(&mut self, object: u16, hands: bool, m: u32)
        ensures { self.new.partition ≡ changed_all (served_with hands m) (waiters object self.old.partition) self.old.partition }
    {
        self.partition = partition::end_queue(self.partition, object, hands, m);
    }

    fn enter_normal(&mut self, c: Context)
        ensures { self.new.partition ≡ entered_normal c self.old.partition }
    {
        self.partition = partition::enter_normal(self.partition, c);
    }

    // One change. The numbers follow where one process is stored; they have to be filled anew where the result is true.
    fn change(&mut self, change: Change) -> bool
        ensures made { self.new.partition ≡ applied change self.old.partition }
        ensures beside { result ≡ false → Mirrors self.old.partition self.old.currents self.old.objects → Mirrors self.new.partition self.new.currents self.new.objects }
    {
        match change {
            Change::Nothing => {}
            Change::Stored(id, y) => self.store(id, y),
            Change::Created(id, y) => {
                self.create(id, y);
                return true;
            }
            Change::Last(id) => self.partition.arrival = partition::last_in(
                self.partition.arrival,
                id,
            ),
            Change::StoredSemaphore(id, y) => {
                let k = partition::slot(id, Module::SEMAPHORES);
                if k < Module::SEMAPHORES {
                    self.partition.semaphores[k] = y;
                    self.partition.semaphore_count = partition::counted(
                        self.partition.semaphore_count,
                        id,
                    );
                }
            }
            Change::StoredEvent(id, y) => {
                let k = partition::slot(id, Module::EVENTS);
                if k < Module::EVENTS {
                    self.partition.events[k] = y;
                    self.partition.event_count = partition::counted(self.partition.event_count, id);
                }
            }
            Change::CreatedBuffer(id, name, limit) => {
                self.create_buffer(id, name, limit);
            }
            Change::Moved(id, y) => {
                let k = partition::slot(id, Module::BUFFERS);
                if k < Module::BUFFERS {
                    let mut v = self.partition.buffers[k];
                    v.queue = messages::change(v.queue, y);
                    self.partition.buffers[k] = v;
                    self.partition.buffer_count = partition::counted(
                        self.partition.buffer_count,
                        id,
                    );
                }
                let other = partition::ended_id(y);
                let old = self.process(other);
                let ended = partition::ended_as(old, y);
                self.store(other, ended);
            }
            Change::StoredBlackboard(id, y) => {
                let k = partition::slot(id, Module::BLACKBOARDS);
                if k < Module::BLACKBOARDS {
                    self.partition.blackboards[k] = y;
                    self.partition.blackboard_count = partition::counted(
                        self.partition.blackboard_count,
                        id,
                    );
                }
            }
            Change::Ended(o) => {
                self.end_queue(o, false, 0);
                return true;
            }
            Change::Handed(o, y) => {
                self.end_queue(o, true, y);
                return true;
            }
            Change::LevelSet(level, holder) => {
                self.partition.level = level;
                self.partition.holder = holder;
            }
            Change::Entered(y) => {
                self.enter_normal(y);
                return true;
            }
        }
        false
    }

    // Two changes, one after the other.
    fn change_twice(&mut self, first: Change, second: Change) -> bool
        ensures made { self.new.partition ≡ applied second (applied first self.old.partition) }
        ensures beside { result ≡ false → Mirrors self.old.partition self.old.currents self.old.objects → Mirrors self.new.partition self.new.currents self.new.objects }
    {
        if self.change(first) {
            self.change(second);
            return true;
        }
        self.change(second)
    }

    // The numbers, read off the records.
    fn refresh(&mut self)
        ensures partition { self.new.partition ≡ self.old.partition }
        ensures beside { Mirrors self.new.partition self.new.currents self.new.objects }
    {
        resident::fill(self.partition, &mut self.currents, &mut self.objects);
    }

    // The running process, by the numbers.
    fn running(&self) -> u8
        ensures { Mirrors self.now.partition self.now.currents self.now.objects → result ≡ running self.now.partition }
    {
        let p = &self.partition;
        resident::running(
            p.mode.number(),
            p.level,
            p.holder,
            p.arrival,
            &self.currents,
        )
    }
}

// What a call sees of the partition that lies in place, by its number and its field a.
fn view_of(here: &Resident, context: Context, call: u32, a: Field) -> View
    ensures context { result.context ≡ context }
    ensures shows { Shows result (number_of a) here.now.partition }
    ensures taken { result.taken ≡ taken_for call a here.now.partition }
    ensures waiter { Mirrors here.now.partition here.now.currents here.now.objects → result.waiter ≡ waiter_for call (number_of a) here.now.partition }
{
    let p = &here.partition;
    let id = fields::number_of(a);
    let object = services::object_for(call, id);
    let waiter = if object == 0 {
        0
    } else {
        resident::first_on(p.waiting, &here.objects, object)
    };
    let buffer = partition::by_id(&p.buffers, id, Buffer::blank());
    View {
        context,
        mode: p.mode,
        level: p.level,
        holder: p.holder,
        count: p.process_count,
        semaphores: p.semaphore_count,
        events: p.event_count,
        buffers: p.buffer_count,
        blackboards: p.blackboard_count,
        taken: services::does_create(call) && services::is_taken(*p, call, a),
        named: partition::by_id(&p.processes, id, Process::blank()),
        calling: partition::by_id(&p.processes, context.caller as u32, Process::blank()),
        semaphore: partition::by_id(&p.semaphores, id, objects::no_semaphore()),
        event: partition::by_id(&p.events, id, objects::no_event()),
        limit: buffer.limit,
        len: buffer.queue.len,
        first: messages::first_of(buffer.queue),
        blackboard: partition::by_id(&p.blackboards, id, blackboards::empty_blackboard(0)),
        waiter,
        served: partition::by_id(&p.processes, waiter as u32, Process::blank()),
    }
}

// What partition `own` sees of the traffic of the channel at a place, where the partition at this spot of the module lies here.
fn traffic_for(
    m: &Module,
    here: &Partition,
    spot: usize,
    own: u32,
    place: usize,
    line: Channel,
) -> Traffic
    requires { HasPlaces m.now }
    ensures { line ≡ channel m.now.table place → result ≡ traffic_at (settled spot here.now m.now) own place }
{
    let Some(seen) = queuing::seen_slot(m.table.channel_count, line, own, place) else {
        return queuing::no_traffic();
    };
    let Some(queue) = m.queues.get(place) else {
        return queuing::no_traffic();
    };
    let object = queuing::other_object(line, own, place);
    if seen == spot {
        queuing::traffic_of(*queue, object, *here)
    } else {
        queuing::traffic_of(*queue, object, m.partitions[seen])
    }
}

// What partition `own` sees of the channel that field a names.
fn port_of(m: &Module, here: &Partition, spot: usize, own: u32, a: Field) -> Port
    requires { HasPlaces m.now }
    ensures { result ≡ port_at m.now.table own a (message m.now (number_of a - 1)) (traffic_at (settled spot here.now m.now) own (number_of a - 1)) }
{
    let place = channels::place_of(a) as usize;
    let line = m
        .table
        .channels
        .get(place)
        .copied()
        .unwrap_or(channels::no_channel());
    let held = m.messages.get(place).copied().unwrap_or(None);
    let traffic = traffic_for(m, here, spot, own, place, line);
    channels::port_at(m.table.channel_count, line, own, a, held, traffic)
}

impl Executive {
    // Reads a table at the front of an input.
    pub fn open(input: &[u8]) -> Opening
        ensures { result ≡ opened (read_table input.now) }
    {
        let r = table::read(input);
        let inner = r.state;
        Opening {
            executive: Executive { inner },
            code: r.code,
            value: r.value,
            lines: r.lines,
        }
    }

    // The loop: the events of a lent list, six numbers each, in order; the six of an answer take their place. The module lies in one
    // local and changes where it lies. It gives the last answer too.
    fn run_list(self, list: &mut [i64]) -> Turn
        ensures { (result.executive.inner ≡ after_list self.inner list.old) × (result.answer ≡ last_answer self.inner no_answer (events_in list.old)) × (list.new ≡ answered_list self.inner list.old) }
    {
        let mut m = self.inner;
        let table = m.table;
        let mut last = events::no_answer();
        let n = list.len() / SIX;
        let mut window = windows::lookup_at(table, m.t);
        let mut spot = Module::PARTITIONS;
        let mut here = Resident {
            partition: Partition::empty(),
            currents: [0; Module::PROCESSES],
            objects: [0; Module::PROCESSES],
        };
        let mut run: u8 = 0;
        let mut soon = [0u32; Module::PARTITIONS];
        for i in 0..n {
            let at = i * SIX;
            let asked = Request::from(event_at(list, at));
            let first = places::place_event(table.size, m.t, asked);
            if first.time != m.t {
                window = windows::lookup_at(table, first.time);
            }
            let x = events::plan_of(table.size, asked, first, window);
            m.t = x.time;
            let mut stale = false;
            for j in 0..x.ticks {
                if soon[j] <= m.t {
                    if j == spot {
                        here.partition = partition::ticked(here.partition, m.t);
                        soon[j] = partition::soonest_of(here.partition);
                        stale = true;
                    } else {
                        let p = m.partitions[j];
                        let q = partition::ticked(p, m.t);
                        m.partitions[j] = q;
                        soon[j] = partition::soonest_of(q);
                    }
                }
            }
            if x.spot != spot {
                if spot < Module::PARTITIONS {
                    m.partitions[spot] = here.partition;
                }
                spot = x.spot;
                if spot < Module::PARTITIONS {
                    here.partition = m.partitions[spot];
                }
                stale = true;
            }
            if stale {
                here.refresh();
                run = here.running();
            }
            let mut d = Decision::Refused(x.code);
            let slot = x.slot;
            if slot < Module::PARTITIONS {
                let request = x.request;
                let context = Context {
                    time: m.t,
                    frame: table.frame,
                    left: x.left,
                    release: events::release_for(table, m.t, x.own, x.call),
                    caller: run,
                };
                let view = view_of(&here, context, x.call, request.a);
                let port = port_of(&m, &here.partition, spot, x.own, request.a);
                d = services::call(view, port, x.call, request);
            }
            let reply = decisions::reply_of(d);
            let mut changed = false;
            stale = false;
            match d {
                Decision::Refused(_) | Decision::Unchanged(_, _) | Decision::Ticked => {}
                Decision::Blocked(id, y) => {
                    let change = Change::Stored(id as u32, y);
                    stale = here.change(change);
                    soon[slot] = 0;
                    changed = true;
                }
                Decision::Changed(first, second, _) => {
                    stale = here.change_twice(first, second);
                    soon[x.slot] = 0;
                    changed = true;
                }
                Decision::Restarted(mode) => {
                    m = restart(m, x.own, mode);
                    here.partition = m.partitions[slot];
                    soon = [0; Module::PARTITIONS];
                    stale = true;
                    changed = true;
                }
                Decision::Written(place, message) => {
                    let put = place as usize;
                    if put < Module::CHANNELS {
                        m.messages[put] = Some(message);
                    }
                }
                Decision::Passed(place, transfer, _) => {
                    let pass = place as usize;
                    if pass < Module::CHANNELS {
                        m.queues[pass] = messages::change(m.queues[pass], transfer);
                        let end = queuing::ended_slot(table, x.own, pass, transfer);
                        if end < Module::PARTITIONS {
                            soon[end] = 0;
                            if end == spot {
                                here.partition = partition::after_transfer(
                                    here.partition,
                                    transfer,
                                );
                                stale = true;
                                changed = true;
                            } else {
                                let p = m.partitions[end];
                                let after = partition::after_transfer(p, transfer);
                                m.partitions[end] = after;
                            }
                        }
                    }
                }
            }
            if stale {
                here.refresh();
            }
            if changed {
                run = here.running();
            }
            let mut running: u8 = 0;
            if x.shown < Module::PARTITIONS {
                running = run;
            }
            last = events::answer_of(reply, m.t, x.current, running);
            put_answer(list, at, last);
        }
        if spot < Module::PARTITIONS {
            m.partitions[spot] = here.partition;
        }
        let executive = Executive { inner: m };
        Turn {
            executive,
            answer: last,
        }
    }

    // The events of a lent list, six numbers each, in order; the six of an answer take their place.
    pub fn run(self, list: &mut [i64]) -> Executive
        ensures { (result.inner ≡ after_list self.inner list.old) × (list.new ≡ answered_list self.inner list.old) }
    {
        let r = self.run_list(list);
        r.executive
    }

    // One event.
    pub fn step(self, event: Event) -> Turn
        ensures { result ≡ turned (step self.inner event) }
    {
        let mut list = [
            event.partition,
            event.call,
            event.a,
            event.b,
            event.c,
            event.e,
        ];
        self.run_list(&mut list)
    }

    // The whole record.
    pub fn module(self) -> Module
        ensures { result ≡ self.inner }
    {
        self.inner
    }

    // The answer to a line that is no event: 11. It steps nothing.
    pub fn unread(self) -> Answer
        ensures { result ≡ unread self.inner }
    {
        let m = self.inner;
        let table = m.table;
        let now = windows::lookup_at(table, m.t);
        Answer {
            code: Refusal::BadLine.code(),
            value: 0,
            extra: Some(0),
            t: m.t,
            current: now.partition,
            running: 0,
        }
    }

    // The waiting time from t on of a partition.
    pub fn waiting_time(self, t: i64, k: i64) -> Result<u32, Refusal>
        ensures { waited result ≡ waiting_of self.inner.table t k }
    {
        windows::waiting_time(self.inner.table, t, k)
    }
}
