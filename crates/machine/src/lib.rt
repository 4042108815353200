// The record of the executive, by value, and every limit, named once with the module.
#![tactic(auto)]

ghost use Rattle.std.specs.Prelude.{◌≡◌, eqb, replicate};
ghost use Rattle.machine.specs.Mode.{mode_number, mode_numbered};
ghost use Rattle.machine.specs.Refusals.{code};
ghost use Rattle.machine.specs.Limits.{channel_limit, partition_limit};
ghost use Rattle.machine.specs.Messages.{no_queue};
ghost use Rattle.machine.specs.Decisions.{no_message};
ghost use Rattle.machine.specs.Process.{blank_process};
ghost use Rattle.machine.specs.Partition.{no_buffer, fresh_partition, empty_partition};
ghost use Rattle.machine.specs.Module.{empty_table, fresh_module, empty_module};

mod conversions;
mod lines;

pub use lines::time_number;

// A time in ticks; −1 of document 01, which is never, is None.
pub type Time = Option<u32>;

// What a process waits for, with the id of the object. Sending and Receiving are on a buffer, Source and Destination at that end of a queuing
// channel; a sender's message is kept with its wait.
#[derive(Clone, Copy)]
pub enum Wait {
    None,
    Normal,
    Delay,
    Timed,
    Period,
    Semaphore(u8),
    Event(u8),
    Sending(u8, u32),
    Receiving(u8),
    Blackboard(u8),
    Source(u8, u32),
    Destination(u8),
}

// What CREATE_PROCESS gives; it never changes.
#[derive(Clone, Copy)]
pub struct Given {
    pub name: u16,
    pub base: u8,
    pub period: Time,
    pub capacity: Time,
}

#[derive(Clone, Copy)]
pub struct Times {
    pub release: Time,
    pub deadline: Time,
    pub wake: Time,
    pub delay: u32,
}

// DORMANT is: not started. message: the one that was last handed over to it.
#[derive(Clone, Copy)]
pub struct Process {
    pub given: Given,
    pub times: Times,
    pub current: u8,
    pub suspended: bool,
    pub missed: bool,
    pub code: u8,
    pub message: u32,
    pub started: bool,
    pub wait: Wait,
}

// Process ids in order; what lies past len is 0. An array with its length, as in a queue and a table: there is no heap.
#[derive(Clone, Copy)]
pub struct Ids {
    pub items: [u8; Module::PROCESSES],
    pub len: u8,
}

#[derive(Clone, Copy)]
pub struct Semaphore {
    pub name: u16,
    pub value: u16,
    pub max: u16,
}

// An event of a partition (CREATE_EVENT).
#[derive(Clone, Copy)]
pub struct EventState {
    pub name: u16,
    pub up: bool,
}

// Messages, first in first out; what lies past len is 0.
#[derive(Clone, Copy)]
pub struct Queue {
    pub items: [u32; Module::MESSAGES],
    pub len: u8,
}

#[derive(Clone, Copy)]
pub struct Buffer {
    pub name: u16,
    pub limit: u8,
    pub queue: Queue,
}

#[derive(Clone, Copy)]
pub struct Blackboard {
    pub name: u16,
    pub message: Option<u32>,
}

// The mode of a partition: IDLE 0, COLD_START 1, WARM_START 2, NORMAL 3.
#[derive(Clone, Copy, Debug, PartialEq, Eq)]
pub enum Mode {
    Idle,
    ColdStart,
    WarmStart,
    Normal,
}

impl Mode {
    pub fn number(self) -> u8
        ensures { result ≡ mode_number self }
    {
        match self {
            Mode::Idle => 0,
            Mode::ColdStart => 1,
            Mode::WarmStart => 2,
            Mode::Normal => 3,
        }
    }

    pub fn is_idle(self) -> bool
        ensures { result ≡ eqb (mode_number self) 0 }
    {
        self == Mode::Idle
    }

    pub fn is_normal(self) -> bool
        ensures { result ≡ eqb (mode_number self) 3 }
    {
        self == Mode::Normal
    }

    // A number that no mode has gives a start mode, which runs nothing.
    pub fn numbered(n: u32) -> Mode
        ensures { result ≡ mode_numbered n }
    {
        match n {
            0 => Mode::Idle,
            1 => Mode::ColdStart,
            3 => Mode::Normal,
            _ => Mode::WarmStart,
        }
    }
}

// level: that of the preemption lock; holder: the process that raised it from 0, 0 at level 0. arrival: the READY processes. waiting: those
// that wait on an object, in the order in which they began; the queue of an object is the part of it that waits for this object.
#[derive(Clone, Copy)]
pub struct Partition {
    pub mode: Mode,
    pub level: u8,
    pub holder: u8,
    pub processes: [Process; Module::PROCESSES],
    pub process_count: u8,
    pub semaphores: [Semaphore; Module::SEMAPHORES],
    pub semaphore_count: u8,
    pub events: [EventState; Module::EVENTS],
    pub event_count: u8,
    pub buffers: [Buffer; Module::BUFFERS],
    pub buffer_count: u8,
    pub blackboards: [Blackboard; Module::BLACKBOARDS],
    pub blackboard_count: u8,
    pub arrival: Ids,
    pub waiting: Ids,
}

#[derive(Clone, Copy)]
pub struct Window {
    pub start: u16,
    pub duration: u16,
    pub partition: u8,
    pub flag: bool,
}

// size: how many messages a queuing channel holds at most; 0 for a sampling one.
#[derive(Clone, Copy)]
pub struct Channel {
    pub source: u8,
    pub destination: u8,
    pub refresh: u32,
    pub size: u8,
}

// What reading a table gives; no event changes it. frame: M; size: P.
#[derive(Clone, Copy)]
pub struct Table {
    pub frame: u16,
    pub size: u8,
    pub windows: [Window; Module::WINDOWS],
    pub window_count: u8,
    pub channels: [Channel; Module::CHANNELS],
    pub channel_count: u8,
}

// The message on a sampling channel, and when it was written.
#[derive(Clone, Copy)]
pub struct Message {
    pub value: u32,
    pub written: u32,
}

#[derive(Clone, Copy)]
pub struct Module {
    pub table: Table,
    pub t: u32,
    pub messages: [Option<Message>; Module::CHANNELS],
    pub queues: [Queue; Module::CHANNELS],
    pub partitions: [Partition; Module::PARTITIONS],
}

// An event: six numbers, each any i64.
#[derive(Clone, Copy)]
pub struct Event {
    pub partition: i64,
    pub call: i64,
    pub a: i64,
    pub b: i64,
    pub c: i64,
    pub e: i64,
}

// The six numbers of a line.
#[derive(Clone, Copy)]
pub struct Numbers {
    pub n1: i64,
    pub n2: i64,
    pub n3: i64,
    pub n4: i64,
    pub n5: i64,
    pub n6: i64,
}

// What a line holds: six numbers, or it is refused (11): the form that document 01 names, and no Option.
#[derive(Clone, Copy)]
pub enum Line {
    Six(Numbers),
    Bad,
}

// A number as the rules look at it: from 0 on, −1, or one that no rule admits (below −1, or past 32 bits).
#[derive(Clone, Copy)]
pub enum Field {
    Number(u32),
    MinusOne,
    Other,
}

// The six numbers of a line of a table, so looked at.
#[derive(Clone, Copy)]
pub struct Row {
    pub f1: Field,
    pub f2: Field,
    pub f3: Field,
    pub f4: Field,
    pub f5: Field,
    pub f6: Field,
}

// The six numbers of an event, so looked at.
#[derive(Clone, Copy)]
pub struct Request {
    pub partition: Field,
    pub call: Field,
    pub a: Field,
    pub b: Field,
    pub c: Field,
    pub e: Field,
}

// Why an event, a line or a table is refused. An answer has the number of it.
#[derive(Clone, Copy, Debug, PartialEq, Eq)]
pub enum Refusal {
    NoAction,
    NotAvailable,
    InvalidParameter,
    NoRoom,
    InvalidMode,
    NotCurrent,
    NoCaller,
    TimeEnded,
    BadLine,
    BadTable,
    Malformed,
}

impl Refusal {
    // The number that document 01 gives it.
    pub fn code(self) -> u8
        ensures { result ≡ code self }
    {
        match self {
            Refusal::NoAction => 1,
            Refusal::NotAvailable => 2,
            Refusal::InvalidParameter => 3,
            Refusal::NoRoom => 4,
            Refusal::InvalidMode => 5,
            Refusal::NotCurrent => 8,
            Refusal::NoCaller => 9,
            Refusal::TimeEnded => 10,
            Refusal::BadLine => 11,
            Refusal::BadTable => 12,
            Refusal::Malformed => 13,
        }
    }
}

// The first three numbers of an answer. The code is a number here and in an answer: 0 and 7 are no refusals, and the claims say each number.
#[derive(Clone, Copy)]
pub struct Reply {
    pub code: u8,
    pub value: u32,
    pub extra: Time,
}

#[derive(Clone, Copy)]
pub struct Answer {
    pub code: u8,
    pub value: u32,
    pub extra: Time,
    pub t: u32,
    pub current: u8,
    pub running: u8,
}

// An event with its answer.
#[derive(Clone, Copy)]
pub struct EventRecord {
    pub event: Event,
    pub answer: Answer,
}

// What the window lookup gives: the current partition, 0 if none, and the ticks until its window ends, or until the next start.
#[derive(Clone, Copy)]
pub struct Lookup {
    pub partition: u8,
    pub left: u32,
}

// What a call sees besides its partition's record: time, M, the ticks left in the window, the next release point of the partition, and
// the caller.
#[derive(Clone, Copy)]
pub struct Context {
    pub time: u32,
    pub frame: u16,
    pub left: u32,
    pub release: u32,
    pub caller: u8,
}

// What a call sees of a queuing channel: how many messages it holds, and the first; the first process that waits at the other end, 0 for
// none, and the message that is kept with its wait.
#[derive(Clone, Copy)]
pub struct Traffic {
    pub len: u8,
    pub first: u32,
    pub waiter: u8,
    pub carried: u32,
}

// What a call sees of the channel that field a names: its place, whether there is such a channel, its ends, refresh and size; the message
// of a sampling channel is seen at its destination alone, the traffic of a queuing one at both ends.
#[derive(Clone, Copy)]
pub struct Port {
    pub own: u32,
    pub place: u32,
    pub exists: bool,
    pub channel: Channel,
    pub message: Option<Message>,
    pub traffic: Traffic,
}

// What a send or a receive does to a queue of messages and to those who wait for it: the message joins last; it is handed over to this waiting
// receiver; the first leaves; the first leaves, and the message of this waiting sender is let in.
#[derive(Clone, Copy)]
pub enum Transfer {
    Put(u32),
    HandedTo(u8, u32),
    Taken,
    LetIn(u8, u32),
}

// One change of a partition's record. An object with the next id is created by storing it; a buffer, which holds an array, by its name and
// limit.
#[derive(Clone, Copy)]
pub enum Change {
    Nothing,
    Stored(u32, Process),
    Created(u32, Process),
    Last(u8),
    StoredSemaphore(u32, Semaphore),
    StoredEvent(u32, EventState),
    CreatedBuffer(u32, u16, u8),
    Moved(u32, Transfer),
    StoredBlackboard(u32, Blackboard),
    Ended(u16),
    Handed(u16, u32),
    LevelSet(u8, u8),
    Entered(Context),
}

// What an event decides: the code of a refusal; code 0 with value and extra; a tick, code 0; code 7 with the caller's record, in which
// it waits; code 0 with two changes in order and a value; a mode 0, 1 or 2, code 0; a message on the sampling channel at this place, code 0; a
// transfer on the queuing channel at this place, code 0 with a value. A refusal has its number, of which the definitions and the claims speak
// (`reply_of`, `SoundDecision`); the functions of the calls give a `Result` and `services::call` turns it into this.
#[derive(Clone, Copy)]
pub enum Decision {
    Refused(u8),
    Unchanged(u32, Time),
    Ticked,
    Blocked(u8, Process),
    Changed(Change, Change, u32),
    Restarted(Mode),
    Written(u32, Message),
    Passed(u32, Transfer, u32),
}

#[derive(Clone, Copy)]
pub struct Stepped {
    pub state: Module,
    pub answer: Answer,
}

// The process chosen so far, with its priority; id 0 is none, as in an answer's last number.
#[derive(Clone, Copy)]
pub struct Choice {
    pub id: u8,
    pub priority: u8,
}

// A table while it is read: what stands so far, the end of the last window, and how many windows and channels line 1 names.
#[derive(Clone, Copy)]
pub struct Draft {
    pub table: Table,
    pub previous: u16,
    pub windows: u8,
    pub channels: u8,
}

// What reading a table gives: the module, or the empty record with 11 or 12 and the line's number; and how many lines it took. It is no Result,
// since `read_table` gives record and lines where it is refused too.
#[derive(Clone, Copy)]
pub struct Reading {
    pub state: Module,
    pub code: u8,
    pub value: u32,
    pub lines: u32,
}

impl Module {
    pub const PROCESSES: usize = 16;

    pub const SEMAPHORES: usize = 8;

    pub const EVENTS: usize = 8;

    pub const BUFFERS: usize = 8;
    // A buffer's limit is 1 to this.
    pub const MESSAGES: usize = 16;

    pub const BLACKBOARDS: usize = 8;
    // Names are 1 to this.
    pub const NAME: u32 = 255;
    // Priorities are 1 to this.
    pub const PRIORITY: u32 = 239;
    // A semaphore's max is 1 to this.
    pub const VALUE: u32 = 32767;
    // Modes are 0 to this.
    pub const MODE: u32 = 3;
    // Calls are 1 to this.
    pub const CALL: u32 = 34;
    // Levels of a preemption lock are 0 to this.
    pub const LEVEL: u8 = 16;
    // D: 0 to this.
    pub const DURATION: u32 = 9999999;
    // Time ends here.
    pub const END: u32 = 99999999;
    // M is 1 to this.
    pub const FRAME: u32 = 10000;

    pub const PARTITIONS: usize = 8;

    pub const WINDOWS: usize = 32;

    pub const CHANNELS: usize = 16;
    // A queuing channel's size is 1 to this.
    pub const SIZE: u32 = 8;
    // The greatest number of a line.
    pub const NUMBER: i64 = 999999999;
    // The bytes of a line.
    pub const LINE: usize = 61;
    // No limit of document 01: the greatest time that the record holds.
    pub const LATEST: u32 = 4294967295;
    // No limit of document 01: the greatest semaphore value that the record holds.
    pub const GREATEST: u16 = 65535;
    // The record that reading an accepted table gives.
    #[tactic(auto, unfolding(crate::specs::Module::fresh_module))]
    pub fn fresh(table: Table) -> Module
        ensures { result ≡ fresh_module table }
    {
        Module::of_alike(table, Partition::fresh())
    }

    // The record that a refused table leaves: M, P and all else 0.
    #[tactic(auto, unfolding(crate::specs::Module::empty_module))]
    pub fn empty() -> Module
        ensures { result ≡ empty_module }
    {
        Module::of_alike(Table::empty(), Partition::empty())
    }

    // At time 0, with this partition at every place and nothing on a channel.
    fn of_alike(table: Table, partition: Partition) -> Module
        ensures { result ≡ record { table = table; t = 0; messages = replicate channel_limit no_message; queues = replicate channel_limit no_queue; partitions = replicate partition_limit partition } }
    {
        Module {
            table,
            t: 0,
            messages: [None; Module::CHANNELS],
            queues: [Queue::empty(); Module::CHANNELS],
            partitions: [partition; Module::PARTITIONS],
        }
    }
}

impl Table {
    #[tactic(auto, unfolding(crate::specs::Module::empty_table))]
    pub fn empty() -> Table
        ensures { result ≡ empty_table }
    {
        Table {
            frame: 0,
            size: 0,
            windows: [Window {
                start: 0,
                duration: 0,
                partition: 0,
                flag: false,
            }; Module::WINDOWS],
            window_count: 0,
            channels: [Channel {
                source: 0,
                destination: 0,
                refresh: 0,
                size: 0,
            }; Module::CHANNELS],
            channel_count: 0,
        }
    }
}

impl Process {
    pub fn blank() -> Process
        ensures { result ≡ blank_process }
    {
        Process {
            given: Given {
                name: 0,
                base: 0,
                period: None,
                capacity: None,
            },
            times: Times {
                release: None,
                deadline: None,
                wake: None,
                delay: 0,
            },
            current: 0,
            suspended: false,
            missed: false,
            code: 0,
            message: 0,
            started: false,
            wait: Wait::None,
        }
    }
}

impl Queue {
    pub fn empty() -> Queue
        ensures { result ≡ no_queue }
    {
        Queue {
            items: [0; Module::MESSAGES],
            len: 0,
        }
    }
}

impl Buffer {
    pub fn blank() -> Buffer
        ensures { result ≡ no_buffer }
    {
        Buffer {
            name: 0,
            limit: 0,
            queue: Queue::empty(),
        }
    }
}

impl Partition {
    #[tactic(auto, unfolding(crate::specs::Partition::empty_partition))]
    pub fn empty() -> Partition
        ensures { result ≡ empty_partition }
    {
        Partition {
            mode: Mode::Idle,
            level: 0,
            holder: 0,
            processes: [Process::blank(); Module::PROCESSES],
            process_count: 0,
            semaphores: [Semaphore {
                name: 0,
                value: 0,
                max: 0,
            }; Module::SEMAPHORES],
            semaphore_count: 0,
            events: [EventState { name: 0, up: false }; Module::EVENTS],
            event_count: 0,
            buffers: [Buffer::blank(); Module::BUFFERS],
            buffer_count: 0,
            blackboards: [Blackboard {
                name: 0,
                message: None,
            }; Module::BLACKBOARDS],
            blackboard_count: 0,
            arrival: Ids {
                items: [0; Module::PROCESSES],
                len: 0,
            },
            waiting: Ids {
                items: [0; Module::PROCESSES],
                len: 0,
            },
        }
    }

    // A partition in COLD_START in which nothing has been created.
    #[tactic(auto, unfolding(crate::specs::Partition::fresh_partition, crate::specs::Partition::empty_partition))]
    pub fn fresh() -> Partition
        ensures { result ≡ fresh_partition }
    {
        Partition {
            mode: Mode::ColdStart,
            ..Partition::empty()
        }
    }
}
