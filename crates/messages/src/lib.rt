// Messages, first in first out.
#![tactic(auto)]

ghost use Rattle.std.specs.Prelude.{◌≡◌};
ghost use Rattle.machine.specs.Messages.{put, taken, first, sent, received, moved, ends_wait};

use machine::{Queue, Transfer};

// One joins last.
pub fn put(q: Queue, m: u32) -> Queue
    ensures { result ≡ put m q }
{
    let mut r = q;
    r.len = arrays::join_last(&mut r.items, q.len, m);
    r
}

// The first leaves.
pub fn take_first(q: Queue) -> Queue
    ensures { result ≡ taken q }
{
    let mut rest = Queue::empty();
    if let Some((_, later)) = arrays::held(&q.items, q.len).split_first() {
        for m in later {
            rest = put(rest, *m);
        }
    }
    rest
}

// The first; 0 where there is none.
pub fn first_of(q: Queue) -> u32
    ensures { result ≡ first q }
{
    q.items[0]
}

// ---------------------------------------------------------------- sends and receives
// A send, where this receiver waits first, 0 for none.
#[tactic(auto, unfolding(machine::specs::Messages::sent))]
pub fn sent_to(receiver: u8, m: u32) -> Transfer
    ensures { result ≡ sent receiver m }
{
    if receiver == 0 {
        return Transfer::Put(m);
    }
    Transfer::HandedTo(receiver, m)
}

// A receive, where this sender waits first, 0 for none, with this message.
#[tactic(auto, unfolding(machine::specs::Messages::received))]
pub fn received_from(sender: u8, m: u32) -> Transfer
    ensures { result ≡ received sender m }
{
    if sender == 0 {
        return Transfer::Taken;
    }
    Transfer::LetIn(sender, m)
}

// The messages after a transfer.
pub fn change(q: Queue, a: Transfer) -> Queue
    ensures { result ≡ moved a q }
{
    match a {
        Transfer::Put(m) => put(q, m),
        Transfer::HandedTo(..) => q,
        Transfer::Taken => take_first(q),
        Transfer::LetIn(_, m) => put(take_first(q), m),
    }
}

// Whether a transfer ends a wait.
pub fn ends_wait(a: Transfer) -> bool
    ensures { result ≡ ends_wait a }
{
    matches!(a, Transfer::HandedTo(..) | Transfer::LetIn(..))
}
