// A lent list of event records, run in one call.
#![tactic(auto)]

ghost use Rattle.std.specs.Prelude.{◌≡◌};
ghost use Rattle.batch.specs.Batch.{after_list, answered_list};

use executive::Executive;
use machine::EventRecord;

// Every event of a lent list, in order; each answer is kept in its record.
pub fn run(m: Executive, list: &mut [EventRecord]) -> Executive
    ensures { (result ≡ after_list m list.old) × (list.new ≡ answered_list m list.old) }
{
    let mut executive = m;
    for x in list.iter_mut() {
        let turn = executive.step(x.event);
        x.answer = turn.answer;
        executive = turn.executive;
    }
    executive
}
