// The partitions that a tick goes through.
#![tactic(auto)]

ghost use Rattle.std.specs.Prelude.{◌≡◌, ◌≤◌};
ghost use Rattle.machine.specs.Limits.{partition_limit};
ghost use Rattle.machine.specs.Ticks.{partition_count};
ghost use Rattle.machine.specs.declared.Table.{Table};

use machine::Module;

// How many partitions a table of this size has, the array's length at most.
pub fn count(size: u8) -> usize
    ensures { ((T : Table) → T.size ≡ size → result ≡ partition_count T) × (result ≤ partition_limit) }
{
    usize::from(size).min(Module::PARTITIONS)
}
