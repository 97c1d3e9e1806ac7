// How much table to lend for a queue message: N times P entries, and the largest kept count that the counts of its kinds allow.
#![tactic(auto)]

ghost use Rattle.std.specs.Prelude.{◌≡◌, ℕ, ◌≤◌, ◌<◌, length, get_or};
ghost use Rattle.jobs_left.specs.Kinds.{counts_of};
ghost use Rattle.state_count.specs.StateCount.{most_feasible};
ghost use Rattle.table_size.specs.Sizes.{sizes};
ghost use Rattle.table_size.specs.Sizing.{Sizing};

use jobs_left::Kind;
use queue::ValidQueue;
use refusal::{Reason, Sizes};

// 02's sum over the kinds, one kind after the other: each state so far stands for every number left of the next kind, and each k so far has the next kind's own
// states beside it.
fn most_feasible(kinds: &[Kind]) -> u64
    requires few_kinds { length kinds.now ≤ 5 }
    requires few_jobs { (j : ℕ) → j < length kinds.now → get_or (counts_of kinds.now) j 0 ≤ 60 }
    ensures { result ≡ most_feasible (counts_of kinds.now) }
{
    let mut states: u64 = 0;
    let mut product: u64 = 1;
    for kind in kinds {
        let count = u64::from(kind.count);
        states = states * (count + 1) + count * product;
        product *= count + 1;
    }
    states
}

// Both numbers of a queue.
fn size_queue(queue: ValidQueue) -> Sizes
    ensures { result ≡ sizes queue.queue }
{
    let setup = layout::prepare(queue);
    let entries = setup.needed_entries();
    let states = most_feasible(setup.kinds());
    Sizes {
        entries,
        most_feasible: states,
    }
}

// Asks a queue message: the reader's refusal, or both numbers.
pub fn size_table(message: &[u8]) -> Result<Sizes, Reason>
    ensures { Sizing message.now result }
{
    let queue = queue_reader::read_queue(message)?;
    Ok(size_queue(ValidQueue { queue }))
}
