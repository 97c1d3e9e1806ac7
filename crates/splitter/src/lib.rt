// The splitting call: a queue message in, the best split over two cutters out, into a table and a plan buffer that the caller lends.
#![tactic(auto)]

ghost use Rattle.std.specs.Prelude.{◌≡◌, ◌≤◌, true, T as Is, length};
ghost use Rattle.fields.specs.Fields.{all};
ghost use Rattle.queue.specs.Record.{pair_of, window_pairs};
ghost use Rattle.problem.specs.OfQueue.{problem};
ghost use Rattle.filling.specs.Lending.{SameLoan};
ghost use Rattle.splitting.specs.Taken.{taken_cost};
ghost use Rattle.splitting.specs.Covers.{covering, covers};
ghost use Rattle.best_order.specs.Endings.{answer_of, buffer_of, table_of, LeavesTable};
ghost use Rattle.best_split.specs.Endings.{bench_verdict, divided, divided_in, split_ending_of};
ghost use Rattle.best_split.specs.Splitting.{Splitting};

use fields::check;
use filling::Lent;
use queue::{ValidQueue, Window};
use refusal::Reason;
use solver::Filled;
use split_plan::{Cutter, SplitPlan};
use split_search::Bench;

// A queue that two cutters can have, and the second's start kind.
struct Shared {
    queue: ValidQueue,
    second: u32,
    ghost covered: { covers queue.queue ≡ true },
    ghost second_in: { second ≤ queue.queue.kinds },
}

// Whether a kind's allowed places cover places 1 to `jobs`; without jobs any do.
fn is_covering(window: &Window, jobs: u32) -> bool
    ensures { result ≡ covering jobs (pair_of window.now) }
{
    jobs == 0 || (window.first <= 1 && jobs <= u32::from(window.last))
}

// Whether the places allowed to each of some kinds cover places 1 to `jobs`.
fn all_cover(windows: &[Window], jobs: u32) -> bool
    ensures { result ≡ all (covering jobs) (window_pairs windows.now) }
{
    windows.iter().all(|window| is_covering(window, jobs))
}

// Whether the shift and the allowed places of every kind permit each job at each place: no 19.
fn covers_all(queue: &ValidQueue) -> bool
    ensures { result ≡ covers queue.now.queue }
{
    let queue = &queue.queue;
    // No `From` makes a `usize` of 32 bits, here and below.
    queue.jobs <= queue.max_shift + 1
        && all_cover(&queue.windows[..queue.kinds as usize], queue.jobs)
}

// What two cutters ask of a queue and of the second's start kind: 19, then 20.
fn judge_bench(queue: &ValidQueue, second: u32) -> Result<(), Reason>
    ensures { result ≡ bench_verdict queue.now.queue second }
{
    check(covers_all(queue), Reason::Uncovered)?;
    check(second <= queue.queue.kinds, Reason::SecondStart)
}

// The table filled, and 17 or the split plan written, where there is room for both.
fn make_split(lent: &mut Lent, second: u32, buffer: &mut [u8]) -> Result<usize, Reason>
    requires { Is (covers lent.old.setup.now.queue) × ((second ≤ lent.old.setup.now.queue.kinds) × (77 ≤ length buffer.old)) }
    ensures loan { SameLoan lent.old lent.new }
    ensures value { result ≡ answer_of (divided lent.old.setup.now.queue second (taken_cost (problem lent.old.setup.now.queue) second)) }
    ensures leaves_table { LeavesTable (table_of (divided lent.old.setup.now.queue second (taken_cost (problem lent.old.setup.now.queue) second))) lent.old.table.now lent.new.table.now }
    ensures buffer_after { buffer.new ≡ buffer_of (divided lent.old.setup.now.queue second (taken_cost (problem lent.old.setup.now.queue) second)) buffer.old }
{
    let setup = lent.setup;
    lent.fill();
    let bench = Bench::new(Filled::new(lent), second as usize);
    let split = bench.best_split().ok_or(Reason::NoOrder)?;
    let orders = bench.split_orders(&split);
    let jobs = split.first.jobs;
    let rest = setup.queue.jobs - jobs;
    let order = orders.first;
    let others = orders.second;
    let plan = SplitPlan {
        goal: setup.queue.goal,
        cost: split.cost.number(),
        first: Cutter { jobs, order },
        second: Cutter {
            jobs: rest,
            order: others,
        },
    };
    Ok(split_writer::write_split(buffer, plan))
}

// Splits a queue that two cutters can have: 15, 16, 17, or the split plan. As `planner::plan_record`, but for the last call: a function of both, with that
// call as a closure, would need a contract longer than the call.
fn split_lent(shared: Shared, table: &mut [u64], buffer: &mut [u8]) -> Result<usize, Reason>
    ensures value { result ≡ answer_of (divided_in shared.queue.queue shared.second (length table.old) (length buffer.old)) }
    ensures leaves_table { LeavesTable (table_of (divided_in shared.queue.queue shared.second (length table.old) (length buffer.old))) table.old table.new }
    ensures buffer_after { buffer.new ≡ buffer_of (divided_in shared.queue.queue shared.second (length table.old) (length buffer.old)) buffer.old }
{
    let Shared { queue, second } = shared;
    let setup = layout::prepare(queue);
    planner::judge_room(setup.needed_entries(), table.len(), buffer.len())?;
    let mut lent = Lent {
        setup: &setup,
        table,
    };
    make_split(&mut lent, second, buffer)
}

// Splits a queue that was read: 19, 20, then what is lent.
fn split_record(
    queue: ValidQueue,
    second: u32,
    table: &mut [u64],
    buffer: &mut [u8],
) -> Result<usize, Reason>
    ensures value { result ≡ answer_of (split_ending_of queue.queue second (length table.old) (length buffer.old)) }
    ensures leaves_table { LeavesTable (table_of (split_ending_of queue.queue second (length table.old) (length buffer.old))) table.old table.new }
    ensures buffer_after { buffer.new ≡ buffer_of (split_ending_of queue.queue second (length table.old) (length buffer.old)) buffer.old }
{
    judge_bench(&queue, second)?;
    split_lent(Shared { queue, second }, table, buffer)
}

// Splits a queue message over two cutters; `second` is the second cutter's start kind. Every refusal but 17 changes nothing; bytes past the split plan keep
// what they had.
pub fn split(
    message: &[u8],
    second: u32,
    table: &mut [u64],
    buffer: &mut [u8],
) -> Result<usize, Reason>
    ensures { Splitting message.now second table.old buffer.old table.new buffer.new result }
{
    let queue = queue_reader::read_queue(message)?;
    split_record(ValidQueue { queue }, second, table, buffer)
}
