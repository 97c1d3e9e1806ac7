// The planning call: a queue message in, the best order out, into a table and a plan buffer that the caller lends.
#![tactic(auto)]

ghost use Rattle.std.specs.Prelude.{◌≡◌, ◌≤◌, length, take};
ghost use Rattle.sequencing.specs.Recursion.{plan_cost};
ghost use Rattle.problem.specs.OfQueue.{problem};
ghost use Rattle.filling.specs.Lending.{SameLoan};
ghost use Rattle.best_order.specs.Endings.{room_verdict, solved, ending_of, answer_of, buffer_of, table_of, LeavesTable};
ghost use Rattle.best_order.specs.Planning.{Planning};

use fields::check;
use filling::Lent;
use plan::Plan;
use queue::ValidQueue;
use refusal::Reason;
use solver::Filled;

// 17 with the table filled, or the plan written, where there is room for both.
fn make_plan(lent: &mut Lent, buffer: &mut [u8]) -> Result<usize, Reason>
    requires { 77 ≤ length buffer.old }
    ensures loan { SameLoan lent.old lent.new }
    ensures value { result ≡ answer_of (solved lent.old.setup.now.queue (plan_cost (problem lent.old.setup.now.queue))) }
    ensures leaves_table { LeavesTable (table_of (solved lent.old.setup.now.queue (plan_cost (problem lent.old.setup.now.queue)))) lent.old.table.now lent.new.table.now }
    ensures buffer_after { buffer.new ≡ buffer_of (solved lent.old.setup.now.queue (plan_cost (problem lent.old.setup.now.queue))) buffer.old }
{
    let solution = solver::solve(lent);
    let first = solution.first.ok_or(Reason::NoOrder)?;
    let setup = lent.setup;
    let all = setup.all_left();
    let order = Filled::new(lent).follow(&all, &all.left, first.kind);
    let plan = Plan {
        goal: setup.queue.goal,
        cost: first.cost.number(),
        feasible_states: solution.feasible_states,
        jobs: setup.queue.jobs,
        order,
    };
    plan_writer::write_plan(buffer, plan)
}

// What is lent, judged: 15, then 16, which carries the entries that are needed.
#[tactic(auto, unfolding(best_order::specs::Endings::room_verdict))]
pub fn judge_room(needed: u64, entries: usize, room: usize) -> Result<(), Reason>
    ensures { result ≡ room_verdict needed entries room }
{
    check(77 <= room, Reason::Buffer)?;
    // No `From` makes 64 bits of a `usize`.
    check(needed <= entries as u64, Reason::Table(needed))
}

// Plans a queue that was read: 15, 16, 17, or the plan.
fn plan_record(queue: ValidQueue, table: &mut [u64], buffer: &mut [u8]) -> Result<usize, Reason>
    ensures value { result ≡ answer_of (ending_of queue.queue (length table.old) (length buffer.old)) }
    ensures leaves_table { LeavesTable (table_of (ending_of queue.queue (length table.old) (length buffer.old))) table.old table.new }
    ensures buffer_after { buffer.new ≡ buffer_of (ending_of queue.queue (length table.old) (length buffer.old)) buffer.old }
{
    let setup = layout::prepare(queue);
    judge_room(setup.needed_entries(), table.len(), buffer.len())?;
    let mut lent = Lent {
        setup: &setup,
        table,
    };
    make_plan(&mut lent, buffer)
}

// Plans a queue message. Refusals 1 to 16 change nothing, 17 fills the table only; bytes past the plan keep what they had. Table and buffer are handed one by
// one, as C lends them.
pub fn plan(message: &[u8], table: &mut [u64], buffer: &mut [u8]) -> Result<usize, Reason>
    ensures { Planning message.now table.old buffer.old table.new buffer.new result }
{
    let queue = queue_reader::read_queue(message)?;
    plan_record(ValidQueue { queue }, table, buffer)
}

// The bytes of a plan that was written at a buffer's start.
pub fn written_plan(buffer: &[u8], bytes: usize) -> &[u8]
    ensures { result.now ≡ take bytes buffer.now }
{
    &buffer[..bytes.min(buffer.len())]
}
