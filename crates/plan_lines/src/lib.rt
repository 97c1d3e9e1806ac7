// What the programs share: a message planned, and what is printed of a plan: for a place its job, the kind and the finish.
#![tactic(auto)]

ghost use Rattle.std.specs.Prelude.{◌≡◌, ◌^◌, ◌<◌, replicate};
ghost use Rattle.gaps.specs.Gaps.{gap_between, seconds_of};
ghost use Rattle.sequencing.specs.Lists.{at};
ghost use Rattle.sequencing.specs.Problem.{kind as kindIn};
ghost use Rattle.problem.specs.OfQueue.{problem};
ghost use Rattle.best_order.specs.Endings.{table_of, LeavesTable};
ghost use Rattle.best_order.specs.Planning.{ending_on};
ghost use Rattle.plan_lines.specs.Lines.{finish_at, line_at};
ghost use Rattle.plan_lines.specs.Plans.{planned_by};

use gaps::Gap;
use plan::Plan;
use queue::Queue;
use refusal::Reason;
use std::fmt;
use units::Seconds;

// One place of a plan, as it is printed.
#[derive(Clone, Copy, Debug, PartialEq, Eq)]
pub struct Line {
    pub place: u32,
    pub job: u8,
    pub kind: u8,
    pub finish: Seconds,
}

// The number at a place, from 1 on, and 0 where there is none: job 0, of kind 0, is what a line has there and what finishes are counted on with, so an
// `Option` would only be unwrapped to 0 at each use, of a kind and of a finish too.
fn number_at(numbers: &[u8], place: usize) -> u8
    ensures { result ≡ at numbers.now place }
{
    place
        .checked_sub(1)
        .and_then(|before| numbers.get(before))
        .copied()
        .unwrap_or(0)
}

// The place, its job, the kind and the finish, as the program prints them.
impl fmt::Display for Line {
    fn fmt<W: fmt::Write>(&self, f: &mut fmt::Formatter<W>) -> fmt::Result {
        let Line {
            place,
            job,
            kind,
            finish,
        } = *self;
        let seconds = finish.0;
        write!(f, "{place} {job} {kind} {seconds}")
    }
}

// The kind of a job, 0 where the queue has no such job.
#[tactic(auto, using(crate::proofs::Finishing::kind_past, crate::proofs::Finishing::kind_within))]
fn kind_of(queue: Queue, job: u8) -> u8
    ensures { result ≡ kindIn (problem queue) job }
{
    if queue.jobs < u32::from(job) {
        return 0;
    }
    number_at(&queue.job_kinds, usize::from(job))
}

// The seconds that the gap from a row (a kind, or 0 for the cold cutter) to a kind adds to a finish. A forbidden succession adds no seconds, and no plan has
// one. A kind of 0, or past N, gets the gap that stands where its own would; 0 past the array.
fn gap_seconds(queue: Queue, row: u32, kind: u8) -> Seconds
    ensures { (result.0 ≡ seconds_of (gap_between queue.gaps row kind)) × (result.0 < 2 ^ 32) }
{
    // No `From` makes a `usize` of 32 bits, here and below.
    let row = row as usize;
    let kind = usize::from(kind);
    if queue.gaps.len() <= gaps::gap_index(row, kind) {
        return Seconds(0);
    }
    match gaps::gap_after(&queue.gaps, row, kind) {
        Gap::Lasting(seconds) => seconds,
        Gap::Never => Seconds(0),
    }
}

// The finish at a place of an order, 0 where there is none.
#[tactic(auto, using(crate::proofs::Finishing::finish_past))]
fn finish_at(queue: Queue, order: &[u8], place: u32) -> Seconds
    ensures { result.0 ≡ finish_at (problem queue) order.now place }
{
    let mut finish = Seconds(0);
    let Some(cut) = order.get(..place as usize) else {
        return finish;
    };
    let mut row = queue.start;
    for job in cut {
        let kind = kind_of(queue, *job);
        finish = finish + gap_seconds(queue, row, kind);
        row = u32::from(kind);
    }
    finish
}

// A queue and its plan.
#[derive(Clone, Copy)]
pub struct Planned {
    pub queue: Queue,
    pub plan: Plan,
}

impl Planned {
    // The line of a place.
    pub fn line_at(&self, place: u32) -> Line
        ensures { result ≡ line_at (problem self.now.queue) self.now.plan place }
    {
        let job = number_at(&self.plan.order, place as usize);
        Line {
            place,
            job,
            kind: kind_of(self.queue, job),
            finish: finish_at(self.queue, &self.plan.order, place),
        }
    }
}

// The queue of a message and its plan, or the refusal, by a table that the program lends.
#[tactic(auto, using(crate::proofs::Plans::planning_read))]
pub fn plan_message(message: &[u8], table: &mut [u64]) -> Result<Planned, Reason>
    ensures value { result ≡ planned_by (ending_on message.now table.old (replicate 77 0)) }
    ensures leaves_table { LeavesTable (table_of (ending_on message.now table.old (replicate 77 0))) table.old table.new }
{
    let mut buffer = [0u8; 77];
    let bytes = planner::plan(message, table, &mut buffer)?;
    let plan = plan_reader::read_plan(planner::written_plan(&buffer, bytes))?;
    let queue = queue_reader::read_queue(message)?;
    Ok(Planned { queue, plan })
}
