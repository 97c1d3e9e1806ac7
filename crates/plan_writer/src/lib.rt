// The plan message's writer.
#![tactic(auto)]

ghost use Rattle.std.specs.Prelude.{◌≡◌, ◌≤◌, length};
ghost use Rattle.plan.specs.Record.{fresh};
ghost use Rattle.plan.specs.Writing.{message, all_fresh, judge, write_plan, written_plan};
ghost use Rattle.plan.specs.Writer.{WritesPlan};
ghost use Rattle.plan_laws.proofs.Theorems.{judged_valid, message_length};

use fields::{check, is_within};
use fields_writer::{Judged, Message};
use number::Output;
use plan::Plan;
use refusal::Reason;

// Whether a job is from 1 to `jobs` and stands at no earlier place.
fn is_fresh(earlier: &[u8], job: u32, jobs: u32) -> bool
    ensures { result ≡ fresh jobs earlier.now job }
{
    is_within(u64::from(job), 1, u64::from(jobs)) && !fields::stands_in(earlier, job)
}

// Whether the job at every place is.
fn all_fresh(order: &[u8], jobs: u32) -> bool
    ensures { result ≡ all_fresh jobs order.now }
{
    order.iter().enumerate().all(|(place, job)| is_fresh(&order[..place], u32::from(*job), jobs))
}

// A plan's message.
struct PlanMessage;

impl Message for PlanMessage {
    type Record = Plan;

    ghost bytes = { message };

    ghost can_write = { λ p. p.jobs ≤ 60 };

    #[tactic(auto, using(fields_writer::proofs::Writing::writing, crate::proofs::Records::message_written))]
    fn write(out: &mut Output, plan: &Plan) {
        fields_writer::write_front(out, b"QP", plan.goal, plan.cost);
        out.number(plan.feasible_states);
        fields_writer::write_counted(out, fields_writer::listed(&plan.order, plan.jobs));
    }
}

impl Judged for PlanMessage {
    const LEAST: usize = 77;

    ghost LEAST = { 77 };

    ghost judge = { judge };

    // The record judged in message order.
    #[tactic(auto, unfolding(plan::specs::Writing::judge))]
    fn judge(plan: &Plan) -> Result<(), Reason> {
        check(is_within(u64::from(plan.goal), 1, 2), Reason::Goal)?;
        check(is_within(plan.cost, 0, 4398046511103), Reason::Groups)?;
        check(
            is_within(plan.feasible_states, 0, 4398046511103),
            Reason::Groups,
        )?;
        check(is_within(u64::from(plan.jobs), 0, 60), Reason::Jobs)?;
        let order = fields_writer::listed(&plan.order, plan.jobs);
        check(all_fresh(order, plan.jobs), Reason::Job)
    }

    ghost accepted = { λ p e. let v = judged_valid p e in (v.jobs, message_length p v) };
}

// Writes the message of a valid record; a refused record, or one for a buffer under 77 bytes, changes nothing.
#[tactic(auto, using(plan_laws::proofs::Theorems::plan_writes), unfolding(plan::specs::Writing::write_plan, plan::specs::Writing::written_plan))]
pub fn write_plan(buffer: &mut [u8], plan: Plan) -> Result<usize, Reason>
    ensures value { result ≡ write_plan plan (length buffer.old) }
    ensures buffer_after { buffer.new ≡ written_plan plan buffer.old }
    ensures writes_plan { WritesPlan plan buffer.old buffer.new result }
{
    fields_writer::write_judged::<PlanMessage>(buffer, &plan)
}
