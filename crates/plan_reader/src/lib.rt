// The plan message's reader.
#![tactic(auto)]

ghost use Rattle.std.specs.Prelude.{◌≡◌, ◌≤◌, length};
ghost use Rattle.std.proofs.lemmas.List.Edits.{sets};
ghost use Rattle.number.specs.Readers.{behind};
ghost use Rattle.number.specs.Inputs.{Reads, answered};
ghost use Rattle.plan.specs.Reading.{order, plan};
ghost use Rattle.plan_reader.specs.Jobs.{job_after, order_before};

use number::Input;
use plan::Plan;
use refusal::Reason;

// The job at the place after the earlier ones. That there are at most sixty jobs no type keeps, here and below: definitions build the record.
fn read_job(input: &mut Input, earlier: &[u8], jobs: u32) -> Result<u8, Reason>
    requires { jobs ≤ 60 }
    ensures { Reads (job_after jobs earlier.now) input.old input.new result }
{
    let job = fields_reader::read_field(input, 1, jobs, Reason::Job)?;
    fields::check(!fields::stands_in(earlier, job), Reason::Job)?;
    // `as`, here and for the count: at most 60, and `TryFrom` has an error that cannot come.
    Ok(job as u8)
}

// The job at each place, so many as `out` has room for, up to the first that is refused.
#[inline(always)]
fn read_order(input: &mut Input, out: &mut [u8]) -> Result<(), Reason>
    requires { length out.old ≤ 60 }
    ensures value { Reads (λ s at. behind (order (length out.old) s at)) input.old input.new result }
    ensures out_after { out.new ≡ sets out.old 0 (order_before (length out.old) input.old.bytes.now input.old.at) }
{
    let jobs = out.len();
    for place in 0..jobs {
        out[place] = read_job(input, &out[..place], jobs as u32)?;
    }
    Ok(())
}

// The record of a plan message, or the one refusal of 01.
#[tactic(auto, unfolding(plan::specs::Reading::plan))]
pub fn read_plan(bytes: &[u8]) -> Result<Plan, Reason>
    ensures { result ≡ answered (plan bytes.now 0) }
{
    let mut input = Input { bytes, at: 0 };
    fields_reader::read_opening(&mut input, b"QP")?;
    fields_reader::read_field(&mut input, 1, 1, Reason::Edition)?;
    let goal = fields_reader::read_field(&mut input, 1, 2, Reason::Goal)?;
    let cost = input.number(6)?;
    let feasible_states = input.number(6)?;
    let jobs = fields_reader::read_field(&mut input, 0, 60, Reason::Jobs)?;
    let mut order = [0u8; 60];
    read_order(&mut input, &mut order[..jobs as usize])?;
    fields_reader::read_end(&mut input)?;
    Ok(Plan {
        goal,
        cost,
        feasible_states,
        jobs,
        order,
    })
}
