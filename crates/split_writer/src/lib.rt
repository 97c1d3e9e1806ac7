// The split plan's writer.
#![tactic(auto)]

ghost use Rattle.std.specs.Prelude.{◌≡◌, ◌≤◌, length};
ghost use Rattle.std.proofs.lemmas.List.Edits.{sets};
ghost use Rattle.split_plan.specs.Writing.{message};

use fields_writer::Message;
use number::Output;
use split_plan::SplitPlan;

// A split plan's message.
struct SplitMessage;

impl Message for SplitMessage {
    type Record = SplitPlan;

    ghost bytes = { message };

    ghost can_write = { λ p. (p.first.jobs ≤ 60) × (p.second.jobs ≤ 60) };

    #[tactic(auto, using(fields_writer::proofs::Writing::writing, crate::proofs::Records::message_written))]
    fn write(out: &mut Output, plan: &SplitPlan) {
        let first = fields_writer::listed(&plan.first.order, plan.first.jobs);
        let second = fields_writer::listed(&plan.second.order, plan.second.jobs);
        fields_writer::write_front(out, b"Q2", plan.goal, plan.cost);
        fields_writer::write_counted(out, first);
        fields_writer::write_counted(out, second);
    }
}

// Writes the message of a record into a buffer that holds it; returns the number of its bytes.
pub fn write_split(buffer: &mut [u8], plan: SplitPlan) -> usize
    requires { (plan.first.jobs ≤ 60) × (plan.second.jobs ≤ 60) × (length (message plan) ≤ length buffer.old) }
    ensures value { result ≡ length (message plan) }
    ensures buffer_after { buffer.new ≡ sets buffer.old 0 (message plan) }
{
    fields_writer::write_message::<SplitMessage>(buffer, &plan)
}
