// Planning with a tally of plans and refusals, which goes in and comes back by value.
#![tactic(auto)]

ghost use Rattle.std.specs.Prelude.{◌≡◌};
ghost use Rattle.best_order.specs.Planning.{Planning};
ghost use Rattle.tally.specs.Tally.{raised, tallied};

use refusal::Reason;

// How many calls ended in a plan, and how many in a refusal.
#[derive(Clone, Copy, Debug, PartialEq, Eq)]
pub struct Tally {
    pub plans: u32,
    pub refusals: u32,
}

// An answer, and the tally with it.
#[derive(Clone, Copy, Debug, PartialEq, Eq)]
pub struct Tallied {
    pub answer: Result<usize, Reason>,
    pub tally: Tally,
}

// One more, but for a counter that is full.
fn one_more(count: u32) -> u32
    ensures { result ≡ raised count }
{
    count.saturating_add(1)
}

impl Tally {
    // The tally after an answer.
    fn after(self, answer: Result<usize, Reason>) -> Tally
        ensures { result ≡ tallied answer self }
    {
        match answer {
            Ok(_) => Tally {
                plans: one_more(self.plans),
                ..self
            },
            Err(_) => Tally {
                refusals: one_more(self.refusals),
                ..self
            },
        }
    }
}

// Plans a queue message and counts the answer.
pub fn plan_tallied(message: &[u8], table: &mut [u64], buffer: &mut [u8], tally: Tally) -> Tallied
    ensures planning { Planning message.now table.old buffer.old table.new buffer.new result.answer }
    ensures tally_value { result.tally ≡ tallied result.answer tally }
{
    let answer = planner::plan(message, table, buffer);
    Tallied {
        answer,
        tally: tally.after(answer),
    }
}
