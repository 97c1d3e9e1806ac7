// Solving a queue: the table filled, the best cost from the start, and the order that reaches it.
#![tactic(auto)]

ghost use Rattle.std.specs.Prelude.{◌≡◌, suc, ◌+◌, ◌-◌, ◌≤◌, ◌<◌, length, get_or};
ghost use Rattle.sequencing.specs.Entries.{k_at, block, entries, FilledTable};
ghost use Rattle.sequencing.specs.Counts.{feasible_states};
ghost use Rattle.problem.specs.OfQueue.{problem};
ghost use Rattle.jobs_left.specs.Kinds.{kind_at};
ghost use Rattle.jobs_left.specs.Steps.{LeftOf};
ghost use Rattle.filling.specs.Filling.{Earlier};
ghost use Rattle.filling.specs.Lending.{SameLoan};
ghost use Rattle.solver.specs.Looking.{look};
ghost use Rattle.solver.specs.Solving.{first_choice};
ghost use Rattle.solver.specs.Following.{Share, Followed};

use filling::Lent;
use jobs_left::JobsLeft;
use layout::{Layout, Setup};
use next_states::Least;

// The first choice from the start, whose cost is the plan's (none where no order is permitted), and the feasible states.
#[derive(Clone, Copy)]
pub struct Solution {
    pub first: Option<Least>,
    pub feasible_states: u64,
}

// A queue's filled table.
#[derive(Clone, Copy)]
pub struct Filled<'s, 't> {
    pub setup: &'s Setup,
    pub table: &'t [u64],
    pub ghost filled: { Earlier (problem setup.now.queue) table.now (block (problem setup.now.queue)) },
    pub ghost room: { entries (problem setup.now.queue) ≤ length table.now },
}

// The next job of a kind (from 0) by hand-in, each kind up to a job of its own.
fn next_job(layout: &Layout, k: &JobsLeft, upto: &[u32; 5], kind: usize) -> u8
    requires { (kind < 5) × ((get_or k.now.left kind 0 ≤ get_or upto.now kind 0) × ((kind_at layout.now.kinds (suc kind)).begin + (get_or upto.now kind 0 - get_or k.now.left kind 0) < 60)) }
    ensures { result ≡ get_or layout.now.jobs ((kind_at layout.now.kinds (suc kind)).begin + (get_or upto.now kind 0 - get_or k.now.left kind 0)) 0 }
{
    // No `From` makes a `usize` of 32 bits, here and below.
    layout.jobs[layout.kinds[kind].begin + (upto[kind] - k.left[kind]) as usize]
}

impl<'s, 't> Filled<'s, 't> {
    pub fn new(lent: &'t Lent<'s>) -> Filled<'s, 't>
        requires { Earlier (problem lent.now.setup.now.queue) lent.now.table.now (block (problem lent.now.setup.now.queue)) }
        ensures setup_value { result.setup.now ≡ lent.now.setup.now }
        ensures table_value { result.table.now ≡ lent.now.table.now }
    {
        Filled {
            setup: lent.setup,
            table: &*lent.table,
        }
    }

    // A look from a row (a kind, or 0 for the cold cutter), with any k left: the cost of what is left, which is 0 where nothing is, and the next kind. Kind 0
    // stands where nothing is left: no place is then followed, and no kind looked at.
    // What is asked of k is not kept by a type, which would have to hold the queue beside each k that is stepped: no plainer. A row goes with a look only.
    pub fn look(&self, k: &JobsLeft, row: usize) -> Option<Least>
        requires { LeftOf (problem self.now.setup.now.queue) k.now × (row ≤ self.now.setup.now.queue.kinds) }
        ensures { result ≡ look self.now.setup.now.queue row (k_at (problem self.now.setup.now.queue) k.now.index) }
    {
        let setup = self.setup;
        let goal = setup.queue.goal;
        if k.jobs == 0 {
            return Some(Least {
                cost: units::cost_in(goal, 0),
                kind: 0,
            });
        }
        next_states::best_next(&setup.layout, self.table, k, row, k.step_weight(goal))
    }

    // The order of a share of the queue: from the jobs left, which are counted and weighed anew, each kind up to a job of its own. The first kind is the
    // caller's, who has looked it up; then at each place the smallest that reaches the least.
    pub fn follow(&self, from: &JobsLeft, upto: &[u32; 5], first: usize) -> [u8; 60]
        requires { Share self.now.setup.now.queue from.now upto.now first }
        ensures { Followed self.now.setup.now.queue upto.now from.now.index first result }
    {
        let setup = self.setup;
        let layout = &setup.layout;
        let mut order = [0u8; 60];
        let mut k = JobsLeft::new(from.left, from.index, setup.kinds());
        let mut kind = first;
        for slot in order[..k.jobs as usize].iter_mut() {
            let x = kind - 1;
            *slot = next_job(layout, &k, upto, x);
            k.complete(x, &layout.kinds[x]);
            let weight = k.step_weight(setup.queue.goal);
            if let Some(next) = next_states::best_next(layout, self.table, &k, kind, weight) {
                kind = next.kind;
            }
        }
        order
    }
}

// Fills the table and finds the best cost.
pub fn solve(lent: &mut Lent) -> Solution
    ensures loan { SameLoan lent.old lent.new }
    ensures filled_table { FilledTable (problem lent.old.setup.now.queue) lent.old.table.now lent.new.table.now }
    ensures first_choice_value { result.first ≡ first_choice lent.old.setup.now.queue }
    ensures feasible_states_value { result.feasible_states ≡ feasible_states (problem lent.old.setup.now.queue) }
{
    let feasible_states = lent.fill();
    let setup = lent.setup;
    let row = setup.queue.start as usize;
    let first = Filled::new(lent).look(&setup.all_left(), row);
    Solution {
        first,
        feasible_states,
    }
}
