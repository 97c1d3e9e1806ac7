// The best split of a queue over two cutters, by its filled table: one pass over all counts of the first cutter, two looks for each.
#![tactic(auto)]

ghost use Rattle.std.specs.Prelude.{◌≡◌, true, ℕ, ◌+◌, ◌-◌, ◌≤◌, ◌<◌, T as Is, length, get_or, IfSome};
ghost use Rattle.units.specs.Costs.{cost_in, number_of, in_seconds};
ghost use Rattle.fields.specs.Lists.{filled};
ghost use Rattle.sequencing.specs.Recursion.{cost_to_go};
ghost use Rattle.sequencing.specs.Entries.{k_at, block};
ghost use Rattle.problem.specs.OfQueue.{problem};
ghost use Rattle.splitting.specs.Taken.{first_order, second_order};
ghost use Rattle.splitting.specs.Covers.{covers};
ghost use Rattle.splitting.specs.Scan.{is_before};
ghost use Rattle.jobs_left.specs.Steps.{LeftOf};
ghost use Rattle.split_search.specs.Searching.{cost_answer, cost_upto, is_better, Best, IsBest};
ghost use Rattle.split_search.specs.Shares.{ShareFrom, order_from};

use jobs_left::JobsLeft;
use solver::Filled;
use units::Cost;

// A split by its counts: what both cutters cost, and how many of each kind the first cutter has.
#[derive(Clone, Copy)]
pub struct Split {
    pub cost: Cost,
    pub first: JobsLeft,
}

// Both cutters' orders, each in sixty places, then 0.
#[derive(Clone, Copy)]
pub struct Orders {
    pub first: [u8; 60],
    pub second: [u8; 60],
}

// What is the same for all splits of a queue: its filled table, all its jobs, and the second cutter's start kind.
#[derive(Clone, Copy)]
pub struct Bench<'s, 't> {
    pub filled: Filled<'s, 't>,
    pub all: JobsLeft,
    pub second: usize,
    pub ghost covered: { covers filled.setup.now.queue ≡ true },
    pub ghost second_in: { second ≤ filled.setup.now.queue.kinds },
    pub ghost all_left: { LeftOf (problem filled.setup.now.queue) all },
    pub ghost all_index: { all.index ≡ block (problem filled.setup.now.queue) - 1 },
}

// What the jobs left cost after a row (a kind, or 0 for the cold cutter): the row's own entry where it holds a value, else by a look.
// What is asked of k is said in a clause, as in solver's look.
fn cost_after(solved: &Filled, k: &JobsLeft, row: usize) -> Option<Cost>
    requires { LeftOf (problem solved.now.setup.now.queue) k.now × (row ≤ solved.now.setup.now.queue.kinds) }
    ensures { result ≡ cost_answer solved.now.setup.now.queue.goal (cost_to_go (problem solved.now.setup.now.queue) row (k_at (problem solved.now.setup.now.queue) k.now.index)) }
{
    let setup = solved.setup;
    if 0 < row {
        let entry = next_states::state_entry(&setup.layout, k.index, row - 1);
        if let Some(value) = next_states::value_of(solved.table[entry]) {
            return Some(units::cost_in(setup.queue.goal, value));
        }
    }
    let found = solved.look(k, row)?;
    Some(found.cost)
}

// Whether counts come before others: fewer of the first kind where they differ.
fn is_before(counts: &[u32; 5], held: &[u32; 5]) -> bool
    ensures { result ≡ is_before counts.now held.now }
{
    counts < held
}

// Whether a split of a cost and counts is better than the one held, if one is: it costs less, or as much and its counts come before.
fn is_better(held: &Option<Split>, cost: Cost, counts: &[u32; 5]) -> bool
    requires { IfSome held.now (λ r. in_seconds r.cost ≡ in_seconds cost) }
    ensures { result ≡ is_better held.now cost counts.now }
{
    let Some(split) = held else {
        return true;
    };
    cost.less(split.cost) || !split.cost.less(cost) && is_before(counts, &split.first.left)
}

// The order from a row of what is left, each kind up to a job of its own.
fn share_order(solved: &Filled, k: &JobsLeft, upto: &[u32; 5], row: usize) -> [u8; 60]
    requires { ShareFrom solved.now.setup.now.queue k.now upto.now row }
    ensures { result ≡ filled 60 (order_from (problem solved.now.setup.now.queue) upto.now row (k_at (problem solved.now.setup.now.queue) k.now.index)) }
{
    let first = solved.look(k, row).unwrap();
    solved.follow(k, upto, first.kind)
}

impl<'s, 't> Bench<'s, 't> {
    pub fn new(filled: Filled<'s, 't>, second: usize) -> Bench<'s, 't>
        requires { Is (covers filled.setup.now.queue) × (second ≤ filled.setup.now.queue.kinds) }
        ensures setup_value { result.filled.setup.now ≡ filled.entry.setup.now }
        ensures table_value { result.filled.table.now ≡ filled.entry.table.now }
        ensures second_value { result.second ≡ second }
    {
        Bench {
            filled,
            all: filled.setup.all_left(),
            second,
        }
    }

    // What the split costs whose counts are these: the first cutter's jobs after its start, the others after the second's. Where the first cutter costs more
    // than the split held alone, the others are not looked up. What is asked of k is said in a clause, as in solver's look.
    fn split_cost(&self, k: &JobsLeft, held: &Option<Split>) -> Option<Cost>
        requires left_of { LeftOf (problem self.now.filled.setup.now.queue) k.now }
        requires in_unit { IfSome held.now (λ r. r.cost ≡ cost_in self.now.filled.setup.now.queue.goal (number_of r.cost)) }
        ensures { result ≡ cost_answer self.now.filled.setup.now.queue.goal (cost_upto (problem self.now.filled.setup.now.queue) self.now.second held.now k.now.index) }
    {
        // No `From` makes a `usize` of 32 bits, here and below.
        let start = self.filled.setup.queue.start as usize;
        let cost = cost_after(&self.filled, k, start)?;
        if let Some(split) = held {
            if split.cost.less(cost) {
                return None;
            }
        }
        let rest = self.all.without(k);
        let other = cost_after(&self.filled, &rest, self.second)?;
        Some(cost.together(other))
    }

    // The split taken. A split that is no better than the best so far is passed over, so that nothing is copied for it.
    pub fn best_split(&self) -> Option<Split>
        ensures { IsBest self.now.filled.setup.now.queue self.now.second result }
    {
        let setup = self.filled.setup;
        let mut best: Option<Split> = None;
        let mut k = JobsLeft::none();
        for _ in 0..setup.layout.size.block {
            if let Some(cost) = self.split_cost(&k, &best) {
                if is_better(&best, cost, &k.left) {
                    best = Some(Split { cost, first: k });
                }
            }
            k.step(setup.kinds());
        }
        best
    }

    // Both cutters' orders of the split taken, whose counts are weighed anew.
    pub fn split_orders(&self, split: &Split) -> Orders
        requires { Best self.now.filled.setup.now.queue self.now.second split.now }
        ensures first_value { result.first ≡ filled 60 (first_order (problem self.now.filled.setup.now.queue) self.now.second) }
        ensures second_value { result.second ≡ filled 60 (second_order (problem self.now.filled.setup.now.queue) self.now.second) }
    {
        let setup = self.filled.setup;
        let start = setup.queue.start as usize;
        let counts = split.first.left;
        let own = JobsLeft::new(counts, split.first.index, setup.kinds());
        let rest = self.all.without(&own);
        let first = share_order(&self.filled, &own, &counts, start);
        let other = share_order(&self.filled, &rest, &self.all.left, self.second);
        Orders {
            first,
            second: other,
        }
    }
}
