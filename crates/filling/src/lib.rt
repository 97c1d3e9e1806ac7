// Filling the table of a queue: every state's value, and how many states are feasible.
#![tactic(auto)]

ghost use Rattle.std.specs.Prelude.{◌≡◌, true, false, ℕ, suc, ◌+◌, ◌-◌, ◌^◌, ◌≤◌, ◌<◌, length, get_or, set};
ghost use Rattle.gaps.specs.Gaps.{has_never};
ghost use Rattle.std.proofs.Math.Option.{Option as OrNone, some};
ghost use Rattle.sequencing.specs.Least.{only};
ghost use Rattle.sequencing.specs.Entries.{stored, block, entries, FilledTable};
ghost use Rattle.sequencing.specs.Counts.{valued, feasible_states};
ghost use Rattle.problem.specs.OfQueue.{problem};
ghost use Rattle.jobs_left.specs.Kinds.{kind_at, step_of, factor};
ghost use Rattle.jobs_left.specs.Steps.{LeftAt};
ghost use Rattle.next_states.specs.Numbers.{StepsOf};
ghost use Rattle.next_states.specs.NextStates.{answer, none_of};
ghost use Rattle.filling.specs.Filling.{value_by, Answers, StatesStored, in_place, next_of, Fillable, KStored};

use jobs_left::{JobsLeft, StepWeight};
use layout::Setup;
use next_states::Look;

// A queue's lent table, long enough for its entries.
#[derive(Drop)]
pub struct Lent<'a> {
    pub setup: &'a Setup,
    pub table: &'a mut [u64],
    pub ghost room: { entries (problem setup.now.queue) ≤ length table.now },
}

// Whether the job of a kind (from 0) that was just cut may stand at a place, told by its bit. That a kind is below 5, here and elsewhere, is the bound of an
// index: a type for it would be no plainer.
fn is_permitted(setup: &Setup, k: &JobsLeft, places: &[u64; 65], here: u64, kind: usize) -> bool
    requires { (kind < 5) × ((kind_at setup.now.layout.kinds (suc kind)).slot + get_or k.now.left kind 0 < 65) }
    ensures { result ≡ in_place k.now.left setup.now.layout.kinds places.now here (suc kind) }
{
    // No `From` makes a `usize` of 32 bits.
    let slot = setup.layout.kinds[kind].slot + k.left[kind] as usize;
    0 < places[slot] & here
}

// The value of one state with jobs left, by a look from its kind: none where it is not feasible.
#[inline(always)]
fn state_value<const FORBIDS: bool>(look: &Look, permitted: bool) -> Option<u64>
    requires { FORBIDS ≡ false → has_never look.now.gaps.now.numbers ≡ false }
    ensures { result ≡ answer (value_by look.now.next.now look.now.gaps.now.numbers (factor look.now.weight) permitted look.now.row) }
{
    if !permitted {
        return None;
    }
    let least = look.least_by::<FORBIDS>()?;
    Some(least.cost.number())
}

// The value of one state with nothing left: 0, none where its job may not stand there.
fn last_value(permitted: bool) -> Option<u64>
    ensures { result ≡ answer (only permitted (some 0)) }
{
    permitted.then_some(0)
}

// Stores an entry; returns how many values it holds.
fn store_value(table: &mut [u64], entry: usize, value: Option<u64>) -> u64
    requires { entry < length table.old }
    ensures stored { (v : OrNone ℕ) → value ≡ answer v → (table.new ≡ set table.old entry (stored v)) × (result ≡ valued v) }
    ensures few { result ≤ 1 }
{
    match value {
        Some(found) => {
            table[entry] = found;
            1
        }
        None => {
            table[entry] = next_states::NONE;
            0
        }
    }
}

// The place of the jobs just cut, as a bit: one place earlier where one job more is left, which most steps do; else it is shifted anew.
fn place_after(here: u64, one_more: bool, jobs: u32, total: u32) -> u64
    requires earlier { one_more ≡ true → (1 ≤ jobs) × (here ≡ 2 ^ (total - (jobs - 1))) }
    requires within { (jobs ≤ total) × (total < 64) }
    ensures { result ≡ 2 ^ (total - jobs) }
{
    if one_more {
        return here / 2;
    }
    layout::place_bit(total - jobs)
}

impl<'a> Lent<'a> {
    ghost use Rattle.filling.specs.Lending.{SameLoan};

    // Stores the entries of all states with one k, whose value a function of the kind (from 0) gives; returns how many of them hold one.
    fn store_states<F: Fn(usize) -> Option<u64>>(
        &mut self,
        setup: &Setup,
        index: usize,
        value: F,
    ) -> u64
        requires lent { setup.now ≡ self.old.setup.now }
        requires in_table { index < block (problem setup.now.queue) }
        requires callable { (x : ℕ) → x < setup.now.queue.kinds → F.pre value x }
        ensures loan { SameLoan self.old self.new }
        ensures stored { (f : ℕ → OrNone ℕ) → Answers setup.now.queue.kinds (F.post value) f → StatesStored (problem setup.now.queue) f self.old.table.now index self.new.table.now result }
    {
        let layout = &setup.layout;
        // The loop writes to the table alone: nothing else of the loan is looked at again.
        let table = &mut *self.table;
        // Counts what is found, and is no index.
        let mut feasible: u64 = 0;
        for kind in 0..layout.size.kinds {
            let entry = next_states::state_entry(layout, index, kind);
            feasible += store_value(table, entry, value(kind));
        }
        feasible
    }

    // Stores the entries of all states with one k, each by a look from its kind. `store_states` written out: a closure within four copies of it stays a call.
    #[inline(always)]
    fn store_values_by<const FORBIDS: bool>(
        &mut self,
        setup: &Setup,
        k: &JobsLeft,
        places: &[u64; 65],
        here: u64,
        next: &[u64; 5],
        weight: StepWeight,
    ) -> u64
        requires lent { setup.now ≡ self.old.setup.now }
        requires open { FORBIDS ≡ false → has_never setup.now.layout.gaps.numbers ≡ false }
        requires fillable { Fillable setup.now.queue self.old.table.now k.now }
        requires looks { (next.now ≡ next_of setup.now.queue self.old.table.now k.now) × (weight ≡ step_of setup.now.queue.goal k.now.weight) }
        requires found { none_of next.now ≡ false }
        ensures loan { SameLoan self.old self.new }
        ensures stored { KStored setup.now self.old.table.now k.now places.now here self.new.table.now result }
    {
        let layout = &setup.layout;
        // The loop writes to the table alone: nothing else of the loan is looked at again.
        let table = &mut *self.table;
        // Counts what is found, and is no index.
        let mut feasible: u64 = 0;
        for kind in 0..layout.size.kinds {
            let entry = next_states::state_entry(layout, k.index, kind);
            let permitted = is_permitted(setup, k, places, here, kind);
            let look = Look {
                next,
                gaps: &layout.gaps,
                row: kind + 1,
                weight,
            };
            feasible += store_value(table, entry, state_value::<FORBIDS>(&look, permitted));
        }
        feasible
    }

    // The same, where whether any gap is never is told once for all states with one k.
    #[inline(always)]
    fn store_values(
        &mut self,
        setup: &Setup,
        k: &JobsLeft,
        places: &[u64; 65],
        here: u64,
        next: &[u64; 5],
        weight: StepWeight,
    ) -> u64
        requires lent { setup.now ≡ self.old.setup.now }
        requires fillable { Fillable setup.now.queue self.old.table.now k.now }
        requires looks { (next.now ≡ next_of setup.now.queue self.old.table.now k.now) × (weight ≡ step_of setup.now.queue.goal k.now.weight) }
        requires found { none_of next.now ≡ false }
        ensures loan { SameLoan self.old self.new }
        ensures stored { KStored setup.now self.old.table.now k.now places.now here self.new.table.now result }
    {
        if setup.layout.gaps.forbids {
            return self.store_values_by::<true>(setup, k, places, here, next, weight);
        }
        self.store_values_by::<false>(setup, k, places, here, next, weight)
    }

    // The next states' entries, kind by kind.
    fn next_entries(&self, steps: &[usize; 5], k: &JobsLeft) -> [u64; 5]
        requires left_at { LeftAt (problem self.now.setup.now.queue) k.now.left k.now.index }
        requires steps { StepsOf self.now.setup.now.layout steps.now }
        ensures { result ≡ next_of self.now.setup.now.queue self.now.table.now k.now }
    {
        next_states::load_next_by(steps, self.table, k)
    }

    // Fills the entries of all states with one k; returns how many of them hold a value. Where no next state has one, no state has, and neither places nor gaps
    // are looked at: with a small shift that is nearly every k.
    fn fill_states(
        &mut self,
        setup: &Setup,
        steps: &[usize; 5],
        k: &JobsLeft,
        places: &[u64; 65],
        here: u64,
    ) -> u64
        requires lent { setup.now ≡ self.old.setup.now }
        requires fillable { Fillable setup.now.queue self.old.table.now k.now }
        requires steps { StepsOf setup.now.layout steps.now }
        ensures loan { SameLoan self.old self.new }
        ensures stored { KStored setup.now self.old.table.now k.now places.now here self.new.table.now result }
    {
        let next = self.next_entries(steps, k);
        if next_states::none_next(&next) {
            if k.jobs == 0 {
                return self.store_states(setup, k.index, |kind| {
                    last_value(is_permitted(setup, k, places, here, kind))
                });
            }
            return self.store_states(setup, k.index, |_| None);
        }
        // Each unit has a copy of the loop, so that no state asks which it is.
        match k.step_weight(setup.queue.goal) {
            StepWeight::Seconds => {
                self.store_values(setup, k, places, here, &next, StepWeight::Seconds)
            }
            StepWeight::Pupils(pupils) => {
                self.store_values(setup, k, places, here, &next, StepWeight::Pupils(pupils))
            }
        }
    }

    // Fills the table with every state's value; returns how many states are feasible.
    pub fn fill(&mut self) -> u64
        ensures loan { SameLoan self.old self.new }
        ensures filled_table { FilledTable (problem self.old.setup.now.queue) self.old.table.now self.new.table.now }
        ensures value { result ≡ feasible_states (problem self.old.setup.now.queue) }
    {
        let setup = self.setup;
        let size = setup.layout.size;
        // Once a call, as the setup beside the loan: what is read anew behind each store takes longer.
        let kinds = setup.kinds();
        let steps = next_states::steps(&setup.layout);
        let mut places = [0u64; 65];
        setup.place_sets(&mut places);
        let mut k = JobsLeft::none();
        let mut here = layout::place_bit(size.jobs);
        let mut feasible: u64 = 0;
        for _ in 0..size.block {
            feasible += self.fill_states(setup, &steps, &k, &places, here);
            let one_more = k.step(kinds);
            here = place_after(here, one_more, k.jobs, size.jobs);
        }
        feasible
    }
}
