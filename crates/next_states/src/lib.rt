// The next states of one k: where they stand in the table, what it holds for them, and the least over them from any row.
#![tactic(auto)]

ghost use Rattle.std.specs.Prelude.{◌≡◌, true, false, cond, ℕ, suc, min, ◌+◌, ◌^◌, ◌≤◌, ◌<◌, ltb, length};
ghost use Rattle.std.proofs.Math.Option.{none};
ghost use Rattle.units.specs.Costs.{number_of};
ghost use Rattle.gaps.specs.declared.Gap.TheVariants.{Lasting};
ghost use Rattle.gaps.specs.Gaps.{gap_between, has_never};
ghost use Rattle.sequencing.specs.Lists.{at};
ghost use Rattle.sequencing.specs.Problem.{Problem};
ghost use Rattle.sequencing.specs.States.{complete};
ghost use Rattle.sequencing.specs.Least.{plus_gap};
ghost use Rattle.sequencing.specs.Entries.{stored, number, k_at, block, entries};
ghost use Rattle.jobs_left.specs.Kinds.{factor, kind_at};
ghost use Rattle.next_states.specs.Numbers.{Blocks, Numbers, Steppable, Running, StepsOf};
ghost use Rattle.next_states.specs.NextStates.{loaded, answer, next_values, none_of, cost_by, least_next, Counted, Ready};

use gaps::{Gap, GapTable};
use jobs_left::{JobsLeft, StepWeight};
use layout::Layout;
use units::{Cost, PupilSeconds, Seconds};

// An entry that holds no value: the lent table is C's, of 64-bit numbers.
pub const NONE: u64 = 18446744073709551615;

// The least cost over the kinds, and the smallest kind that reaches it.
#[derive(Clone, Copy)]
pub struct Least {
    pub cost: Cost,
    pub kind: usize,
}

// A look from a row (a kind, or 0 for the cold cutter): the next states' entries, kind by kind, the gaps, and 01's W.
#[derive(Clone, Copy)]
pub struct Look<'a> {
    pub next: &'a [u64; 5],
    pub gaps: &'a GapTable,
    pub row: usize,
    pub weight: StepWeight,
    pub ghost ready: { Ready next.now gaps.now.numbers row (factor weight) },
}

// The value that an entry holds.
pub fn value_of(entry: u64) -> Option<u64>
    ensures { result ≡ answer (loaded entry) }
{
    (entry != NONE).then_some(entry)
}

// So much in the unit of W. `units::cost_in` goes by a goal.
fn cost_of(weight: StepWeight, number: u64) -> Cost
    ensures { result ≡ cost_by weight number }
{
    match weight {
        StepWeight::Seconds => Cost::InSeconds(Seconds(number)),
        StepWeight::Pupils(_) => Cost::InPupilSeconds(PupilSeconds(number)),
    }
}

// One step's cost and what comes after it, as an entry holds it, in the goal's own unit. No sum is larger than NONE, so that where nothing comes after it stands.
fn step_cost(weight: StepWeight, gap: Seconds, value: u64) -> Cost
    requires counted { Counted (loaded value) (Lasting gap) (factor weight) }
    requires short { gap.0 < 2 ^ 32 }
    ensures { result ≡ cost_by weight (stored (plus_gap (factor weight) (Lasting gap) (loaded value))) }
{
    match weight {
        StepWeight::Seconds => Cost::InSeconds(Seconds(gap.0.saturating_add(value))),
        StepWeight::Pupils(pupils) => {
            let step = gap.weighted(pupils);
            Cost::InPupilSeconds(PupilSeconds(step.0.saturating_add(value)))
        }
    }
}

// Whether no kind from x on (from 0) has a value, asked at 3, in one test: with three kinds or fewer a look then ends there. With FORBIDS it is asked at 4 too,
// where a kind that is not there would be compared with never first; without, three kinds took a twentieth longer by it.
fn none_past<const FORBIDS: bool>(next: &[u64; 5], x: usize) -> bool
    ensures { result ≡ true → (y : ℕ) → x < y → y ≤ 5 → loaded (at next.now y) ≡ none }
{
    if x != 3 {
        return FORBIDS && x == 4 && next[4] == NONE;
    }
    next[3] & next[4] == NONE
}

impl<'a> Look<'a> {
    // The better of the least so far (NONE of its unit where there is none) and kind x (from 1), the earlier where they are equal. Without a value of its next
    // state a kind changes nothing, nor does a kind that may not follow, which is asked only where anything is forbidden.
    #[inline(always)]
    fn lower<const FORBIDS: bool>(&self, best: Least, x: usize) -> Least
        requires kind_in { (1 ≤ x) × (x ≤ 5) }
        requires open { FORBIDS ≡ false → has_never self.now.gaps.now.numbers ≡ false }
        requires cost_value { (best.cost ≡ cost_by self.now.weight (number_of best.cost)) × (number_of best.cost < 2 ^ 64) }
        ensures cost_value_2 { result.cost ≡ cost_by self.now.weight (min (number_of best.cost) (stored (plus_gap (factor self.now.weight) (gap_between self.now.gaps.now.numbers self.now.row x) (loaded (at self.now.next.now x))))) }
        ensures kind_value { result.kind ≡ cond (ltb (stored (plus_gap (factor self.now.weight) (gap_between self.now.gaps.now.numbers self.now.row x) (loaded (at self.now.next.now x)))) (number_of best.cost)) x best.kind }
    {
        let gaps = &self.gaps.numbers;
        if FORBIDS {
            if let Gap::Never = gaps::gap_after(gaps, self.row, x) {
                return best;
            }
        }
        let gap = gaps::seconds_after(gaps, self.row, x);
        // Whether there is a value is not asked: small queues took a tenth longer where each entry of this loop was.
        let cost = step_cost(self.weight, gap, self.next[x - 1]);
        if cost.less(best.cost) {
            Least { cost, kind: x }
        } else {
            best
        }
    }

    // The least. Without FORBIDS no gap is compared with never, and none may be one. Five places are looked at, NONE where there is no kind: a loop of a fixed
    // length is unrolled.
    #[inline(always)]
    pub fn least_by<const FORBIDS: bool>(&self) -> Option<Least>
        requires { FORBIDS ≡ false → has_never self.now.gaps.now.numbers ≡ false }
        ensures { result ≡ least_next self.now.next.now self.now.gaps.now.numbers self.now.row self.now.weight }
    {
        let mut best = Least {
            cost: cost_of(self.weight, NONE),
            kind: 0,
        };
        for x in 0..5 {
            if none_past::<FORBIDS>(self.next, x) {
                break;
            }
            best = self.lower::<FORBIDS>(best, x + 1);
        }
        (best.cost.number() != NONE).then_some(best)
    }

    // The least over the next states that may follow. Most queues forbid nothing, and then nothing is compared with never.
    // Within the filling loop: a call for each state made planning half as slow again.
    #[inline(always)]
    pub fn least(&self) -> Option<Least>
        ensures { result ≡ least_next self.now.next.now self.now.gaps.now.numbers self.now.row self.now.weight }
    {
        if self.gaps.forbids {
            return self.least_by::<true>();
        }
        self.least_by::<false>()
    }
}

// Whether no next state has a value, as where nothing is left.
pub fn none_next(next: &[u64; 5]) -> bool
    ensures { result ≡ none_of next.now }
{
    next.iter().all(|entry| *entry == NONE)
}

// 01's entry of (L; k), L from 0: the running number, and L's block added.
#[tactic(auto, using(crate::proofs::Numbers::state_number))]
pub fn state_entry(layout: &Layout, index: usize, kind: usize) -> usize
    requires { (kind < 5) × (index + (kind_at layout.now.kinds (suc kind)).block < 2 ^ 64) }
    ensures { (P : Problem) → Blocks P layout.now → index < block P → kind < P.N → result ≡ number P (suc kind) (k_at P index) }
{
    index + layout.kinds[kind].block
}

// 01's entry of the next state by way of kind x (from 0): x's weight taken off the running number, and x's block added.
#[tactic(auto, using(crate::proofs::Numbers::next_number))]
fn next_entry(layout: &Layout, index: usize, x: usize) -> usize
    requires { Steppable layout.now.kinds index x }
    ensures { (P : Problem) → Numbers P layout.now → index < block P → 0 < at (k_at P index) (suc x) → result ≡ number P (suc x) (complete (k_at P index) (suc x)) }
{
    index - layout.kinds[x].stride + layout.kinds[x].block
}

// For each kind 02's weight taken off and block added, as one number that 64 bits add.
pub fn steps(layout: &Layout) -> [usize; 5]
    ensures { StepsOf layout.now result }
{
    layout
        .kinds
        .map(|kind| kind.block.wrapping_sub(kind.stride))
}

// The next states' entries, kind by kind, NONE where no job of a kind is left: read once for all states with one k.
// That k runs along with a problem is asked here and not kept by a type, which would have to name the problem: no plainer.
pub fn load_next(layout: &Layout, table: &[u64], k: &JobsLeft) -> [u64; 5]
    requires { (P : Problem) × (Running P layout.now k.now × (entries P ≤ length table.now)) }
    ensures { (P : Problem) → Running P layout.now k.now → result ≡ next_values P table.now (k_at P k.now.index) }
{
    let mut next = [NONE; 5];
    // By the kind's number, which its entry goes by too.
    for x in 0..5 {
        if k.left[x] != 0 {
            next[x] = table[next_entry(layout, k.index, x)];
        }
    }
    next
}

// The same by such steps, which filling has made once for every k.
pub fn load_next_by(steps: &[usize; 5], table: &[u64], k: &JobsLeft) -> [u64; 5]
    requires { (P : Problem) × ((l : Layout) × (Running P l k.now × (StepsOf l steps.now × (entries P ≤ length table.now)))) }
    ensures { (P : Problem) (l : Layout) → Running P l k.now → StepsOf l steps.now → entries P ≤ length table.now → result ≡ next_values P table.now (k_at P k.now.index) }
{
    let mut next = [NONE; 5];
    // The loop of `load_next` but for the sum: a weight and a block read for each k and kind were a twentieth of the instructions where few states have a value.
    // `load_next` promises of any problem, also of one that the table is too short for, which is asked here: so it is no call of this.
    for x in 0..5 {
        if k.left[x] != 0 {
            next[x] = table[k.index.wrapping_add(steps[x])];
        }
    }
    next
}

// The least over the next states after row, by the table. Asked of k as in `load_next`, for the same reason.
pub fn best_next(
    layout: &Layout,
    table: &[u64],
    k: &JobsLeft,
    row: usize,
    weight: StepWeight,
) -> Option<Least>
    requires { (P : Problem) × (Running P layout.now k.now × ((entries P ≤ length table.now) × Ready (next_values P table.now (k_at P k.now.index)) layout.now.gaps.numbers row (factor weight))) }
    ensures { (P : Problem) → Running P layout.now k.now → result ≡ least_next (next_values P table.now (k_at P k.now.index)) layout.now.gaps.numbers row weight }
{
    let next = load_next(layout, table, k);
    let look = Look {
        next: &next,
        gaps: &layout.gaps,
        row,
        weight,
    };
    look.least()
}
