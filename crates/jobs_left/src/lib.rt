// The jobs left: their weight, 01's W, and stepping through all k in the table's order.
#![tactic(auto)]

ghost use Rattle.std.specs.Prelude.{◌≡◌, true, ltb, ℕ, ◌+◌, ◌-◌, ◌*◌, ◌^◌, ◌≤◌, ◌<◌, length, get_or, set, take, drop, replicate};
ghost use Rattle.jobs_left.specs.Kinds.{counts_of, weights_of, step_of};
ghost use Rattle.jobs_left.specs.Steps.{next, Summed};

// A kind of the queue as the table counts it.
#[derive(Clone, Copy)]
pub struct Kind {
    // 01's K_j, and the pupils waiting for one job.
    pub count: u32,
    pub weight: u32,
    // 02's weight and block: what one job counts for in an entry number, and where the kind's entries begin.
    pub stride: usize,
    pub block: usize,
    // Where the kind's jobs begin among all jobs, and its slots among all slots.
    pub begin: usize,
    pub slot: usize,
}

// One k with what is known of it: the jobs left of each of five kinds (memory is fixed), its part of the entry number, how many these are, and their weight.
#[derive(Clone, Copy)]
pub struct JobsLeft {
    pub left: [u32; 5],
    pub index: usize,
    pub jobs: u32,
    pub weight: u64,
}

// 01's W in the goal's unit: each second of a gap counts once under goal 1, and under goal 2 for each of the pupils.
// Its own enum and no `Option`: under goal 1 no weight is missing.
#[derive(Clone, Copy)]
pub enum StepWeight {
    Seconds,
    Pupils(u64),
}

impl JobsLeft {
    // No jobs left, as the table begins.
    pub fn none() -> JobsLeft
        ensures { result ≡ record { left = replicate 5 0; index = 0; jobs = 0; weight = 0 } }
    {
        JobsLeft {
            left: [0; 5],
            index: 0,
            jobs: 0,
            weight: 0,
        }
    }

    // These jobs left, whose index is known: counted and weighed.
    pub fn new(left: [u32; 5], index: usize, kinds: &[Kind]) -> JobsLeft
        requires left_small { (j : ℕ) → j < length kinds.now → get_or left j 0 ≤ 60 }
        requires weights_small { (j : ℕ) → j < length kinds.now → get_or (weights_of kinds.now) j 0 ≤ 1000 }
        ensures left_value { result.left ≡ left }
        ensures index_value { result.index ≡ index }
        ensures summed { Summed (weights_of kinds.now) (take (length kinds.now) left) result.jobs result.weight }
    {
        let mut jobs: u32 = 0;
        let mut weight: u64 = 0;
        for (n, kind) in left.iter().zip(kinds) {
            jobs += *n;
            weight += u64::from(*n * kind.weight);
        }
        JobsLeft {
            left,
            index,
            jobs,
            weight,
        }
    }

    // 01's W before one of them is completed. Any number may be asked as a goal: a narrower type would ask more of callers.
    pub fn step_weight(&self, goal: u32) -> StepWeight
        ensures { result ≡ step_of goal self.now.weight }
    {
        if goal == 1 {
            return StepWeight::Seconds;
        }
        StepWeight::Pupils(self.weight)
    }

    // The counts of the next k with a carry: kinds that have all their jobs left start again, and the first that has not gets one more.
    // What `step` and this ask ties a k to the kinds, which stand in no k: no type keeps it. At most five kinds is the bound of an index.
    fn carry(&mut self, kinds: &[Kind])
        requires few { length kinds.now ≤ 5 }
        requires summed { Summed (weights_of kinds.now) (take (length kinds.now) self.old.left) self.old.jobs self.old.weight }
        requires small { (self.old.jobs < 2 ^ 31) × (self.old.weight < 2 ^ 31) }
        ensures left_after { take (length kinds.now) self.new.left ≡ next (counts_of kinds.now) (take (length kinds.now) self.old.left) }
        ensures left_unchanged { drop (length kinds.now) self.new.left ≡ drop (length kinds.now) self.old.left }
        ensures summed_after { Summed (weights_of kinds.now) (take (length kinds.now) self.new.left) self.new.jobs self.new.weight }
        ensures index_value { self.new.index ≡ self.old.index }
    {
        // By the kind's number: what a zip over `iter_mut` writes is not known behind the loop, and the proof did not close.
        for (j, kind) in kinds.iter().enumerate() {
            let n = self.left[j];
            if n < kind.count {
                self.left[j] = n + 1;
                self.jobs += 1;
                self.weight += u64::from(kind.weight);
                return;
            }
            self.jobs -= n;
            self.weight -= u64::from(n * kind.weight);
            self.left[j] = 0;
        }
    }

    // Steps to the k whose index is one more. Most steps add one job of the first kind, which is answered; the others carry.
    pub fn step(&mut self, kinds: &[Kind]) -> bool
        requires few { length kinds.now ≤ 5 }
        requires summed { Summed (weights_of kinds.now) (take (length kinds.now) self.old.left) self.old.jobs self.old.weight }
        requires small { (self.old.jobs < 2 ^ 31) × ((self.old.weight < 2 ^ 31) × (self.old.index < 2 ^ 63)) }
        ensures left_after { take (length kinds.now) self.new.left ≡ next (counts_of kinds.now) (take (length kinds.now) self.old.left) }
        ensures left_unchanged { drop (length kinds.now) self.new.left ≡ drop (length kinds.now) self.old.left }
        ensures summed_after { Summed (weights_of kinds.now) (take (length kinds.now) self.new.left) self.new.jobs self.new.weight }
        ensures index_value { self.new.index ≡ self.old.index + 1 }
        ensures first_value { result ≡ ltb (get_or self.old.left 0 0) (get_or (counts_of kinds.now) 0 0) }
        ensures first_added { result ≡ true → self.new.jobs ≡ self.old.jobs + 1 }
    {
        self.index += 1;
        if let Some(first) = kinds.first() {
            if self.left[0] < first.count {
                self.left[0] += 1;
                self.jobs += 1;
                self.weight += u64::from(first.weight);
                return true;
            }
        }
        self.carry(kinds);
        false
    }

    // One job of kind x (from 0) is completed.
    pub fn complete(&mut self, x: usize, kind: &Kind)
        requires { (x < 5) × ((1 ≤ get_or self.old.left x 0) × ((1 ≤ self.old.jobs) × ((kind.now.stride ≤ self.old.index) × (kind.now.weight ≤ self.old.weight)))) }
        ensures { self.new ≡ record { left = set self.old.left x (get_or self.old.left x 0 - 1); index = self.old.index - kind.now.stride; jobs = self.old.jobs - 1; weight = self.old.weight - kind.now.weight } }
    {
        self.left[x] -= 1;
        self.index -= kind.stride;
        self.jobs -= 1;
        self.weight -= u64::from(kind.weight);
    }

    // What is left beside another k: of each kind so many more, which the index and the sums count too.
    pub fn without(&self, other: &JobsLeft) -> JobsLeft
        requires left_within { (j : ℕ) → j < 5 → get_or other.now.left j 0 ≤ get_or self.now.left j 0 }
        requires sums_within { (other.now.index ≤ self.now.index) × ((other.now.jobs ≤ self.now.jobs) × (other.now.weight ≤ self.now.weight)) }
        ensures left_value { (j : ℕ) → j < 5 → get_or result.left j 0 ≡ get_or self.now.left j 0 - get_or other.now.left j 0 }
        ensures index_value { result.index ≡ self.now.index - other.now.index }
        ensures jobs_value { result.jobs ≡ self.now.jobs - other.now.jobs }
        ensures weight_value { result.weight ≡ self.now.weight - other.now.weight }
    {
        let mut rest = *self;
        // By the kind's number, as in `carry`: a zip over `iter_mut` does not prove.
        for (j, left) in rest.left.iter_mut().enumerate() {
            *left -= other.left[j];
        }
        rest.index = self.index - other.index;
        rest.jobs = self.jobs - other.jobs;
        rest.weight = self.weight - other.weight;
        rest
    }
}
