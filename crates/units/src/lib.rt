// The two measures, which never meet in a sum or a comparison: times in seconds, and pupil-seconds, a weight times seconds.
#![tactic(auto)]

ghost use Rattle.std.specs.Prelude.{◌≡◌, ◌+◌, ◌*◌, ◌%◌, ◌^◌, ◌<◌, ltb};
ghost use Rattle.units.specs.Costs.{cost_in, number_of, in_seconds, together};

use std::ops::Add;

// Seconds: gaps, finishes and the cost under goal 1.
#[derive(Clone, Copy, Debug, PartialEq, Eq, PartialOrd, Ord)]
pub struct Seconds(pub u64);

// Pupil-seconds: the cost under goal 2.
#[derive(Clone, Copy, Debug, PartialEq, Eq, PartialOrd, Ord)]
pub struct PupilSeconds(pub u64);

// A cost in its goal's own unit: one of two, which never meet in a comparison, so it has no `Ord`.
#[derive(Clone, Copy)]
pub enum Cost {
    InSeconds(Seconds),
    InPupilSeconds(PupilSeconds),
}

impl Seconds {
    // What so many pupils wait together for that long: a product of 32 bits, which every processor multiplies out by itself. Two factors of 16 bits lose nothing;
    // a longer gap may be asked for where nothing comes of it.
    pub fn weighted(self, weight: u64) -> PupilSeconds
        requires { (weight < 2 ^ 32) × (self.0 < 2 ^ 32) }
        ensures { result.0 ≡ weight * self.0 % 2 ^ 32 }
    {
        PupilSeconds(u64::from((weight as u32).wrapping_mul(self.0 as u32)))
    }
}

// Each unit has its own sum, since the two never meet; no macro may write an impl.
impl Add for Seconds {
    type Output = Seconds;

    ghost can_add = { λ a b. a.0 + b.0 < 2 ^ 64 };

    ghost add_gives = { λ a b sum. sum.0 ≡ a.0 + b.0 };

    fn add(self, other: Seconds) -> Seconds {
        Seconds(self.0 + other.0)
    }
}

impl Add for PupilSeconds {
    type Output = PupilSeconds;

    ghost can_add = { λ a b. a.0 + b.0 < 2 ^ 64 };

    ghost add_gives = { λ a b sum. sum.0 ≡ a.0 + b.0 };

    fn add(self, other: PupilSeconds) -> PupilSeconds {
        PupilSeconds(self.0 + other.0)
    }
}

impl Cost {
    // The number alone, as a table's entry or a plan holds it.
    pub fn number(self) -> u64
        ensures { result ≡ number_of self }
    {
        match self {
            Cost::InSeconds(seconds) => seconds.0,
            Cost::InPupilSeconds(pupil_seconds) => pupil_seconds.0,
        }
    }

    // Whether this is the less of two costs in one unit.
    pub fn less(self, other: Cost) -> bool
        requires { in_seconds self ≡ in_seconds other }
        ensures { result ≡ ltb (number_of self) (number_of other) }
    {
        match (self, other) {
            (Cost::InSeconds(a), Cost::InSeconds(b)) => a < b,
            (Cost::InPupilSeconds(a), Cost::InPupilSeconds(b)) => a < b,
            _ => unreachable!(),
        }
    }

    // What two cutters' costs in one unit come to: the later in seconds, the sum in pupil-seconds.
    pub fn together(self, other: Cost) -> Cost
        requires { (in_seconds self ≡ in_seconds other) × (number_of self + number_of other < 2 ^ 64) }
        ensures { result ≡ together self other }
    {
        match (self, other) {
            (Cost::InSeconds(a), Cost::InSeconds(b)) => Cost::InSeconds(a.max(b)),
            (Cost::InPupilSeconds(a), Cost::InPupilSeconds(b)) => Cost::InPupilSeconds(a + b),
            _ => unreachable!(),
        }
    }
}

// So many of the goal's own unit. Any number may be asked for as the goal: a narrower type would ask more of callers.
pub fn cost_in(goal: u32, number: u64) -> Cost
    ensures { result ≡ cost_in goal number }
{
    if goal == 1 {
        Cost::InSeconds(Seconds(number))
    } else {
        Cost::InPupilSeconds(PupilSeconds(number))
    }
}
