// Gaps as a record's array holds them: where each stands, and the look-up, which gives seconds or never.
#![tactic(auto)]

ghost use Rattle.std.specs.Prelude.{◌≢◌, ◌≡◌, ◌^◌, ◌<◌, length};
ghost use Rattle.gaps.specs.declared.Gap.TheVariants.{Lasting, Never};
ghost use Rattle.gaps.specs.Gaps.{gap_row, gap_index, gap_between, has_never};

use units::Seconds;

// 02's gap: seconds, or never, where the succession is forbidden.
// Its own enum and no `Option`: never is a gap that is known, and `None` stands for what is not there, as the successor of the last job.
#[derive(Clone, Copy)]
pub enum Gap {
    Lasting(Seconds),
    Never,
}

// The number that records and messages write for never. It is compared and never counted with.
const NEVER: u32 = 65536;

// The gaps of a queue, and whether any is never, which a call finds out once.
#[derive(Clone, Copy)]
pub struct GapTable {
    pub numbers: [u32; 30],
    pub forbids: bool,
    pub ghost told: { forbids ≡ has_never numbers },
}

impl GapTable {
    pub fn new(numbers: [u32; 30]) -> GapTable
        ensures { result.numbers ≡ numbers }
    {
        GapTable {
            numbers,
            forbids: has_never(&numbers),
        }
    }
}

// Where the gaps of a row (a kind, or 0 for the cold cutter) begin.
pub fn row_start(row: usize) -> usize
    requires { gap_row row < 2 ^ 64 }
    ensures { result ≡ gap_row row }
{
    5 * row
}

// Where the gap from a row to a kind stands.
pub fn gap_index(row: usize, kind: usize) -> usize
    requires { gap_index row kind < 2 ^ 64 }
    ensures { result ≡ gap_index row kind }
{
    row_start(row) + kind.saturating_sub(1)
}

// Whether any gap is never.
#[tactic(auto, using(crate::proofs::Nevers::found_never))]
pub fn has_never(gaps: &[u32]) -> bool
    ensures { result ≡ has_never gaps.now }
{
    gaps.contains(&NEVER)
}

// The gap from a row to a kind. A kind of 0, or past N, gets the gap that stands where its own would.
pub fn gap_after(gaps: &[u32], row: usize, kind: usize) -> Gap
    requires { gap_index row kind < length gaps.now }
    ensures { result ≡ gap_between gaps.now row kind }
{
    match gaps[gap_index(row, kind)] {
        NEVER => Gap::Never,
        number => Gap::Lasting(Seconds(u64::from(number))),
    }
}

// The same where it is known not to be never: nothing is compared.
pub fn seconds_after(gaps: &[u32], row: usize, kind: usize) -> Seconds
    requires { (gap_index row kind < length gaps.now) × (gap_between gaps.now row kind ≢ Never) }
    ensures gap_value { gap_between gaps.now row kind ≡ Lasting result }
    ensures short { result.0 < 2 ^ 32 }
{
    Seconds(u64::from(gaps[gap_index(row, kind)]))
}
