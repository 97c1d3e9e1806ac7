// The queue message: its record. Its reader is `queue_reader`, its writer `queue_writer`.
#![tactic(auto)]

ghost use Rattle.std.specs.Prelude.{◌≡◌};
ghost use Rattle.queue.specs.Record.{window_ok, Valid};

// The places allowed to a kind: 01's a_j and b_j.
#[derive(Clone, Copy, Debug, PartialEq, Eq)]
pub struct Window {
    pub first: u8,
    pub last: u8,
}

// A queue. Numbers are wider than their bounds, so that each of the writer's refusals is a condition on a record.
// Arrays have room for the most, with N and T beside them: memory is fixed, and there is no heap.
// Kinds, jobs and places count from 1; what stands past `kinds` and `jobs` means nothing, and is 0 in a record that was read.
#[derive(Clone, Copy)]
pub struct Queue {
    // 01's N.
    pub kinds: u32,
    // 1: makespan (last finish); 2: weighted completion time (total waiting). A number, since refusal 6 is one of those conditions.
    pub goal: u32,
    // 01's shift m.
    pub max_shift: u32,
    // 0 for a cold cutter, else the kind cut last.
    pub start: u32,
    // gap(i, j) stands where `gaps` says: seconds, or 65536 for never.
    pub gaps: [u32; 30],
    // Pupils waiting for one job of each kind.
    pub weights: [u32; 5],
    // The places allowed to each kind.
    pub windows: [Window; 5],
    // 01's T.
    pub jobs: u32,
    // The kind of each job, by hand-in.
    pub job_kinds: [u8; 60],
}

// A queue within the bounds of 01's checks, as an accepted message has it.
#[derive(Clone, Copy)]
pub struct ValidQueue {
    pub queue: Queue,
    pub ghost valid: { Valid queue },
}

// Whether a kind may be allowed these places.
pub fn is_window(first: u64, last: u64) -> bool
    ensures { result ≡ window_ok (first, last) }
{
    fields::is_within(first, 1, last) && last <= 60
}
