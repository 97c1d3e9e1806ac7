// The split plan's message: its record. It is written only; its writer is `split_writer`.
#![tactic(auto)]

// The jobs of one cutter. Jobs have the numbers of the queue's message, and places count from 1; what stands past `jobs` means nothing.
// The array has room for the most jobs, with their number beside it: memory is fixed, and there is no heap.
#[derive(Clone, Copy)]
pub struct Cutter {
    // 02's count.
    pub jobs: u32,
    // The job at each place.
    pub order: [u8; 60],
}

// A split plan.
#[derive(Clone, Copy)]
pub struct SplitPlan {
    // 1: the later of the two last finishes; 2: the sum of both costs. A number, as in the queue's record.
    pub goal: u32,
    // Seconds under goal 1, pupil-seconds under goal 2.
    pub cost: u64,
    pub first: Cutter,
    pub second: Cutter,
}
