// The plan message: its record. Its reader is `plan_reader`, its writer `plan_writer`.
#![tactic(auto)]

// A plan. Numbers are wider than their bounds, so that each of the writer's refusals is a condition on a record.
// The array has room for the most jobs, with T beside it: memory is fixed, and there is no heap.
// Jobs and places count from 1; what stands past `jobs` means nothing, and is 0 in a record that was read.
#[derive(Clone, Copy)]
pub struct Plan {
    // 1: makespan (last finish); 2: weighted completion time (total waiting). A number, since refusal 6 is one of those conditions.
    pub goal: u32,
    // Seconds under goal 1, pupil-seconds under goal 2.
    pub cost: u64,
    // 01's kept count.
    pub feasible_states: u64,
    // 01's T.
    pub jobs: u32,
    // The job at each place.
    pub order: [u8; 60],
}
