// The queue message's reader.
#![tactic(auto)]

ghost use Rattle.std.specs.Prelude.{◌≡◌, IfOk, map, ◌+◌, ◌≤◌, length};
ghost use Rattle.std.proofs.lemmas.List.Edits.{sets};
ghost use Rattle.number.specs.Readers.{times, behind};
ghost use Rattle.number.specs.Inputs.{Reads, answered};
ghost use Rattle.fields.specs.Fields.{field, within};
ghost use Rattle.fields.specs.Orders.{read_before};
ghost use Rattle.queue.specs.Reading.{held, window, placed, head, jobs, queue};
ghost use Rattle.queue_reader.specs.Arrays.{rows_before, held_window};

use number::Input;
use queue::{Queue, Window};
use refusal::Reason;

// The gap rows, each stored where it begins.
#[inline(always)]
fn read_gaps(input: &mut Input, kinds: usize, gaps: &mut [u32; 30]) -> Result<(), Reason>
    requires { kinds ≤ 5 }
    ensures value { Reads (λ s at. behind (times (kinds + 1) (times kinds (field 3 (within 0 65536) Reason.Gap)) s at)) input.old input.new result }
    ensures gaps_after { gaps.new ≡ placed gaps.old 0 (rows_before (kinds + 1) kinds (field 3 (within 0 65536) Reason.Gap) input.old.bytes.now input.old.at) }
{
    // No `chunks_mut(5)`: after it a proof knows the array's length, and none of its numbers.
    for row in 0..=kinds {
        let from = gaps::row_start(row);
        fields_reader::read_run(input, 0, 65536, Reason::Gap, &mut gaps[from..from + kinds])?;
    }
    Ok(())
}

// The allowed places of one kind: both numbers are read before they are judged.
fn read_window(input: &mut Input) -> Result<Window, Reason>
    ensures { Reads held_window input.old input.new result }
{
    let first = input.number(3)?;
    let last = input.number(3)?;
    fields::check(queue::is_window(first, last), Reason::Places)?;
    // Both are at most 60: `TryFrom` has an error that cannot come.
    Ok(Window {
        first: first as u8,
        last: last as u8,
    })
}

// The allowed places of so many kinds as `out` has room for. No `read_run`: two numbers are judged together.
#[inline(always)]
fn read_windows(input: &mut Input, out: &mut [Window]) -> Result<(), Reason>
    ensures value { Reads (λ s at. behind (times (length out.old) window s at)) input.old input.new result }
    ensures out_after { out.new ≡ sets out.old 0 (map held (read_before (length out.old) window input.old.bytes.now input.old.at)) }
{
    for window in out.iter_mut() {
        *window = read_window(input)?;
    }
    Ok(())
}

// N, goal, shift and start, the gaps, the weights and the allowed places: a queue without jobs.
// That N is at most 5 is a clause, here and at the jobs: definitions build the record, so its type cannot have a ghost field that keeps it.
#[tactic(auto, unfolding(queue::specs::Reading::settings, queue::specs::Reading::tables, queue::specs::Reading::head))]
fn read_head(input: &mut Input) -> Result<Queue, Reason>
    ensures value { Reads head input.old input.new result }
    ensures kinds { IfOk result (λ queue. queue.kinds ≤ 5) }
{
    let kinds = fields_reader::read_field(input, 1, 5, Reason::Kinds)?;
    let goal = fields_reader::read_field(input, 1, 2, Reason::Goal)?;
    let max_shift = fields_reader::read_field(input, 0, 60, Reason::Shift)?;
    let start = fields_reader::read_field(input, 0, kinds, Reason::Start)?;
    // `as`, here and for the jobs: there is no `From<u32>` for `usize`.
    let count = kinds as usize;
    let mut gaps = [0u32; 30];
    let mut weights = [0u32; 5];
    let mut windows = [Window { first: 0, last: 0 }; 5];
    read_gaps(input, count, &mut gaps)?;
    fields_reader::read_run(input, 0, 1000, Reason::Pupils, &mut weights[..count])?;
    read_windows(input, &mut windows[..count])?;
    Ok(Queue {
        kinds,
        goal,
        max_shift,
        start,
        gaps,
        weights,
        windows,
        jobs: 0,
        job_kinds: [0u8; 60],
    })
}

// The queue with its jobs. N is judged before; no type says so, as `read_head` tells.
#[tactic(auto, unfolding(queue::specs::Reading::jobs))]
fn read_jobs(input: &mut Input, queue: Queue) -> Result<Queue, Reason>
    requires { queue.kinds ≤ 5 }
    ensures { Reads (jobs queue) input.old input.new result }
{
    let jobs = fields_reader::read_field(input, 0, 60, Reason::Jobs)?;
    let mut job_kinds = [0u8; 60];
    fields_reader::read_run(
        input,
        1,
        queue.kinds,
        Reason::JobKind,
        &mut job_kinds[..jobs as usize],
    )?;
    Ok(Queue {
        jobs,
        job_kinds,
        ..queue
    })
}

// The record of a queue message, or the one refusal.
#[tactic(auto, unfolding(queue::specs::Reading::queue))]
pub fn read_queue(bytes: &[u8]) -> Result<Queue, Reason>
    ensures { result ≡ answered (queue bytes.now 0) }
{
    let mut input = Input { bytes, at: 0 };
    fields_reader::read_opening(&mut input, b"QS")?;
    fields_reader::read_field(&mut input, 1, 1, Reason::Edition)?;
    let head = read_head(&mut input)?;
    let queue = read_jobs(&mut input, head)?;
    fields_reader::read_end(&mut input)?;
    Ok(queue)
}
