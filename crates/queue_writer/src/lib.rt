// The queue message's writer.
#![tactic(auto, using(fields_writer::proofs::Writing::writing))]

ghost use Rattle.std.specs.Prelude.{◌≡◌, ◌≤◌, length};
ghost use mathlib.Core.List.{flat_map};
ghost use Rattle.number.specs.Outputs.{HasRoom, Writes};
ghost use Rattle.fields.specs.Fields.{within, all, encode_all};
ghost use Rattle.fields.specs.Lists.{tabulate};
ghost use Rattle.queue.specs.Record.{gap, pair_of, rows, weight_list, windows, window_ok, window_pairs};
ghost use Rattle.queue.specs.Writing.{encode_window, settings_bytes, head_bytes, message, judge_settings, judge_tables, judge_jobs, judge, write_queue, written_queue};
ghost use Rattle.queue.specs.Writer.{WritesQueue};
ghost use Rattle.queue_laws.proofs.Theorems.{judged_exactly, message_length};

use fields::{Held, check, is_within};
use fields_writer::{Judged, Message};
use number::Output;
use queue::{Queue, Window};
use refusal::Reason;

// Whether the values are all from `low` to `high`.
fn all_within<T: Held>(values: &[T], low: u64, high: u64) -> bool
    ensures { result ≡ all (within low high) (T.numbers values.now) }
{
    values
        .iter()
        .all(|value| is_within(value.number(), low, high))
}

// Whether the allowed places of every kind are places, in order.
fn judge_windows(windows: &[Window]) -> bool
    ensures { result ≡ all window_ok (window_pairs windows.now) }
{
    windows.iter().all(|window| queue::is_window(u64::from(window.first), u64::from(window.last)))
}

// The numbers before the gaps.
#[tactic(auto, using(crate::proofs::Records::four_written))]
fn write_settings(out: &mut Output, queue: &Queue)
    requires { HasRoom (settings_bytes queue.now) out.old }
    ensures { Writes (settings_bytes queue.now) out.old out.new }
{
    let settings = [queue.kinds, queue.goal, queue.max_shift, queue.start];
    fields_writer::write_run(out, &settings);
}

// The allowed places of one kind.
fn write_window(out: &mut Output, window: Window)
    requires { HasRoom (encode_window (pair_of window)) out.old }
    ensures { Writes (encode_window (pair_of window)) out.old out.new }
{
    out.number(u64::from(window.first));
    out.number(u64::from(window.last));
}

// The allowed places of every kind. No `write_run`: two numbers are written for each.
fn write_windows(out: &mut Output, windows: &[Window])
    requires { HasRoom (flat_map encode_window (window_pairs windows.now)) out.old }
    ensures { Writes (flat_map encode_window (window_pairs windows.now)) out.old out.new }
{
    for window in windows {
        write_window(out, *window);
    }
}

// The tables of a queue, which have room for its kinds.
#[derive(Clone, Copy)]
struct Tables<'a> {
    queue: &'a Queue,
    ghost few: { queue.now.kinds ≤ 5 },
}

impl<'a> Tables<'a> {
    fn kinds(&self) -> usize
        ensures { result ≡ self.now.queue.now.kinds }
    {
        // `as`: there is no `From<u32>` for `usize`.
        self.queue.kinds as usize
    }

    // The gaps after a kind, or after the cold cutter.
    #[tactic(auto, using(crate::proofs::Arrays::row_part))]
    fn gap_row(&self, row: usize) -> &'a [u32]
        requires { row ≤ self.now.queue.now.kinds }
        ensures { result.now ≡ tabulate (gap self.now.queue.now row) 1 self.now.queue.now.kinds }
    {
        let start = gaps::row_start(row);
        &self.queue.gaps[start..start + self.kinds()]
    }

    #[tactic(auto, using(crate::proofs::Arrays::weights_part))]
    fn weights(&self) -> &'a [u32]
        ensures { result.now ≡ weight_list self.now.queue.now }
    {
        &self.queue.weights[..self.kinds()]
    }

    #[tactic(auto, using(crate::proofs::Arrays::windows_part))]
    fn windows(&self) -> &'a [Window]
        ensures { window_pairs result.now ≡ windows self.now.queue.now }
    {
        &self.queue.windows[..self.kinds()]
    }

    // Whether the gaps of every row are small enough.
    fn judge_gaps(&self) -> bool
        ensures { result ≡ all (all (within 0 65536)) (rows self.now.queue.now) }
    {
        (0..=self.kinds()).all(|row| all_within(self.gap_row(row), 0, 65536))
    }

    // Refusals 9 to 11.
    #[tactic(auto, unfolding(queue::specs::Writing::judge_tables))]
    fn judge(&self) -> Result<(), Reason>
        ensures { result ≡ judge_tables self.now.queue.now }
    {
        check(self.judge_gaps(), Reason::Gap)?;
        check(all_within(self.weights(), 0, 1000), Reason::Pupils)?;
        check(judge_windows(self.windows()), Reason::Places)
    }

    // The gap rows.
    fn write_gaps(&self, out: &mut Output)
        requires { HasRoom (flat_map encode_all (rows self.now.queue.now)) out.old }
        ensures { Writes (flat_map encode_all (rows self.now.queue.now)) out.old out.new }
    {
        for row in 0..=self.kinds() {
            fields_writer::write_run(out, self.gap_row(row));
        }
    }

    // From the number of kinds to the allowed places.
    #[tactic(auto, using(fields_writer::proofs::Writing::writing, crate::proofs::Records::head_written))]
    fn write(&self, out: &mut Output)
        requires { HasRoom (head_bytes self.now.queue.now) out.old }
        ensures { Writes (head_bytes self.now.queue.now) out.old out.new }
    {
        write_settings(out, self.queue);
        self.write_gaps(out);
        fields_writer::write_run(out, self.weights());
        write_windows(out, self.windows());
    }
}

// Refusals 5 to 8.
#[tactic(auto, unfolding(queue::specs::Writing::judge_settings))]
fn judge_settings(queue: &Queue) -> Result<(), Reason>
    ensures { result ≡ judge_settings queue.now }
{
    let kinds = u64::from(queue.kinds);
    check(is_within(kinds, 1, 5), Reason::Kinds)?;
    check(is_within(u64::from(queue.goal), 1, 2), Reason::Goal)?;
    check(is_within(u64::from(queue.max_shift), 0, 60), Reason::Shift)?;
    check(is_within(u64::from(queue.start), 0, kinds), Reason::Start)
}

// Refusals 12 and 13.
#[tactic(auto, unfolding(queue::specs::Writing::judge_jobs))]
fn judge_jobs(queue: &Queue) -> Result<(), Reason>
    ensures { result ≡ judge_jobs queue.now }
{
    check(is_within(u64::from(queue.jobs), 0, 60), Reason::Jobs)?;
    let jobs = fields_writer::listed(&queue.job_kinds, queue.jobs);
    check(all_within(jobs, 1, u64::from(queue.kinds)), Reason::JobKind)
}

// A queue's message.
struct QueueMessage;

impl Message for QueueMessage {
    type Record = Queue;

    ghost bytes = { message };

    ghost can_write = { λ q. (q.kinds ≤ 5) × (q.jobs ≤ 60) };

    #[tactic(auto, using(fields_writer::proofs::Writing::writing, crate::proofs::Records::message_written))]
    fn write(out: &mut Output, queue: &Queue) {
        fields_writer::write_opening(out, b"QS");
        out.number(1);
        Tables { queue }.write(out);
        fields_writer::write_counted(out, fields_writer::listed(&queue.job_kinds, queue.jobs));
    }
}

impl Judged for QueueMessage {
    const LEAST: usize = 178;

    ghost LEAST = { 178 };

    ghost judge = { judge };

    // The record judged in message order.
    #[tactic(auto, using(queue_laws::proofs::Message::few_kinds), unfolding(queue::specs::Writing::judge, queue::specs::Writing::judge_head))]
    fn judge(queue: &Queue) -> Result<(), Reason> {
        judge_settings(queue)?;
        Tables { queue }.judge()?;
        judge_jobs(queue)
    }

    ghost accepted = { λ q e. let v = (judged_exactly q).0 e in ((v.kinds.1, v.jobs), message_length q v) };
}

// Writes a queue message: the number of its bytes, or the one refusal.
#[tactic(auto, using(queue_laws::proofs::Theorems::queue_writes), unfolding(queue::specs::Writing::write_queue, queue::specs::Writing::written_queue))]
pub fn write_queue(buffer: &mut [u8], queue: Queue) -> Result<usize, Reason>
    ensures value { result ≡ write_queue queue (length buffer.old) }
    ensures buffer_after { buffer.new ≡ written_queue queue buffer.old }
    ensures writes_queue { WritesQueue queue buffer.old buffer.new result }
{
    fields_writer::write_judged::<QueueMessage>(buffer, &queue)
}
