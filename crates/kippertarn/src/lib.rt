// The C entries. All but the version answer R + 256 * V: R is 0 or the refusal, V the bytes of the written plan, the number that was asked for, the needed
// entries for 16, else 0.
#![tactic(auto)]

ghost use Rattle.std.specs.Prelude.{◌≡◌, ◌^◌, ◌<◌};
ghost use Rattle.refusal.specs.Reasons.{needed};
ghost use Rattle.refusal.specs.Answers.{refusal_number, verdict_number, answer_number, entries_number, most_number};
ghost use Rattle.queue.specs.Reading.{read_queue};
ghost use Rattle.plan.specs.Reading.{read_plan};
ghost use Rattle.best_order.specs.Endings.{answer_of};
ghost use Rattle.best_order.specs.Planning.{ending_on, Planning};
ghost use Rattle.best_split.specs.Endings.{split_ending_on};
ghost use Rattle.best_split.specs.Splitting.{Splitting};
ghost use Rattle.table_size.specs.Sizes.{table_size};
ghost use Rattle.table_size.specs.Sizing.{Sizing};
ghost use Rattle.kippertarn.specs.Version.{version};

use refusal::Reason;

// The entries that the reason for 16 holds, else 0: V of the C interface, where an `Option` would only be unwrapped.
fn needed_entries(reason: Reason) -> u64
    ensures { result ≡ needed reason }
{
    match reason {
        Reason::Table(entries) => entries,
        _ => 0,
    }
}

// R + 256 * V of a refusal. This and the next are no `From`: the number is the C interface's alone.
fn refusal_number(reason: Reason) -> u64
    requires { refusal_number reason < 2 ^ 64 }
    ensures { result ≡ refusal_number reason }
{
    reason.number() + 256 * needed_entries(reason)
}

// R + 256 * V of an answer, V being the number that it holds.
fn answer_number(answer: Result<u64, Reason>) -> u64
    requires { answer_number answer < 2 ^ 64 }
    ensures { result ≡ answer_number answer }
{
    match answer {
        Ok(value) => 256 * value,
        Err(reason) => refusal_number(reason),
    }
}

// Whether a queue message is accepted, or the one refusal.
#[unsafe(no_mangle)]
pub extern "C" fn kippertarn_check_queue(message: &[u8]) -> u64
    ensures { result ≡ verdict_number (read_queue message.now).verdict }
{
    let accepted = queue_reader::read_queue(message).map(|_| 0);
    answer_number(accepted)
}

// Whether a plan message is accepted, or the one refusal. C has no generic functions, so each message has an entry.
#[unsafe(no_mangle)]
pub extern "C" fn kippertarn_check_plan(message: &[u8]) -> u64
    ensures { result ≡ verdict_number (read_plan message.now).verdict }
{
    let accepted = plan_reader::read_plan(message).map(|_| 0);
    answer_number(accepted)
}

// Plans a queue message: V is the bytes of the written plan, and for 16 the needed entries.
#[unsafe(no_mangle)]
#[tactic(auto, using(best_order::proofs::Answers::planning_fits))]
pub extern "C" fn kippertarn_plan(message: &[u8], table: &mut [u64], plan: &mut [u8]) -> u64
    ensures value { result ≡ answer_number (answer_of (ending_on message.now table.old plan.old)) }
    ensures planning { Planning message.now table.old plan.old table.new plan.new (answer_of (ending_on message.now table.old plan.old)) }
{
    // No `From` makes 64 bits of a `usize`, here and below.
    let written = planner::plan(message, table, plan);
    answer_number(written.map(|bytes| bytes as u64))
}

// Splits a queue message over two cutters: V is the bytes of the written split plan, and for 16 the needed entries.
#[unsafe(no_mangle)]
#[tactic(auto, using(best_split::proofs::Answers::splitting_fits))]
pub extern "C" fn kippertarn_split(
    message: &[u8],
    second_start: u32,
    table: &mut [u64],
    plan: &mut [u8],
) -> u64
    ensures value { result ≡ answer_number (answer_of (split_ending_on message.now second_start table.old plan.old)) }
    ensures splitting { Splitting message.now second_start table.old plan.old table.new plan.new (answer_of (split_ending_on message.now second_start table.old plan.old)) }
{
    let written = splitter::split(message, second_start, table, plan);
    answer_number(written.map(|bytes| bytes as u64))
}

// How many entries a table for a queue message needs: V is N times P.
#[unsafe(no_mangle)]
pub extern "C" fn kippertarn_table_entries(message: &[u8]) -> u64
    ensures value { result ≡ entries_number (table_size (read_queue message.now)) }
    ensures sizing { Sizing message.now (table_size (read_queue message.now)) }
{
    let sizes = sizer::size_table(message);
    answer_number(sizes.map(|sizes| sizes.entries))
}

// How many states planning a queue message can keep at most: V is the largest kept count that the counts of its kinds allow. An entry beside the one
// before, since V is one number.
#[unsafe(no_mangle)]
pub extern "C" fn kippertarn_most_kept(message: &[u8]) -> u64
    ensures value { result ≡ most_number (table_size (read_queue message.now)) }
    ensures sizing { Sizing message.now (table_size (read_queue message.now)) }
{
    let sizes = sizer::size_table(message);
    answer_number(sizes.map(|sizes| sizes.most_feasible))
}

// The version of the archive, to be matched with the header's.
#[unsafe(no_mangle)]
pub extern "C" fn kippertarn_version() -> u64
    ensures { result ≡ version }
{
    1004001
}
