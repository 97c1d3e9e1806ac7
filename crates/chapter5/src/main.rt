// Plans the example of the source's chapter 5 at shifts 0, 5 and 14 under both goals; prints each plan's cost, kept count and order.
#![tactic(auto)]

use plan_lines::Planned;
use std::io;

// The queue message of a goal and a shift: 01's numbers of chapter 5, goal and shift at bytes 4 and 5.
fn message_of(goal: u8, shift: u8) -> [u8; 48] {
    let mut message =
        *b"\x51\x53\x01\x03\x01\x00\x02\x00\x00\x00\x60\xb5\x01\xe4\x01\x48\x50\x75\x48\x50\x5a\xac\x02\x96\x01\x64\x01\x3c\x01\x3c\x01\x3c\x0f\x01\x01\x03\x02\x02\x03\x02\x01\x02\x01\x03\x03\x02\x01\x02";
    message[4] = goal;
    message[5] = shift;
    message
}

// A plan's cost and kept count, then the job at each place, on one line: `plan_queue` prints a line for each.
fn print_plan(rt: &impl Print, planned: Planned) -> io::Result<()> {
    let cost = planned.plan.cost;
    let kept = planned.plan.feasible_states;
    println!(rt; "cost {cost} kept {kept}")?;
    print!(rt; "order")?;
    for place in 1..=planned.plan.jobs {
        let line = planned.line_at(place);
        let job = line.job;
        print!(rt; " {job}")?;
    }
    println!(rt)
}

// Plans at one goal and shift, in a table of the 630 entries that the example needs; no refusal is expected.
fn run(rt: &impl Print, goal: u8, shift: u8) -> io::Result<()> {
    println!(rt; "shift {shift} goal {goal}")?;
    let mut table = [0u64; 630];
    match plan_lines::plan_message(&message_of(goal, shift), &mut table) {
        Ok(planned) => print_plan(rt, planned),
        Err(why) => {
            let number = why.number();
            println!(rt; "refused {number}")
        }
    }
}

fn main(rt: HostRuntime) -> io::Result<()> {
    run(&rt, 1, 0)?;
    run(&rt, 2, 0)?;
    run(&rt, 1, 5)?;
    run(&rt, 2, 5)?;
    run(&rt, 1, 14)?;
    run(&rt, 2, 14)
}
