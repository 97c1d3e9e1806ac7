// Plans the queue message on standard input, and prints the plan place by place, or the refusal.
#![tactic(auto)]

ghost use Rattle.std.specs.Prelude.{◌≤◌, length, IfOk};

use plan_lines::Planned;
use std::io;
use std::io::Read;

// A plan's cost and 01's kept count, then a line for each place. `chapter5` prints other lines, so neither program prints by the other's function.
fn print_plan(rt: &impl Print, planned: Planned) -> io::Result<()> {
    let cost = planned.plan.cost;
    let kept = planned.plan.feasible_states;
    println!(rt; "cost {cost} kept {kept}")?;
    for place in 1..=planned.plan.jobs {
        let line = planned.line_at(place);
        println!(rt; "{line}")?;
    }
    Ok(())
}

// Reads until `input` is full or nothing more comes; returns how many bytes came. No index is counted, since a read says how much came: so this is no `for`.
fn read_full(reader: &mut impl Read, input: &mut [u8]) -> io::Result<usize>
    ensures { IfOk result (λ n. n ≤ length input.new) }
{
    let mut n: usize = 0;
    while n < input.len() {
        let more = reader.read(&mut input[n..])?;
        if more == 0 {
            return Ok(n);
        }
        n += more;
    }
    Ok(n)
}

// No queue message is longer than 178 bytes, and what refuses a longer input stands in its first 180.
fn main(rt: HostRuntime) -> io::Result<()> {
    let mut input = [0u8; 180];
    let n = read_full(&mut rt.reader(), &mut input)?;
    let mut table = [0u64; 8192];
    match plan_lines::plan_message(&input[..n], &mut table) {
        Ok(planned) => print_plan(&rt, planned),
        Err(why) => println!(rt; "refused {why}"),
    }
}
