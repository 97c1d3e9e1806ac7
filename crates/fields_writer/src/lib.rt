// What messages are written with: an opening, what plans begin with, and runs of numbers; and how a record's message is written into a lent buffer.
#![tactic(auto, using(crate::proofs::Writing::writing))]

ghost use Rattle.std.specs.Prelude.{◌≡◌, ◌≤◌, ℕ, List, length};
ghost use Rattle.std.proofs.lemmas.List.Edits.{sets};
ghost use Rattle.refusal.specs.Answers.{Verdict, Accepted};
ghost use Rattle.number.specs.Outputs.{HasRoom, Writes};
ghost use Rattle.fields.specs.Fields.{encode_all};
ghost use Rattle.fields.specs.Messages.{write_answer, buffer_after};
ghost use Rattle.fields_writer.specs.Pieces.{listed, opening_bytes, front_bytes, counted_bytes};

use fields::{Held, check};
use number::Output;
use refusal::Reason;

// The message of one kind of record.
pub trait Message {
    type Record;

    // The bytes of a record's message.
    ghost bytes: { Self.Record → List ℕ };

    // Which records have one.
    ghost can_write: { Self.Record → Type 0 };

    fn write(out: &mut Output, source: &Self::Record)
        requires { can_write source.now × HasRoom (bytes source.now) out.old }
        ensures { Writes (bytes source.now) out.old out.new };
}

// A message whose record is judged before it is written.
pub trait Judged: Message {
    // The bytes that a buffer must have.
    const LEAST: usize;

    ghost LEAST: { ℕ };

    // The first refusal of a record, if any.
    ghost judge: { Self.Record → Verdict };

    fn judge(source: &Self::Record) -> Result<(), Reason>
        ensures { result ≡ judge source.now };

    // A record that is accepted has a message, which such a buffer holds.
    ghost accepted: { (r : Self.Record) → judge r ≡ Accepted → Self.can_write r × (length (Self.bytes r) ≤ LEAST) };
}

// What a record lists in an array: the slice of so many of its values, from the first one on.
#[tactic(auto, using(crate::proofs::Writing::front_listed))]
pub fn listed(values: &[u8; 60], count: u32) -> &[u8]
    requires { count ≤ 60 }
    ensures { result.now ≡ listed values.now count }
{
    // `as`: there is no `From<u32>` for `usize`.
    &values[..count as usize]
}

// Writes a message's opening.
pub fn write_opening(out: &mut Output, opening: &[u8; 2])
    requires { HasRoom (opening_bytes opening.now) out.old }
    ensures { Writes (opening_bytes opening.now) out.old out.new }
{
    out.buffer[out.at] = opening[0];
    out.buffer[out.at + 1] = opening[1];
    out.at += 2;
}

// Writes a plan's opening, edition 1, goal and cost. The goal is its number, which is what is written.
#[tactic(auto, using(crate::proofs::Writing::writing), unfolding(crate::specs::Pieces::front_bytes))]
pub fn write_front(out: &mut Output, opening: &[u8; 2], goal: u32, cost: u64)
    requires { HasRoom (front_bytes opening.now goal cost) out.old }
    ensures { Writes (front_bytes opening.now goal cost) out.old out.new }
{
    write_opening(out, opening);
    out.number(1);
    out.number(u64::from(goal));
    out.number(cost);
}

// Writes the values, one after the other.
pub fn write_run<T: Held>(out: &mut Output, values: &[T])
    requires { HasRoom (encode_all (T.numbers values.now)) out.old }
    ensures { Writes (encode_all (T.numbers values.now)) out.old out.new }
{
    for value in values {
        out.number(value.number());
    }
}

// Writes how many values there are, and the values, which are bytes.
#[tactic(auto, using(crate::proofs::Writing::writing), unfolding(crate::specs::Pieces::counted_bytes))]
pub fn write_counted(out: &mut Output, values: &[u8])
    requires { HasRoom (counted_bytes values.now) out.old }
    ensures { Writes (counted_bytes values.now) out.old out.new }
{
    // `as`: there is no `From<usize>` for `u64`.
    out.number(values.len() as u64);
    write_run(out, values);
}

// Writes the message of a record into a buffer that holds it; returns the number of its bytes.
pub fn write_message<M: Message>(buffer: &mut [u8], source: &M::Record) -> usize
    requires { M.can_write source.now × (length (M.bytes source.now) ≤ length buffer.old) }
    ensures value { result ≡ length (M.bytes source.now) }
    ensures buffer_after { buffer.new ≡ sets buffer.old 0 (M.bytes source.now) }
{
    let mut out = Output { buffer, at: 0 };
    M::write(&mut out, source);
    out.at
}

// Writes the message of a record that is accepted. A refused record, or a buffer that is too short, changes nothing.
pub fn write_judged<M: Judged>(buffer: &mut [u8], source: &M::Record) -> Result<usize, Reason>
    ensures value { result ≡ write_answer M.LEAST (M.judge source.now) (length buffer.old) (M.bytes source.now) }
    ensures buffer_after { let due = write_answer M.LEAST (M.judge source.now) (length buffer.old) (M.bytes source.now) in
        buffer.new ≡ buffer_after due (M.bytes source.now) buffer.old }
{
    M::judge(source)?;
    check(M::LEAST <= buffer.len(), Reason::Buffer)?;
    Ok(write_message::<M>(buffer, source))
}
