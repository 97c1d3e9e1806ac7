// What every message is read with: its opening, its end, the numbers of it, each judged as it is read, and runs of them.
#![tactic(auto)]

ghost use Rattle.std.specs.Prelude.{◌≡◌, ◌≤◌, length, get_or};
ghost use Rattle.std.proofs.lemmas.List.Edits.{sets};
ghost use Rattle.number.specs.Readers.{times, behind};
ghost use Rattle.number.specs.Inputs.{Reads};
ghost use Rattle.fields.specs.Fields.{field, within};
ghost use Rattle.fields.specs.Orders.{read_before};
ghost use Rattle.fields.specs.Messages.{opens, opening, end};

use fields::Held;
use number::Input;
use refusal::Reason;

// Whether the bytes begin with a message's opening.
pub fn has_opening(bytes: &[u8], opening: &[u8; 2]) -> bool
    ensures { result ≡ opens (get_or opening.now 0 0) (get_or opening.now 1 0) bytes.now }
{
    bytes.starts_with(opening)
}

// A message's opening, wherever the input stands.
pub fn read_opening(input: &mut Input, two: &[u8; 2]) -> Result<(), Reason>
    ensures { Reads (opening (get_or two.now 0 0) (get_or two.now 1 0)) input.old input.new result }
{
    input.at = 2;
    fields::check(has_opening(input.bytes, two), Reason::Opening)
}

// The end of a message: nothing is left over.
pub fn read_end(input: &mut Input) -> Result<(), Reason>
    ensures { Reads end input.old input.new result }
{
    fields::check(input.at == input.bytes.len(), Reason::LeftOver)
}

// The next number, of at most three groups, from `low` to `high`; any other is refused as `why`.
#[inline(always)]
pub fn read_field(input: &mut Input, low: u32, high: u32, why: Reason) -> Result<u32, Reason>
    ensures { Reads (field 3 (within low high) why) input.old input.new result }
{
    let value = input.number(3)?;
    fields::check(
        fields::is_within(value, u64::from(low), u64::from(high)),
        why,
    )?;
    // At most `high`: `TryFrom` has an error that cannot come.
    Ok(value as u32)
}

// So many such numbers as `out` has room for, up to the first that is refused.
#[inline(always)]
pub fn read_run<T: Held>(
    input: &mut Input,
    low: u32,
    high: u32,
    why: Reason,
    out: &mut [T],
) -> Result<(), Reason>
    requires { high ≤ T.most }
    ensures value { Reads (λ s at. behind (times (length out.old) (field 3 (within low high) why) s at)) input.old input.new result }
    ensures out_after { out.new ≡ sets out.old 0 (T.held (read_before (length out.old) (field 3 (within low high) why) input.old.bytes.now input.old.at)) }
{
    for held in out.iter_mut() {
        *held = T::hold(read_field(input, low, high, why)?);
    }
    Ok(())
}
