// The numbers of a message: which are in range, and how arrays hold them. Their reader is `fields_reader`, their writer `fields_writer`.
#![tactic(auto)]

ghost use Rattle.std.specs.Prelude.{◌≡◌, refl, ◌≤◌, ℕ, List, [], ◌∷◌, ◌++◌};
ghost use Rattle.fields.specs.Fields.{within};
ghost use Rattle.fields.specs.Lists.{stands_in};
ghost use Rattle.fields.specs.Messages.{check};

use refusal::Reason;

// A number of a message as an array holds it: a byte, or 32 bits.
pub trait Held: Copy {
    // The largest number that is held.
    ghost most: { ℕ };

    // A list of numbers as it is held, and the numbers that are held.
    ghost held: { List ℕ → List Self };

    ghost numbers: { List Self → List ℕ };

    fn hold(number: u32) -> Self
        requires { number ≤ most }
        ensures { result ∷ [] ≡ held (number ∷ []) };

    // A member with its laws, and no `From`.
    fn number(self) -> u64
        ensures { result ∷ [] ≡ numbers (self ∷ []) };

    // A list is held number by number.
    ghost held_none: { held [] ≡ [] };

    ghost held_more: { (n : ℕ) (ns : List ℕ) → held (n ∷ ns) ≡ held (n ∷ []) ++ held ns };

    ghost numbers_none: { numbers [] ≡ [] };

    ghost numbers_more: { (x : Self) (xs : List Self) → numbers (x ∷ xs) ≡ numbers (x ∷ []) ++ numbers xs };
}

// The two instances: they differ in `most` and in how a number is held, and no macro may write an impl.
impl Held for u8 {
    ghost most = { 255 };

    ghost held = { λ ns. ns };

    ghost numbers = { λ ns. ns };

    ghost held_none = { refl };

    ghost held_more = { λ n ns. refl };

    ghost numbers_none = { refl };

    ghost numbers_more = { λ x xs. refl };

    fn hold(number: u32) -> u8 {
        // At most 255: `TryFrom` has an error that cannot come.
        number as u8
    }

    fn number(self) -> u64 {
        u64::from(self)
    }
}

impl Held for u32 {
    ghost most = { 4294967295 };

    ghost held = { λ ns. ns };

    ghost numbers = { λ ns. ns };

    ghost held_none = { refl };

    ghost held_more = { λ n ns. refl };

    ghost numbers_none = { refl };

    ghost numbers_more = { λ x xs. refl };

    fn hold(number: u32) -> u32 {
        number
    }

    fn number(self) -> u64 {
        self.into()
    }
}

// Whether a number is from `low` to `high`: the range test of readers and writers. Here and above both bounds are handed one by one: a `RangeInclusive` is no
// `Copy` and may have ended.
pub fn is_within(value: u64, low: u64, high: u64) -> bool
    ensures { result ≡ within low high value }
{
    (low..=high).contains(&value)
}

// Whether a number stands among the values.
pub fn stands_in(values: &[u8], value: u32) -> bool
    ensures { result ≡ stands_in value values.now }
{
    values.iter().any(|v| u32::from(*v) == value)
}

// One check of a record: its refusal where it fails.
pub fn check(ok: bool, why: Reason) -> Result<(), Reason>
    ensures { result ≡ check ok why }
{
    if !ok {
        return Err(why);
    }
    Ok(())
}
