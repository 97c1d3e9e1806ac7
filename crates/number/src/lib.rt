// Numbers in groups of seven bits, lowest group first, one byte each; bit 7 is set in all but the last byte (LEB128, canonical).
#![tactic(auto)]

ghost use Rattle.std.specs.Prelude.{◌≡◌, cond, leb, ◌+◌, ◌-◌, ◌*◌, ◌%◌, ◌^◌, ◌≤◌, ◌<◌};
ghost use Rattle.number.specs.Numbers.{number, encode};

use refusal::Reason;

// A message, and the position of the byte that is read next. Each reader moves it behind what it read; behind a refusal nothing more is read.
// The whole with a position, as `Output` too, and no slice off its front: what is read is told by the position in the whole message.
#[derive(Clone, Copy)]
pub struct Input<'a> {
    pub bytes: &'a [u8],
    pub at: usize,
}

// A lent buffer, and the position of the byte that is written next. Each writer moves it behind what it wrote.
#[derive(Drop)]
pub struct Output<'a> {
    pub buffer: &'a mut [u8],
    pub at: usize,
}

// Whether a byte has bit 7 set: more groups follow.
fn has_more(b: u8) -> bool
    ensures { result ≡ leb 128 b }
{
    b & 128 != 0
}

// The seven bits of a group.
fn group(b: u8) -> u64
    ensures value { result ≡ cond (leb 128 b) (b - 128) b }
    ensures small { result < 128 }
{
    u64::from(b & 127)
}

// `value` with a group put above its `shift` bits.
fn with_group(value: u64, low: u64, shift: u32) -> u64
    requires { (value < 2 ^ shift) × ((low < 128) × (shift ≤ 56)) }
    ensures { result ≡ value + 2 ^ shift * low }
{
    value | (low << shift)
}

// The byte of the lowest group of `v`, with more groups to come.
// `as`, here and in `Output`: the number is below 256, and `TryFrom` has an error that cannot come.
fn byte_more(v: u64) -> u8
    ensures { result ≡ v % 128 + 128 }
{
    ((v & 127) | 128) as u8
}

impl<'a> Input<'a> {
    ghost use Rattle.number.specs.Inputs.{Reads};

    // The number of at most `groups` groups that comes next. Nine groups are the most that 64 bits hold whole.
    #[inline(always)]
    pub fn number(&mut self, groups: u32) -> Result<u64, Reason>
        requires { groups ≤ 9 }
        ensures { Reads (number groups) self.old self.new result }
    {
        let mut value: u64 = 0;
        // Counts bits, and is no index.
        let mut shift: u32 = 0;
        for _ in 0..groups {
            if self.bytes.len() <= self.at {
                return Err(Reason::Ends);
            }
            let b = self.bytes[self.at];
            value = with_group(value, group(b), shift);
            self.at += 1;
            if !has_more(b) {
                if b == 0 && 0 < shift {
                    return Err(Reason::Groups);
                }
                return Ok(value);
            }
            shift += 7;
        }
        Err(Reason::Groups)
    }
}

impl<'a> Output<'a> {
    ghost use Rattle.number.specs.Outputs.{HasRoom, Writes};

    // Writes a number.
    pub fn number(&mut self, value: u64)
        requires { HasRoom (encode value) self.old }
        ensures { Writes (encode value) self.old self.new }
    {
        let mut rest = value;
        // No index is counted: the value falls by seven bits.
        while 127 < rest {
            self.buffer[self.at] = byte_more(rest);
            self.at += 1;
            rest >>= 7;
        }
        self.buffer[self.at] = rest as u8;
        self.at += 1;
    }
}
