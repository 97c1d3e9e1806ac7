// The refusals of documents 01 and 02: the one vocabulary of reasons, their numbers, and the group and word that the program prints.
#![tactic(auto)]

ghost use Rattle.std.specs.Prelude.{◌≡◌};
ghost use Rattle.refusal.specs.Reasons.{reason_number, reason_group, number_group};
ghost use Rattle.refusal.specs.Words.{word};

use std::fmt;

// Why a call is refused, as a `Result` carries it: one case for each row of 01's table of checks, in its order, 1 to 18, then what 02 adds.
#[derive(Clone, Copy, Debug, PartialEq, Eq)]
pub enum Reason {
    // 1: the first two bytes are missing or other.
    Opening,
    // 2: the bytes end before a number's last group.
    Ends,
    // 3: a byte 00 ends a number of several groups, or the last group permitted has bit 7 set.
    Groups,
    // 4: the edition is not 1.
    Edition,
    // 5: the number of kinds is not 1 to 5.
    Kinds,
    // 6: the goal is not 1 or 2.
    Goal,
    // 7: the shift is over 60.
    Shift,
    // 8: the start is over the number of kinds.
    Start,
    // 9: a gap is over 65536.
    Gap,
    // 10: a weight is over 1000.
    Pupils,
    // 11: a first place is 0, a last place is before its first place, or over 60.
    Places,
    // 12: the number of jobs is over 60.
    Jobs,
    // 13: a job's kind is 0 or over the number of kinds.
    JobKind,
    // 14: bytes are left over after the last number.
    LeftOver,
    // 15: the buffer is too short.
    Buffer,
    // 16: the table has fewer entries than are needed, which it carries.
    Table(u64),
    // 17: no order is permitted.
    NoOrder,
    // 18: a job in a plan is 0, over the number of jobs, or at an earlier place.
    Job,
    // 19: for two cutters the shift plus 1 is under the number of jobs, or a kind's allowed places do not cover 1 to it.
    Uncovered,
    // 20: the second start is over the number of kinds.
    SecondStart,
}

// The word that the program prints beside a refusal's number. An enum and no `Option`: each refusal has a group, though the last one's word is empty.
#[derive(Clone, Copy, Debug, PartialEq, Eq)]
pub enum Group {
    Message,
    Contents,
    Room,
    Order,
    // The program cannot meet this refusal.
    Unprinted,
}

// What a table must have and can be asked to hold: 01's N times P, and 02's largest kept count that the counts of the kinds allow.
#[derive(Clone, Copy, Debug, PartialEq, Eq)]
pub struct Sizes {
    pub entries: u64,
    pub most_feasible: u64,
}

impl Reason {
    // The number of a refusal. No conversion: a refusal has a group besides.
    pub fn number(self) -> u64
        ensures { result ≡ reason_number self }
    {
        match self {
            Reason::Opening => 1,
            Reason::Ends => 2,
            Reason::Groups => 3,
            Reason::Edition => 4,
            Reason::Kinds => 5,
            Reason::Goal => 6,
            Reason::Shift => 7,
            Reason::Start => 8,
            Reason::Gap => 9,
            Reason::Pupils => 10,
            Reason::Places => 11,
            Reason::Jobs => 12,
            Reason::JobKind => 13,
            Reason::LeftOver => 14,
            Reason::Buffer => 15,
            Reason::Table(_) => 16,
            Reason::NoOrder => 17,
            Reason::Job => 18,
            Reason::Uncovered => 19,
            Reason::SecondStart => 20,
        }
    }

    // The group of a refusal.
    pub fn group(self) -> Group
        ensures { result ≡ reason_group self }
    {
        Group::from(self.number())
    }
}

// The group of a refusal's number.
impl From<u64> for Group {
    ghost from_gives = { λ n g. g ≡ number_group n };

    fn from(number: u64) -> Group {
        match number {
            1..=4 | 14 => Group::Message,
            5..=13 => Group::Contents,
            15..=16 => Group::Room,
            17 => Group::Order,
            _ => Group::Unprinted,
        }
    }
}

impl Group {
    // The word of a group.
    pub fn word(self) -> &'static str
        ensures { result.now ≡ word self }
    {
        match self {
            Group::Message => "message",
            Group::Contents => "contents",
            Group::Room => "room",
            Group::Order => "order",
            Group::Unprinted => "",
        }
    }
}

impl fmt::Display for Group {
    fn fmt<W: fmt::Write>(&self, f: &mut fmt::Formatter<W>) -> fmt::Result {
        f.write_str(self.word())
    }
}

// A refusal's number and the word of its group, as the program prints them.
impl fmt::Display for Reason {
    fn fmt<W: fmt::Write>(&self, f: &mut fmt::Formatter<W>) -> fmt::Result {
        let number = self.number();
        let group = self.group();
        write!(f, "{number} {group}")
    }
}
