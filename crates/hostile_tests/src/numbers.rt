//! Numbers, commands and values that look random.

ghost use Rattle.std.specs.Prelude.{◌<◌, ◌≤◌};

use rh_core::Kind;
use rh_layout::{Command, Operand, RootId, Value};

/// Numbers that look random, the same for each seed (a linear congruential generator).
#[derive(Drop)]
pub struct Numbers {
    pub state: u64,
}

impl Numbers {
    /// The next number, below the limit.
    pub fn below(&mut self, limit: u32) -> u32
        requires { 1 ≤ limit }
        ensures { result < limit }
    {
        let product = self.state.wrapping_mul(6_364_136_223_846_793_005);
        self.state = product.wrapping_add(1_442_695_040_888_963_407);
        (self.state >> 33) as u32 % limit
    }

    /// Whether something happens that has so many chances in 16.
    pub fn has(&mut self, chances: u32) -> bool {
        self.below(16) < chances
    }

    /// A root for an owner: of slots of its own or shared ones, one in nine of a slot that isn't
    /// there, and one in eight of any owner up to 5.
    pub fn root(&mut self, owner: u32) -> RootId {
        let owner = match self.below(8) {
            0 => self.below(6),
            1 | 2 | 3 => 0,
            _ => owner,
        };
        let slot = self.below(9) / 2;
        RootId { owner, slot }
    }

    /// An operand.
    fn operand(&mut self, owner: u32) -> Operand {
        match self.below(8) {
            0 => Operand::Nil,
            1 => Operand::Int(i64::MAX >> self.below(4)),
            2 => Operand::Int(self.below(100).into()),
            _ => Operand::Root(self.root(owner)),
        }
    }

    /// What is dealt.
    pub fn kind(&mut self) -> Kind {
        if self.has(8) {
            Kind::Copies
        } else {
            Kind::Entries
        }
    }

    /// An owner's command.
    pub fn command(&mut self, owner: u32) -> Command {
        let first = self.root(owner);
        let second = self.root(owner);
        // Few objects don't have it.
        let field = self.below(4).min(self.below(4));
        let fields = 3 - self.below(4).min(self.below(4));
        match self.below(11) {
            0 | 10 => Command::Alloc { dst: first, fields },
            1 => Command::Raw { dst: first, fields },
            2 | 3 => Command::Load {
                dst: first,
                src: second,
                field,
            },
            4 | 5 | 6 => {
                let operand = self.operand(owner);
                Command::Store {
                    obj: first,
                    field,
                    operand,
                }
            }
            7 => Command::Copy {
                dst: first,
                src: second,
            },
            8 => Command::Same {
                a: first,
                b: second,
            },
            _ => Command::Drop { root: first },
        }
    }

    /// The words of a space, for a heap that uses so many: few to many, and more than one may have.
    pub fn words(&mut self, used: u32) -> u32 {
        match self.below(8) {
            0 => self.below(8),
            1 => 16_777_217 + self.below(2),
            2 => used.saturating_sub(1 + self.below(3)),
            3 => used,
            _ => 8 + self.below(150),
        }
    }

    /// The most entries of a log that keeps so many: none to a few, and more than one may have.
    pub fn limit(&mut self, kept: u32) -> u32 {
        match self.below(8) {
            0 => 0,
            1 => 1_048_577 + self.below(2),
            2 | 3 => kept.saturating_sub(1).max(1),
            _ => 1 + self.below(5),
        }
    }

    /// How many tickets there is to be room for, where there is room for so many: more of them
    /// seldom, once there are a few.
    pub fn tickets(&mut self, now: u32) -> u32 {
        match self.below(8) {
            0 => 65_537 + self.below(2),
            1 => now,
            2 => now.saturating_sub(1 + self.below(2)),
            _ if now < 4 || self.below(100) == 0 => now.saturating_add(1 + self.below(2)),
            _ => now,
        }
    }

    /// An address inside a space of so many words, at its end or past it.
    pub fn address(&mut self, words: u32) -> u32
        requires { 1 ≤ words }
    {
        match self.below(8) {
            0 => u32::MAX - self.below(3),
            1 => words,
            _ => self.below(words),
        }
    }

    /// A number that isn't the one that stands in a field, with few exceptions.
    pub fn other_number(&mut self, number: u64) -> u64 {
        match self.below(5) {
            0 => 0,
            1 => u64::MAX,
            2 => number.saturating_add(1),
            3 => number.saturating_sub(1),
            _ => self.below(100).into(),
        }
    }

    /// A value of any kind, also one that has no word.
    pub fn value(&mut self, words: u32) -> Value
        requires { 1 ≤ words }
    {
        match self.below(4) {
            0 => Value::Nil,
            1 => Value::Int(i64::MIN >> self.below(4)),
            2 => Value::Int(self.below(100).into()),
            _ => Value::Ref(self.address(words)),
        }
    }
}

/// One more.
pub fn count(number: &mut u64) {
    *number = number.saturating_add(1);
}

/// One more at this place, where there is one.
pub fn count_at(numbers: &mut [u64], place: usize) {
    if let Some(number) = numbers.get_mut(place) {
        count(number);
    }
}
