// How many codes without a character were replaced or skipped, by kind. A call on a block is done again under digits that write one unit
// for the codes of one kind and skip the others: it writes so many units more than one that skips them all.
use codepage::TableSet;
use convert::{Direction, Outcome, Policy, Run};

// What a code without a character is.
#[derive(Clone, Copy, PartialEq, Eq)]
pub enum Kind {
    Single,
    Pair,
    Invalid,
}

impl Kind {
    // The kind that a flag stands for.
    pub fn of_flag(flag: u8) -> Kind {
        match flag {
            1 => Kind::Single,
            2 => Kind::Pair,
            _ => Kind::Invalid,
        }
    }

    // Whether its flag is up.
    fn is_met(self, flags: u8) -> bool {
        match self {
            Kind::Single => flags % 2 == 1,
            Kind::Pair => flags / 2 % 2 == 1,
            Kind::Invalid => flags / 4 % 2 == 1,
        }
    }

    // Digits that write for its codes, and skip the others.
    fn writing(self) -> Policy {
        let mut policy = Policy::skipping();
        match self {
            Kind::Single => policy.single = 3,
            Kind::Pair => policy.pair = 3,
            Kind::Invalid => policy.invalid = 3,
        }
        policy
    }
}

// How many codes there are of each kind.
#[derive(Clone, Copy, Default)]
pub struct Kinds {
    pub single: u64,
    pub pair: u64,
    pub invalid: u64,
}

impl Kinds {
    // These and others.
    pub fn with(self, other: Kinds) -> Kinds {
        Kinds {
            single: self.single.saturating_add(other.single),
            pair: self.pair.saturating_add(other.pair),
            invalid: self.invalid.saturating_add(other.invalid),
        }
    }

    // These and one code more.
    pub fn with_one(self, kind: Kind) -> Kinds {
        let mut one = Kinds::default();
        match kind {
            Kind::Single => one.single = 1,
            Kind::Pair => one.pair = 1,
            Kind::Invalid => one.invalid = 1,
        }
        self.with(one)
    }

    // How many they are.
    pub fn all(self) -> u64 {
        self.single
            .saturating_add(self.pair)
            .saturating_add(self.invalid)
    }
}

// What a run reads: bytes, which are decoded, or units, which are encoded.
pub trait Piece: Copy {
    const DIRECTION: Direction;

    // A call whose output is thrown away. It has room for what 2,048 of them give, and what is pending before them.
    fn call(run: Run, tables: &TableSet, piece: &[Self], last: bool) -> Outcome;

    // Its number.
    fn unit(self) -> u16;
}

impl Piece for u8 {
    const DIRECTION: Direction = Direction::Decoding;

    fn call(run: Run, tables: &TableSet, piece: &[u8], last: bool) -> Outcome {
        let mut out = [0u16; 2049];
        convert::decode(run, tables, piece, last, &mut out)
    }

    fn unit(self) -> u16 {
        self as u16
    }
}

impl Piece for u16 {
    const DIRECTION: Direction = Direction::Encoding;

    fn call(run: Run, tables: &TableSet, piece: &[u16], last: bool) -> Outcome {
        let mut out = [0u8; 4098];
        convert::encode(run, tables, piece, last, &mut out)
    }

    fn unit(self) -> u16 {
        self
    }
}

// The codes without a character of a block: `run` is the run before it.
pub fn of<T: Piece>(run: Run, tables: &TableSet, block: &[T], last: bool) -> Kinds {
    let under = |policy: Policy| {
        let run = Run {
            policy,
            flags: 0,
            ..run
        };
        T::call(run, tables, block, last)
    };
    let skipped = under(Policy::skipping());
    let count = |kind: Kind| {
        if !kind.is_met(skipped.run.flags) {
            return 0;
        }
        let written = under(kind.writing()).written;
        written.saturating_sub(skipped.written) as u64
    };
    Kinds {
        single: count(Kind::Single),
        pair: count(Kind::Pair),
        invalid: count(Kind::Invalid),
    }
}
