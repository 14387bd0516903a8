// The words before the names of the files: `last`, `policy DDD` and `context`.
use convert::Policy;
use std::env::{Env, FillError};
use tillbox_layout::front_len;

// The words behind `policy` are no policy.
#[derive(Clone, Copy)]
pub struct NoPolicy;

// What was chosen, and which argument is the first name.
#[derive(Clone, Copy)]
pub struct Options {
    pub last: bool,
    // The policy that was asked for, if one was.
    pub policy: Result<Option<Policy>, NoPolicy>,
    // Whether the lines around findings are asked for.
    pub context: bool,
    pub next: usize,
}

// An argument, put at the front of a buffer; none where it is not there or does not fit.
pub fn word_at<'a>(rt: &HostRuntime, at: usize, buffer: &'a mut [u8]) -> Option<&'a [u8]> {
    let count = rt.arg(at, buffer).ok()?;
    Some(&buffer[..front_len(count, buffer)])
}

// Whether there is such an argument.
fn is_there(rt: &HostRuntime, at: usize) -> bool {
    let mut buffer = [0u8; 1];
    !matches!(rt.arg(at, &mut buffer), Err(FillError::NotPresent))
}

// How many arguments there are, the program's name among them.
pub fn count(rt: &HostRuntime) -> usize {
    (0..usize::MAX)
        .find(|at| !is_there(rt, *at))
        .unwrap_or(usize::MAX)
}

// Whether an argument is this word of at most 16 bytes.
pub fn is_word(rt: &HostRuntime, at: usize, word: &[u8]) -> bool {
    let mut buffer = [0u8; 16];
    word_at(rt, at, &mut buffer).is_some_and(|there| there == word)
}

// How many arguments there are from a place on.
pub fn names_from(rt: &HostRuntime, at: usize) -> usize {
    count(rt).saturating_sub(at)
}

// The value of a decimal digit.
fn digit_of(byte: u8) -> Option<u8> {
    byte.checked_sub(b'0').filter(|digit| *digit < 10)
}

// The policy that an argument spells: three decimal digits.
fn policy_at(rt: &HostRuntime, at: usize) -> Option<Policy> {
    let mut buffer = [0u8; 4];
    let [single, pair, invalid] = word_at(rt, at, &mut buffer)? else {
        return None;
    };
    Some(Policy {
        single: digit_of(*single)?,
        pair: digit_of(*pair)?,
        invalid: digit_of(*invalid)?,
    })
}

// The greatest width of a printed line.
const WIDEST: u64 = 65536;

// A number with one digit more, if it is one of 1 to 65,536.
fn next_value(value: u64, digit: u8) -> Option<u64> {
    let next = value.saturating_mul(10).saturating_add(digit as u64);
    if next == 0 || WIDEST < next {
        return None;
    }
    Some(next)
}

// The number of 1 to 65,536 that some digits spell, with no spare zero.
fn width_of(digits: &[u8]) -> Option<u64> {
    let mut value = None;
    for byte in digits {
        value = Some(next_value(value.unwrap_or(0), digit_of(*byte)?)?);
    }
    value
}

// The width that an argument spells.
pub fn width_at(rt: &HostRuntime, at: usize) -> Option<u64> {
    let mut buffer = [0u8; 6];
    width_of(word_at(rt, at, &mut buffer)?)
}

impl Options {
    // Nothing is chosen before an argument.
    fn nothing_from(next: usize) -> Options {
        Options {
            last: false,
            policy: Ok(None),
            context: false,
            next,
        }
    }

    // Takes a word, if it is next, and tells whether it was.
    fn take(&mut self, rt: &HostRuntime, word: &[u8]) -> bool {
        let is_next = is_word(rt, self.next, word);
        if is_next {
            self.next = self.next.saturating_add(1);
        }
        is_next
    }

    // Takes the word `last`, if it is next.
    fn take_last(&mut self, rt: &HostRuntime) {
        if self.take(rt, b"last") {
            self.last = true;
        }
    }

    // Takes the word `context`, if it is next.
    fn take_context(&mut self, rt: &HostRuntime) {
        if self.take(rt, b"context") {
            self.context = true;
        }
    }

    // Takes the words `policy DDD`, if they are next.
    fn take_policy(&mut self, rt: &HostRuntime) {
        if !self.take(rt, b"policy") {
            return;
        }
        self.policy = policy_at(rt, self.next)
            .map(|policy| Some(policy))
            .ok_or(NoPolicy);
        self.next = self.next.saturating_add(1);
    }

    // The words from an argument on, in either order.
    pub fn chosen_from(rt: &HostRuntime, next: usize) -> Options {
        let mut options = Options::nothing_from(next);
        options.take_last(rt);
        options.take_policy(rt);
        options.take_last(rt);
        options
    }

    // The words behind the command `why`, in either order.
    pub fn chosen_for_why(rt: &HostRuntime) -> Options {
        let mut options = Options::nothing_from(2);
        options.take_context(rt);
        options.take_policy(rt);
        options.take_context(rt);
        options
    }
}
