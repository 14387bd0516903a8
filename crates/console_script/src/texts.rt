// The texts and the lent output: each is the front of a buffer.
ghost use Rattle.std.specs.Prelude.{◌≡◌, ◌≤◌, length, min};

use crate::words;
use console_print::{Hex, Output};

// The most elements of a text, and of a word of hex digits.
pub const TEXT_LIMIT: usize = 66000;

// What an element holds before a call, so that what the call left as it was is seen after it.
pub trait Filled: Copy + Eq {
    const FILL: Self;
}

impl Filled for u8 {
    const FILL: u8 = 0xEE;
}

impl Filled for u16 {
    const FILL: u16 = 0xEEEE;
}

// An entry of an index: the count 61,166 (EEEE) with its mark.
impl Filled for u32 {
    const FILL: u32 = 122333;
}

impl Filled for u64 {
    const FILL: u64 = 0xEEEEEEEEEEEEEEEE;
}

// An element of a text: a byte or a unit.
pub trait Element: Filled + Hex {
    // The most elements of output that a call is lent.
    const ROOM: u64;

    // How many elements some hex digits spell, if they spell whole ones.
    fn count_of(digits: &[u8]) -> Option<usize>;

    // An element of a run of hex digits; 0 where there is none.
    fn of_digits(digits: &[u8], place: usize) -> Self;
}

impl Element for u8 {
    const ROOM: u64 = 140000;

    fn count_of(digits: &[u8]) -> Option<usize> {
        if digits.len() % 2 == 0 {
            Some(digits.len() / 2)
        } else {
            None
        }
    }

    fn of_digits(digits: &[u8], place: usize) -> u8 {
        words::byte_of(digits, place)
    }
}

impl Element for u16 {
    const ROOM: u64 = 66000;

    fn count_of(digits: &[u8]) -> Option<usize> {
        if digits.len() % 4 == 0 {
            Some(digits.len() / 4)
        } else {
            None
        }
    }

    fn of_digits(digits: &[u8], place: usize) -> u16 {
        words::unit_of(digits, place)
    }
}

// Elements that a line spells: their hex digits, and how many they are.
#[derive(Clone, Copy)]
pub struct Spelled<'a> {
    pub digits: &'a [u8],
    pub count: usize,
}

// Some elements at the front of a buffer.
#[derive(Drop)]
pub struct Text<'a, T> {
    buffer: &'a mut [T],
    count: usize,
}

impl<'a, T: Filled> Text<'a, T> {
    // No elements yet.
    pub fn new(buffer: &'a mut [T]) -> Text<'a, T> {
        Text { buffer, count: 0 }
    }

    pub fn items(&self) -> &[T] {
        let count = self.count.min(self.buffer.len());
        &self.buffer[..count]
    }

    pub fn items_mut(&mut self) -> &mut [T] {
        let count = self.count.min(self.buffer.len());
        &mut self.buffer[..count]
    }

    // The first elements alone: as many as asked, if the buffer has them.
    fn cut(&mut self, count: usize) {
        self.count = count.min(self.buffer.len());
    }

    // Other elements: as many as asked, if the buffer has room for them, each the fill.
    pub fn fill(&mut self, count: usize) {
        self.cut(count);
        fill(self.buffer, count);
    }

    // Those, lent.
    pub fn lend(&mut self, count: usize) -> &mut [T] {
        self.fill(count);
        self.items_mut()
    }

    // Sets an element, if there is one at the place.
    pub fn set(&mut self, place: usize, item: T) {
        if place < self.count.min(self.buffer.len()) {
            self.buffer[place] = item;
        }
    }
}

impl<T: Element> Text<'_, T> {
    // Other elements: as many as asked, if the buffer has room for them, those that a line spells, over and over.
    pub fn repeat(&mut self, count: usize, spelled: Spelled<'_>) {
        self.cut(count);
        let mut place = 0;
        for item in self.items_mut() {
            *item = T::of_digits(spelled.digits, place);
            place = spelled.following(place);
        }
    }
}

impl Spelled<'_> {
    // The place of the next element, where they are given over and over.
    fn following(self, place: usize) -> usize {
        let next = place.saturating_add(1);
        if next < self.count { next } else { 0 }
    }
}

// Fills the first elements of a buffer: as many as asked, if it has them.
pub fn fill<T: Filled>(buffer: &mut [T], count: usize) {
    for item in buffer.iter_mut().take(count) {
        *item = T::FILL;
    }
}

// Whether every element from a place on is still the fill.
pub fn is_kept<T: Filled>(room: &[T], from: usize) -> bool {
    room.iter().skip(from).all(|item| *item == T::FILL)
}

// Whether the elements of a text from a place on are still those that a line spells, over and over from its front.
pub fn repeats_from<T: Element>(spelled: Spelled<'_>, text: &[T], from: usize) -> bool {
    let mut place = from.checked_rem(spelled.count).unwrap_or(0);
    for item in text.iter().skip(from) {
        if *item != T::of_digits(spelled.digits, place) {
            return false;
        }
        place = spelled.following(place);
    }
    true
}

// The first elements of a slice: as many as asked, if it has them.
pub fn front<T>(items: &[T], count: usize) -> &[T]
    ensures { length result.now ≡ min count (length items.now) }
{
    &items[..count.min(items.len())]
}

// What a call wrote, in hex, and whether the rest of the room was kept.
pub fn put_written<T: Element>(room: &[T], written: usize, out: &mut Output<'_>) {
    out.put_run(front(room, written));
    out.put_kept(is_kept(room, written));
}
