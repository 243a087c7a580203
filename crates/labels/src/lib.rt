// Labels and name masks: sets of literals and of entries, read in place and held in words. Only this crate knows how wide they are.
#![tactic(auto)]

mod halves;

ghost use Rattle.std.specs.Prelude.{◌≡◌, ◌+◌, ◌-◌, ◌*◌, ◌/◌, ◌%◌, ◌^◌, ◌<◌, ◌≤◌};
ghost use Rattle.std.specs.Int.Bits.{bit_or};
ghost use Rattle.logic.specs.Bounded.{all_below};
ghost use Rattle.logic.specs.Sets.{has, narrow, within};
ghost use Rattle.labels.specs.Blocks.{block};
ghost use Rattle.labels.specs.Labels.{wide, label_bytes, name_bytes, num4, num8, label_in, names_in, label_with, value_of};
ghost use Rattle.labels.specs.Words.{word_of, rest_at, unopposed, entries_of};

use halves::half;
use parts::{byte, mask2};
use words::Bits;

// A table has at most so many entries, and a label room for their literals; what is stored for more than 32 is wide.
pub const MOST_ENTRIES: u8 = 64;

pub const MOST_LITERALS: u8 = 128;

const MOST_NARROW: usize = 32;

// The words that a question about one literal chooses from, and how many literals each has.
pub const WORDS: usize = 4;

const WORD_LITERALS: u8 = 32;

const WORD_ENTRIES: u8 = WORD_LITERALS / 2;

// Literals 64 to 127, and 0 to 63. No `words::Bits`: what a set is put together of there, a word of its own, is here two, and no label is
// asked whether it meets another.
#[derive(Clone, Copy)]
pub struct Label {
    high: u64,
    low: u64,
}

// Whether what is stored for a table of `n` entries is wide.
pub fn is_wide(n: usize) -> bool
    ensures { result ≡ wide n }
{
    MOST_NARROW < n
}

// The bytes of a label.
pub fn label_bytes(broad: bool) -> usize
    ensures { (result ≡ label_bytes broad) × (result ≤ 16) }
{
    if broad { 16 } else { 8 }
}

// The bytes of a name mask.
pub fn name_bytes(broad: bool) -> usize
    ensures { (result ≡ name_bytes broad) × (result ≤ 8) }
{
    if broad { 8 } else { 4 }
}

// The four bytes at `at` as a word, high byte first; bytes past the end count as 0.
fn word(s: &[u8], at: usize) -> u32
    ensures { result ≡ num4 s.now at }
{
    if at < s.len() {
        (mask2(s, at) as u32) * 65536 + (mask2(s, at + 2) as u32)
    } else {
        0
    }
}

// Four bytes as a word.
fn four(a: u8, b: u8, c: u8, d: u8) -> u32
    ensures { result ≡ block 16 (a * 256 + b) (c * 256 + d) }
{
    (a as u32) * 16777216 + (b as u32) * 65536 + (c as u32) * 256 + (d as u32)
}

// Two words as one.
fn twice(a: u32, b: u32) -> u64
    ensures { result ≡ block 32 a b }
{
    (a as u64) * 4294967296 + (b as u64)
}

// The eight bytes at `at`; bytes past the end count as 0.
fn cut_octet(s: &[u8], at: usize) -> u64
    ensures { result ≡ num8 s.now at }
{
    if at < s.len() {
        twice(word(s, at), word(s, at + 4))
    } else {
        0
    }
}

// The same, with two comparisons if the eight bytes are there, not one a byte: every rule reads labels. The library's
// from_be_bytes was tried: each label takes five instructions more with it, and a list two in a hundred.
fn octet(s: &[u8], at: usize) -> u64
    ensures { result ≡ num8 s.now at }
{
    if s.len() < 8 {
        return cut_octet(s, at);
    }
    if s.len() - 8 < at {
        return cut_octet(s, at);
    }
    twice(
        four(s[at], s[at + 1], s[at + 2], s[at + 3]),
        four(s[at + 4], s[at + 5], s[at + 6], s[at + 7]),
    )
}

// The label at `at`; bytes past the end count as 0.
pub fn load(s: &[u8], at: usize, broad: bool) -> Label
    ensures { value_of result ≡ label_in broad s.now at }
{
    if !broad {
        return Label {
            high: 0,
            low: octet(s, at),
        };
    }
    if s.len() <= at {
        return Label { high: 0, low: 0 };
    }
    Label {
        high: octet(s, at),
        low: octet(s, at + 8),
    }
}

// The name mask at `at`; bytes past the end count as 0.
pub fn load_names(s: &[u8], at: usize, broad: bool) -> u64
    ensures { result ≡ names_in broad s.now at }
{
    if broad {
        octet(s, at)
    } else {
        word(s, at) as u64
    }
}

// The label of no literal.
pub fn empty() -> Label
    ensures { value_of result ≡ 0 }
{
    Label { high: 0, low: 0 }
}

// Word `k` of the label; past the last, none of it.
pub fn word_of(x: Label, k: u8) -> u32
    ensures { result ≡ word_of (value_of x) k }
{
    if k < 2 {
        half(x.low, k)
    } else {
        half(x.high, k - 2)
    }
}

// The word that has entry `e`, with that in front, if `rest` is so for the entry before: a walk over the entries shifts by a fixed number.
pub fn next_rest(x: Label, rest: u32, e: u8) -> u32
    ensures { (0 < e → rest ≡ rest_at (value_of x) (e - 1)) → result ≡ rest_at (value_of x) e }
{
    if e % WORD_ENTRIES == 0 {
        word_of(x, e / WORD_ENTRIES)
    } else {
        rest / 4
    }
}

// The word that the literal `l` is in, and its place there.
pub fn word_no(l: u8) -> u8
    ensures { result ≡ l / 32 }
{
    l / WORD_LITERALS
}

pub fn place_no(l: u8) -> u8
    ensures { (result ≡ l % 32) × (result < 32) }
{
    l % WORD_LITERALS
}

// Whether the label holds the literal `l`.
pub fn holds(x: Label, l: u8) -> bool
    ensures { result ≡ has (value_of x) l }
{
    if l < 64 {
        x.low.has(l)
    } else {
        x.high.has(l - 64)
    }
}

// Whether the label holds literals below `n` alone.
pub fn below(x: Label, n: u8) -> bool
    ensures { result ≡ narrow (value_of x) n }
{
    if n < 64 {
        (x.high == 0) & x.low.is_below(usize::from(n))
    } else {
        x.high.is_below(usize::from(n - 64))
    }
}

// Whether the label `x` lies within `y`.
pub fn lies_within(x: Label, y: Label) -> bool
    ensures { result ≡ within (value_of x) (value_of y) }
{
    x.high.is_within(y.high) & x.low.is_within(y.low)
}

// What is in one of two labels.
pub fn join(x: Label, y: Label) -> Label
    ensures { value_of result ≡ bit_or (value_of x) (value_of y) }
{
    Label {
        high: x.high | y.high,
        low: x.low | y.low,
    }
}

// The label with the literal `l` put in. The half tells that its place is there, which `Bits::put` would ask again.
pub fn put(x: Label, l: u8) -> Label
    ensures { value_of result ≡ label_with (value_of x) l }
{
    if l < 64 {
        return Label {
            high: x.high,
            low: x.low | (1 << l),
        };
    }
    if l < MOST_LITERALS {
        return Label {
            high: x.high | (1 << (l - 64)),
            low: x.low,
        };
    }
    x
}

// The label of the literal `l` alone, if it has room.
pub fn only(l: u8) -> Label
    ensures { value_of result ≡ label_with 0 l }
{
    put(Label { high: 0, low: 0 }, l)
}

// Whether the word holds no even number together with the next one: the mask has the even numbers.
fn word_apart(x: u64) -> bool
    ensures { result ≡ all_below 32 (unopposed x) }
{
    (x & (x >> 1)) & 6148914691236517205 == 0
}

// Whether the label holds no literal with its opposite.
pub fn consistent(x: Label) -> bool
    ensures { result ≡ all_below 64 (unopposed (value_of x)) }
{
    word_apart(x.low) & word_apart(x.high)
}

// The entries that the label holds, in one word: those below 32 as the even numbers, the others as the odd ones.
pub fn entries_of(x: Label) -> u64
    ensures { result ≡ entries_of (value_of x) }
{
    (x.low & 6148914691236517205) | ((x.high & 6148914691236517205) << 1)
}
