// Sets of numbers in a word, one digit for each.
#![tactic(auto)]

mod mask16;
mod word64;

ghost use Rattle.std.specs.Prelude.{◌≡◌, ◌&&◌, ◌≤◌, ℕ, Bool, eqb, ltb, not};
ghost use Rattle.std.specs.Int.Bits.{bit_and};
ghost use Rattle.logic.specs.Sets.{has, narrow, set_of, within};
ghost use Rattle.words.specs.Words.{put_in, pushed};

// A word as the set of the places of its digits that are 1: role masks have 16 places, sets of elements or entries 64.
pub trait Bits: Copy {
    ghost set: { Self → ℕ };

    ghost width: { ℕ };

    // Whether the set holds `i`.
    fn has(self, i: u8) -> bool
        ensures { result ≡ has (set self) i };

    // Whether it holds numbers below `n` alone.
    fn is_below(self, n: usize) -> bool
        ensures { result ≡ narrow (set self) n };

    // Whether it lies within `y`.
    fn is_within(self, y: Self) -> bool
        ensures { result ≡ within (set self) (set y) };

    // Whether it has a number in common with `y`.
    fn meets(self, y: Self) -> bool
        ensures { result ≡ not (eqb (bit_and (set self) (set y)) 0) };

    // The set with `i` put in, if `asked` and if there is a place for it.
    fn put(self, i: u8, asked: bool) -> Self
        ensures { set result ≡ put_in (set self) i (ltb i width && asked) };
}

// The set with `i` put in, if `b`: it promises this of numbers of any size, and `Bits::put` of a byte. With a `usize` there the reading
// of a line that counts takes 3.6 in a hundred more (read_least).
pub fn put(x: u64, i: usize, b: bool) -> u64
    ensures { result ≡ put_in x i (ltb i 64 && b) }
{
    if i < 64 { x.put(i as u8, b) } else { x }
}

// The set with each number one higher, and with 0 if `b`; 63 goes out.
pub fn push(x: u64, b: bool) -> u64
    ensures { result ≡ pushed x b }
{
    if b { (x << 1) + 1 } else { x << 1 }
}

// The numbers below `n` that pass.
pub fn set_where<F: Fn(u8) -> bool>(n: u8, test: F) -> u64
    requires { F.IsAlwaysCallable test }
    ensures { (p : ℕ → Bool) → ((i : ℕ) (b : Bool) → F.post test i b → b ≡ p i) → n ≤ 64 → result ≡ set_of n p }
{
    let mut out: u64 = 0;
    for i in 0..n {
        out = out.put(i, test(i));
    }
    out
}
