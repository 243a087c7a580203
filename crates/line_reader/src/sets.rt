// Sets of elements, in one word.
ghost use Rattle.std.specs.Prelude.{◌≡◌, ◌≤◌};
ghost use Rattle.logic.specs.Sums.{count_below};
ghost use Rattle.logic.specs.Sets.{has};
ghost use Rattle.lines.specs.Lines.{most_elements};
ghost use Rattle.words.specs.Words.{all_of};

use lines::MOST_ELEMENTS;

// The set of the first `d` numbers.
pub(crate) fn full_set(d: u8) -> u64
    requires { d ≤ most_elements }
    ensures { result ≡ all_of d }
{
    if (d as usize) < MOST_ELEMENTS {
        (1 << d) - 1
    } else {
        u64::MAX
    }
}

// How many of the first `d` numbers the set holds.
pub(crate) fn set_size(x: u64, d: u8) -> usize
    requires { d ≤ most_elements }
    ensures { result ≡ count_below d (has x) }
{
    u64::count_ones(full_set(d) & x) as usize
}
