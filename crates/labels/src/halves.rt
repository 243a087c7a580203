// Words of 64 digits by halves, which loops over many labels look at.
ghost use Rattle.std.specs.Prelude.{◌≡◌};
ghost use Rattle.labels.specs.Words.{word_of};

// Half `k` of the word: the lower, the upper, or none of it.
pub(crate) fn half(x: u64, k: u8) -> u32
    ensures { result ≡ word_of x k }
{
    if k == 0 {
        return (x % 4294967296) as u32;
    }
    if k == 1 {
        return (x / 4294967296) as u32;
    }
    0
}
