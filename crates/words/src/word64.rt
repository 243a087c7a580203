// Words of 64 digits: sets of elements or entries. The text of mask16 but for the type, as said there.
use super::Bits;

impl Bits for u64 {
    ghost set = { λ x. x };

    ghost width = { 64 };

    fn has(self, i: u8) -> bool {
        (i < 64) & ((self >> (i % 64)) % 2 == 1)
    }

    fn is_below(self, n: usize) -> bool {
        if n < 64 { self < (1 << n) } else { true }
    }

    fn is_within(self, y: u64) -> bool {
        self & y == self
    }

    fn meets(self, y: u64) -> bool {
        self & y != 0
    }

    fn put(self, i: u8, asked: bool) -> u64 {
        if (i < 64) & asked {
            self | (1 << (i % 64))
        } else {
            self
        }
    }
}
