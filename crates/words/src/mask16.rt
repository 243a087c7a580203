// Masks of 16 digits: sets of roles or rows. The text is that of word64 but for the type and its width: a shift asks for the type, and
// `rt ci` refuses an impl that a macro of the repository writes.
use super::Bits;

impl Bits for u16 {
    ghost set = { λ x. x };

    ghost width = { 16 };

    fn has(self, i: u8) -> bool {
        (i < 16) & ((self >> (i % 16)) % 2 == 1)
    }

    fn is_below(self, n: usize) -> bool {
        if n < 16 { self < (1 << n) } else { true }
    }

    fn is_within(self, y: u16) -> bool {
        self & y == self
    }

    fn meets(self, y: u16) -> bool {
        self & y != 0
    }

    fn put(self, i: u8, asked: bool) -> u16 {
        if (i < 16) & asked {
            self | (1 << (i % 16))
        } else {
            self
        }
    }
}
