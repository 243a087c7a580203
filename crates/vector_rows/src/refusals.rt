// How often each refusal was answered, by its number.
ghost use Rattle.std.specs.Prelude.{◌≡◌, replicate};
ghost use Rattle.vector_rows.specs.Rows.{counted};

use super::count;
use std::fmt;
use std::fmt::Display;

#[derive(Drop)]
pub struct Refusals {
    counts: [u64; 32],
}

impl Refusals {
    // None yet.
    pub fn new() -> Refusals
        ensures { result.counts ≡ replicate 32 0 }
    {
        Refusals { counts: [0; 32] }
    }

    // One more of that number, up to a million.
    pub fn add(&mut self, number: usize)
        ensures { self.new.counts ≡ counted self.old.counts number }
    {
        count(&mut self.counts, number)
    }
}

// A line for each that came.
impl Display for Refusals {
    fn fmt<W: fmt::Write>(&self, f: &mut fmt::Formatter<W>) -> fmt::Result {
        for (number, n) in self.counts.iter().enumerate() {
            if *n != 0 {
                writeln!(f, "REFUSED {number}: {n}")?;
            }
        }
        Ok(())
    }
}
