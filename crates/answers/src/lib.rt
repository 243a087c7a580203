// What the tests and the public functions answer.
#![tactic(auto)]

ghost use Rattle.std.specs.Prelude.{◌≡◌, ℕ, Result};
ghost use Rattle.std.proofs.Math.Option.{Option, none};
ghost use Rattle.logic.specs.Refusals.{refuse, refuse_from};
ghost use Rattle.answers.specs.Answers.{refusal_of};
ghost use Rattle.answers.specs.Reasons.{number_of, refused};

// What the tests refuse for, by their numbers in the table of refusals.
#[derive(Clone, Copy, Debug, PartialEq, Eq)]
pub enum Reason {
    Directory = 1,
    Part = 2,
    Role = 3,
    Entry = 4,
    Simple = 5,
    Twin = 6,
    MissingEvery = 7,
    Question = 8,
    Head = 9,
    Form = 10,
    Label = 11,
    Both = 12,
    Edge = 13,
    Every = 14,
    Count = 15,
    Cite = 16,
    Step = 17,
    Cell = 18,
    Tree = 19,
    End = 20,
    Big = 21,
    Short = 22,
    LineForm = 23,
    Claim = 24,
    Full = 25,
    Disjoint = 26,
}

// A refusal: for what, and of which record; 0 where no record is at fault.
#[derive(Clone, Copy, Debug, PartialEq, Eq)]
pub struct Refusal {
    pub reason: Reason,
    pub place: u8,
}

impl Reason {
    // The number in the table of refusals.
    pub fn number(self) -> u8
        ensures { result ≡ number_of self }
    {
        self as u8
    }

    // The refusal of record `place`.
    pub fn at(self, place: u8) -> Refusal
        ensures { result ≡ refused self place }
    {
        Refusal {
            reason: self,
            place,
        }
    }

    // The refusal of a whole.
    pub fn whole(self) -> Refusal
        ensures { result ≡ refused self 0 }
    {
        self.at(0)
    }
}

// The answer to evidence. No Result: the owner names this form, two plain cases and a refusal (docs/DECISIONS.md, section 3).
#[derive(Clone, Copy, Debug, PartialEq, Eq)]
pub enum Verdict {
    Inhabited,
    Empty,
    Refused(Refusal),
}

// The answer on a claim "every C is D" that nothing refuses.
#[derive(Clone, Copy, Debug, PartialEq, Eq)]
pub enum Judgement {
    Holds,
    Fails,
    HoldsOfNothing,
}

// The answer of the direct reading of a line that nothing refuses.
#[derive(Clone, Copy, Debug, PartialEq, Eq)]
pub enum Reading {
    Holds,
    Fails,
}

// The refusal of the first of `n` records that the test refuses.
pub fn first_refused<F: Fn(u8) -> Result<(), Refusal>>(n: u8, test: F) -> Result<(), Refusal>
    requires { F.IsAlwaysCallable test }
    ensures { (p : ℕ → Option ℕ) → ((i : ℕ) (r : Result (Unit {0}) Refusal) → F.post test i r → refusal_of r ≡ refuse i (p i) none)
        → refusal_of result ≡ refuse_from p n 0 none }
{
    for i in 0..n {
        test(i)?;
    }
    Ok(())
}
