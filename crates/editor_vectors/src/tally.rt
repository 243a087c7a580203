// Answers, how they are printed, and how often each was right.
use answers::Refusal;
use std::fmt::Display;
use std::{fmt, io};
use vector_rows::refusals::Refusals;
use vector_rows::{count, field, number};

// Why an item did nothing: the editor refused it, or it cannot be played.
#[derive(Clone, Copy)]
pub(crate) enum Fault {
    Refused(Refusal),
    Unplayable,
}

impl From<Refusal> for Fault {
    fn from(r: Refusal) -> Fault {
        Fault::Refused(r)
    }
}

impl Fault {
    // The number by which a row names it: a refusal's, or 255, which no refusal has. It stays a number: a row may name it too, and what the
    // program prints of such a row is what it printed.
    fn number(self) -> u8 {
        match self {
            Fault::Refused(r) => r.reason.number(),
            Fault::Unplayable => 255,
        }
    }

    fn place(self) -> u8 {
        match self {
            Fault::Refused(r) => r.place,
            Fault::Unplayable => 0,
        }
    }
}

// An answer: how many bytes were written, or why none, and whether the buffer is right. The flag stands beside them: a buffer may be wrong
// after a refusal too.
#[derive(Clone, Copy)]
pub(crate) struct Answer {
    pub(crate) written: Result<usize, Fault>,
    pub(crate) clean: bool,
}

// The answer where no buffer was lent.
impl From<Result<usize, Fault>> for Answer {
    fn from(written: Result<usize, Fault>) -> Answer {
        Answer {
            written,
            clean: true,
        }
    }
}

impl Answer {
    // What a row says of it first: 0, or the number of a fault.
    fn number(self) -> u8 {
        match self.written {
            Ok(_) => 0,
            Err(f) => f.number(),
        }
    }

    fn place(self) -> u8 {
        match self.written {
            Ok(_) => 0,
            Err(f) => f.place(),
        }
    }

    fn size(self) -> usize {
        self.written.unwrap_or(0)
    }

    // Whether a row expects the answer. Every refusal has record 0; where the row says nothing, nothing agrees.
    pub(crate) fn agrees(self, want: &[u8]) -> bool {
        let said = field(want, 0, b':');
        let digits = digits_of(want).len();
        let number = said.len() != 0 && number(said) == usize::from(self.number());
        let size = digits / 2 == self.size() && digits % 2 == 0;
        number && size && self.place() == 0 && self.clean
    }
}

impl Display for Answer {
    fn fmt<W: fmt::Write>(&self, f: &mut fmt::Formatter<W>) -> fmt::Result {
        write!(
            f,
            "answered {} {}, wrote {} bytes",
            self.number(),
            self.place(),
            self.size()
        )?;
        if self.clean {
            return Ok(());
        }
        f.write_str(", the buffer is another")
    }
}

// The digits of the bytes that a row expects; none if it expects none.
pub(crate) fn digits_of(want: &[u8]) -> &[u8] {
    field(want, 1, b':')
}

// How often each answer was right: done, written, and each refusal by its number.
// Each program has its own: a shared one would be public, and no contract can say what is printed.
#[derive(Drop)]
pub(crate) struct Tally {
    done: [u64; 2],
    refusals: Refusals,
}

impl Tally {
    pub(crate) fn new() -> Tally {
        Tally {
            done: [0; 2],
            refusals: Refusals::new(),
        }
    }

    pub(crate) fn add(&mut self, a: Answer) {
        match a.written {
            Ok(size) => count(&mut self.done, usize::from(size != 0)),
            Err(f) => self.refusals.add(usize::from(f.number() % 32)),
        }
    }

    fn print_done(&self, rt: &impl Print) -> io::Result<()> {
        for (word, n) in ["DONE", "WRITTEN"].iter().zip(&self.done) {
            if *n != 0 {
                println!(rt; "{word}: {n}")?;
            }
        }
        Ok(())
    }

    // How often each answer came, those of no row left out.
    pub(crate) fn print(&self, rt: &impl Print) -> io::Result<()> {
        self.print_done(rt)?;
        print!(rt; "{}", self.refusals)
    }
}
