// Answers, how they are printed, and how often each was right.
use answers::{Judgement, Reading, Refusal, Verdict};
use parts::byte;
use std::fmt::Display;
use std::{fmt, io};
use vector_rows::refusals::Refusals;
use vector_rows::{count, field, number};

// The word of an answer, in the order in which the counts are printed.
#[derive(Clone, Copy, PartialEq, Eq)]
pub(crate) enum Word {
    Empty,
    Fails,
    Holds,
    Inhabited,
    Line,
    NoModel,
    OtherBytes,
    HoldsOfNothing,
    Refused,
}

impl Display for Word {
    fn fmt<W: fmt::Write>(&self, f: &mut fmt::Formatter<W>) -> fmt::Result {
        f.write_str(match self {
            Word::Empty => "EMPTY",
            Word::Fails => "FAILS",
            Word::Holds => "HOLDS",
            Word::Inhabited => "INHABITED",
            Word::Line => "LINE",
            Word::NoModel => "A LINE THAT DOES NOT HOLD",
            Word::OtherBytes => "OTHER BYTES",
            Word::HoldsOfNothing => "HOLDS OF NOTHING",
            Word::Refused => "REFUSED",
        })
    }
}

// An answer: its word, then a refusal's number and record, or a line's length. A word and two numbers for each, as the rows say an answer and
// as it is printed: with a case for each the numbers that a row gives to the other words would be tested apart, and written out again.
#[derive(Clone, Copy, PartialEq, Eq)]
pub(crate) struct Answer {
    pub(crate) word: Word,
    pub(crate) number: usize,
    pub(crate) place: usize,
}

impl Display for Answer {
    fn fmt<W: fmt::Write>(&self, f: &mut fmt::Formatter<W>) -> fmt::Result {
        write!(f, "{} {} {}", self.word, self.number, self.place)
    }
}

impl From<Word> for Answer {
    fn from(word: Word) -> Answer {
        Answer {
            word,
            number: 0,
            place: 0,
        }
    }
}

impl From<Refusal> for Answer {
    fn from(r: Refusal) -> Answer {
        Answer {
            word: Word::Refused,
            number: usize::from(r.reason.number()),
            place: usize::from(r.place),
        }
    }
}

impl From<Verdict> for Answer {
    fn from(v: Verdict) -> Answer {
        match v {
            Verdict::Inhabited => Word::Inhabited.into(),
            Verdict::Empty => Word::Empty.into(),
            Verdict::Refused(r) => r.into(),
        }
    }
}

impl From<Result<Judgement, Refusal>> for Answer {
    fn from(v: Result<Judgement, Refusal>) -> Answer {
        match v {
            Ok(Judgement::Holds) => Word::Holds.into(),
            Ok(Judgement::Fails) => Word::Fails.into(),
            Ok(Judgement::HoldsOfNothing) => Word::HoldsOfNothing.into(),
            Err(r) => r.into(),
        }
    }
}

impl From<Result<Reading, Refusal>> for Answer {
    fn from(v: Result<Reading, Refusal>) -> Answer {
        match v {
            Ok(Reading::Holds) => Word::Holds.into(),
            Ok(Reading::Fails) => Word::Fails.into(),
            Err(r) => r.into(),
        }
    }
}

impl From<Result<usize, Refusal>> for Answer {
    fn from(v: Result<usize, Refusal>) -> Answer {
        match v {
            Ok(length) => Answer {
                word: Word::Line,
                number: length,
                place: 0,
            },
            Err(r) => r.into(),
        }
    }
}

// The digits of the line that a row expects; none if it expects a refusal.
pub(crate) fn line_digits(text: &[u8]) -> &[u8] {
    if byte(text, 0) == b'L' {
        return field(text, 1, b' ');
    }
    &text[..0]
}

// The answer of a word whose two numbers are fields `k` and `k + 1` of the text.
fn numbered(word: Word, text: &[u8], k: u8) -> Answer {
    let k = usize::from(k);
    Answer {
        word,
        number: number(field(text, k, b' ')),
        place: number(field(text, k + 1, b' ')),
    }
}

// The answer that a row expects, if its first letter is that of an answer: a word, with two numbers, or with the bytes of a line.
// HOLDS OF NOTHING begins as HOLDS does, or with a V.
pub(crate) fn expected(text: &[u8]) -> Option<Answer> {
    let answer = match byte(text, 0) {
        b'I' => numbered(Word::Inhabited, text, 1),
        b'E' => numbered(Word::Empty, text, 1),
        b'F' => numbered(Word::Fails, text, 1),
        b'H' if byte(text, 6) == b'O' => numbered(Word::HoldsOfNothing, text, 3),
        b'H' => numbered(Word::Holds, text, 1),
        b'V' => numbered(Word::HoldsOfNothing, text, 1),
        b'R' => numbered(Word::Refused, text, 1),
        b'L' => Answer {
            word: Word::Line,
            number: line_digits(text).len() / 2,
            place: 0,
        },
        _ => return None,
    };
    Some(answer)
}

// How often each answer was right: by its word, and a refusal by its number.
// Each program has its own: a shared one would be public, and no contract can say what is printed.
#[derive(Drop)]
pub(crate) struct Tally {
    words: [u64; 8],
    refusals: Refusals,
}

// The words but REFUSED.
const WORDS: [Word; 8] = [
    Word::Empty,
    Word::Fails,
    Word::Holds,
    Word::Inhabited,
    Word::Line,
    Word::NoModel,
    Word::OtherBytes,
    Word::HoldsOfNothing,
];

impl Tally {
    pub(crate) fn new() -> Tally {
        Tally {
            words: [0; 8],
            refusals: Refusals::new(),
        }
    }

    pub(crate) fn add(&mut self, a: Answer) {
        if a.word == Word::Refused {
            self.refusals.add(a.number);
        } else {
            count(&mut self.words, a.word as usize);
        }
    }

    // How often each word came, those of no row left out.
    fn print_words(&self, rt: &impl Print) -> io::Result<()> {
        for (word, n) in WORDS.iter().zip(&self.words) {
            if *n != 0 {
                println!(rt; "{word}: {n}")?;
            }
        }
        Ok(())
    }

    pub(crate) fn print(&self, rt: &impl Print) -> io::Result<()> {
        self.print_words(rt)?;
        print!(rt; "{}", self.refusals)
    }
}
