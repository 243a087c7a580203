// A row, played and held to what it says.
use super::items::play_item;
use super::records::records_are;
use super::tally::{Answer, Tally};
use editor::{Editor, start};
use labels::MOST_ENTRIES;
use std::io;
use std::io::Write;
use vector_rows::{field, number, run_parts};

// Where a row prints what differs, and its number, from 1.
#[derive(Drop)]
pub(crate) struct Row<'a, P> {
    pub(crate) rt: &'a P,
    pub(crate) number: u64,
}

// The state after items, and whether each answered as the row says. The flag stands beside the state: a row is played on to its end after a
// wrong answer, and each that follows is held to the row too.
#[derive(Clone, Copy)]
struct Ended {
    state: Editor,
    right: bool,
}

impl<P: Print> Row<'_, P> {
    // What differs. The text is printed as it is.
    fn print_differs(&self, what: &str, text: &[u8]) -> io::Result<()> {
        print!(self.rt; "row {}: {what}", self.number)?;
        io::writer(self.rt).write_all(text)?;
        print!(self.rt; "\n")
    }

    // An item that answered otherwise than the row says.
    fn print_other(&self, got: Answer, item: &[u8], want: &[u8]) -> io::Result<()> {
        self.print_differs("another answer to ", item)?;
        print!(self.rt; "  {got}; the row says ")?;
        io::writer(self.rt).write_all(want)?;
        print!(self.rt; "\n")
    }

    // Prints what differs, if it does, and whether it is right.
    fn holds(&self, right: bool, what: &str, text: &[u8]) -> io::Result<bool> {
        if !right {
            self.print_differs(what, text)?;
        }
        Ok(right)
    }

    // Plays one item. A right answer is counted, another one is printed.
    fn step(
        &self,
        ended: &mut Ended,
        item: &[u8],
        want: &[u8],
        tally: &mut Tally,
    ) -> io::Result<()> {
        let played = play_item(ended.state, item, want);
        let got = played.answer;
        ended.state = played.state;
        if got.agrees(want) {
            tally.add(got);
            return Ok(());
        }
        ended.right = false;
        self.print_other(got, item, want)
    }

    // Plays the items of a script, each with its answer.
    fn play(&self, script: &[u8], answers: &[u8], tally: &mut Tally) -> io::Result<Ended> {
        let mut ended = Ended {
            state: start(),
            right: true,
        };
        let mut wanted = answers.split(|&c| c == b' ');
        run_parts(script, b' ', |item| {
            let want = wanted.next().unwrap_or(&[]);
            self.step(&mut ended, item, want, tally)
        })?;
        let none = wanted.next().is_none();
        let none = self.holds(none, "more answers than items: ", answers)?;
        Ok(Ended {
            right: ended.right && none,
            ..ended
        })
    }

    // Whether all of a row is right: the most entries of a table, the items with their answers, and the role records at the end.
    pub(crate) fn is_right(&self, line: &[u8], tally: &mut Tally) -> io::Result<bool> {
        let most = field(line, 0, b'\t');
        let limit = number(most) == usize::from(MOST_ENTRIES);
        let limit = self.holds(limit, "another limit than ", most)?;
        let ended = self.play(field(line, 1, b'\t'), field(line, 2, b'\t'), tally)?;
        let text = field(line, 3, b'\t');
        let records = records_are(ended.state, text);
        let records = self.holds(records, "other role records than ", text)?;
        Ok(limit && ended.right && records)
    }
}
