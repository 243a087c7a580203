// What the public functions answer to a row.
use super::bytes::Bytes;
use super::tally::{Answer, Word, expected, line_digits};
use answers::Reading;
use claims::check_claim;
use line_reader::read_interpretation;
use line_writer::write_interpretation;
use report::{description_part, evidence_part, input_space};
use vector_rows::{bytes_are, decode, field, number, small_number};
use verdict::check_evidence;

// Each byte of a buffer before the writer is called.
const UNWRITTEN: u8 = 165;

// A row of the checker: the program's input.
pub(crate) fn check_row(line: &[u8]) -> Answer {
    let mut space = input_space();
    let n = decode(field(line, 0, b'\t'), &mut space);
    let input = &space[..n];
    check_evidence(description_part(input), evidence_part(input)).into()
}

// The description of a row, its first field.
fn description_of(line: &[u8]) -> Bytes<512> {
    Bytes::said(field(line, 0, b'\t'))
}

// A row of claims: a description, the numbers of C and D, and two pieces of evidence.
pub(crate) fn claim_row(line: &[u8]) -> Answer {
    let description = description_of(line);
    let c = small_number(field(line, 1, b'\t'));
    let d = small_number(field(line, 2, b'\t'));
    let mut space = input_space();
    let n = decode(field(line, 3, b'\t'), &mut space);
    // A second piece is a graph, of 11,522 bytes at most, or refused by its head.
    let second: Bytes<16384> = Bytes::said(field(line, 4, b'\t'));
    check_claim(description.all(), c, d, &space[..n], second.all()).into()
}

// A row of the reader: a description and a line.
pub(crate) fn read_row(line: &[u8]) -> Answer {
    let description = description_of(line);
    let text: Bytes<16384> = Bytes::said(field(line, 1, b'\t'));
    read_interpretation(description.all(), text.all()).into()
}

// Whether the first `n` bytes read as a model.
fn holds(d: &[u8], buf: &[u8], n: usize) -> bool {
    n <= buf.len() && read_interpretation(d, &buf[..n]) == Ok(Reading::Holds)
}

// What the writer answered to a row that expects `text`; if that is right, also whether the buffer is, and the line holds.
fn judge(got: Answer, d: &[u8], buf: &[u8], text: &[u8]) -> Answer {
    if Some(got) != expected(text) {
        return got;
    }
    if !bytes_are(buf, line_digits(text), UNWRITTEN) {
        return Answer {
            word: Word::OtherBytes,
            ..got
        };
    }
    if got.word == Word::Line && !holds(d, buf, got.number) {
        return Answer {
            word: Word::NoModel,
            ..got
        };
    }
    got
}

// The writer's answer, with the first `size` bytes of a buffer, or with all of it if it is shorter.
fn write_into(d: &[u8], s: &[u8], buf: &mut [u8], size: usize) -> Answer {
    let size = size.min(buf.len());
    write_interpretation(d, s, &mut buf[..size]).into()
}

// A row of the writer: a description, a graph, the length of the buffer.
pub(crate) fn write_row(line: &[u8]) -> Answer {
    let description = description_of(line);
    let graph: Bytes<16384> = Bytes::said(field(line, 1, b'\t'));
    let size = number(field(line, 2, b'\t'));
    let mut buf = [UNWRITTEN; 16384];
    let got = write_into(description.all(), graph.all(), &mut buf, size);
    judge(got, description.all(), &buf, field(line, 3, b'\t'))
}
