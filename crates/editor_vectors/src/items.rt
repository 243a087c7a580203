// One item of a script, played on a state.
use super::tally::{Answer, Fault, digits_of};
use editor::{Editor, add_concept, add_inclusion, add_role, add_rule, set_root, start, write_out};
use parts::{byte, span};
use tables::{Fields, RoleNo};
use vector_rows::{bytes_are, field, number, small_number};

// Each byte of a buffer before the editor writes.
const UNWRITTEN: u8 = 165;

// The state after an item, and what it answered.
#[derive(Drop)]
pub(crate) struct Played {
    pub(crate) state: Editor,
    pub(crate) answer: Answer,
}

// The digits of operand `k`: a letter comes first, commas between.
fn operand(item: &[u8], k: usize) -> &[u8] {
    field(span(item, 1, item.len()), k, b',')
}

// An operand of one byte.
fn byte_operand(item: &[u8], k: usize) -> u8 {
    small_number(operand(item, k))
}

fn role_operand(item: &[u8], k: usize) -> RoleNo {
    RoleNo(byte_operand(item, k))
}

// The five operands of a concept. Its number is the one operand of two bytes.
fn fields_of(item: &[u8]) -> Fields {
    Fields {
        kind: byte_operand(item, 0),
        role: byte_operand(item, 1),
        first: byte_operand(item, 2),
        second: byte_operand(item, 3),
        number: number(operand(item, 4)),
    }
}

// An operation, and the state after it.
fn edit(s: Editor, item: &[u8]) -> Result<Editor, Fault> {
    let next = match byte(item, 0) {
        b'S' => Ok(start()),
        b'R' => add_role(s, byte_operand(item, 0)),
        b'I' => add_inclusion(s, role_operand(item, 0), role_operand(item, 1)),
        b'C' => add_concept(s, fields_of(item)),
        b'Q' => set_root(s, byte_operand(item, 0)),
        b'U' => add_rule(s, byte_operand(item, 0)),
        _ => return Err(Fault::Unplayable),
    };
    Ok(next?)
}

// Writes into the first `size` bytes.
fn write_into(s: Editor, buf: &mut [u8], size: usize) -> Result<usize, Fault> {
    if buf.len() < size {
        return Err(Fault::Unplayable);
    }
    Ok(write_out(s, &mut buf[..size])?)
}

// Writes, and looks whether every byte of the buffer is the row's, or stood there before.
fn write(s: Editor, size: usize, want: &[u8]) -> Answer {
    let mut buf = [UNWRITTEN; 8192];
    let written = write_into(s, &mut buf, size);
    let clean = bytes_are(&buf, digits_of(want), UNWRITTEN);
    Answer { written, clean }
}

// Plays an item, of which the row says `want`.
pub(crate) fn play_item(s: Editor, item: &[u8], want: &[u8]) -> Played {
    if byte(item, 0) == b'W' {
        return Played {
            state: s,
            answer: write(s, number(operand(item, 0)), want),
        };
    }
    match edit(s, item) {
        Ok(state) => Played {
            state,
            answer: Ok(0).into(),
        },
        Err(f) => Played {
            state: s,
            answer: Err(f).into(),
        },
    }
}
