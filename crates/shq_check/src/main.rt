// Reads a description's length in two bytes, the description and evidence from standard input, and prints verdict, number and record.
#![tactic(auto)]

ghost use Rattle.std.specs.Prelude.{◌≡◌, ◌≤◌, length, take};
ghost use Rattle.report.specs.Cut.{answer_to};
ghost use Rattle.report.specs.Text.{text_of};
ghost use Rattle.answers.specs.Answers.{over};

use input::read_full;
use report::{description_part, evidence_part, input_space, write_answer};
use std::io;
use std::io::Write;
use verdict::check_evidence;

// Lays the line of the answer to an input, and returns its length.
fn answer(input: &[u8], line: &mut [u8; 16]) -> usize
    ensures bytes { line.new ≡ over (text_of (answer_to input.now)) line.old }
    ensures part { (result ≤ length line.new) × (result ≡ length (take result line.new)) }
{
    let v = check_evidence(description_part(input), evidence_part(input));
    write_answer(v, line)
}

fn main(rt: HostRuntime) -> io::Result<()> {
    let mut space = input_space();
    let n = read_full(&mut rt.reader(), &mut space)?;
    let mut line = [0; 16];
    let k = answer(&space[..n], &mut line);
    io::writer(&rt).write_all(&line[..k])
}
