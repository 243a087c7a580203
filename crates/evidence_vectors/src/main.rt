// Runs the rows of each data file: a description with evidence is checked, a claim is judged, the line of a graph is written, or a line is
// read.
// A row's fields stand between tabs, bytes are hexadecimal digits, the last field is the answer that it expects; a remark follows '#'.
// Prints for each file how often each answer was right, and each row whose answer was another.
#![tactic(auto)]

mod bytes;
mod row_answers;
mod tally;

use input::read_full;
use row_answers::{check_row, claim_row, read_row, write_row};
use std::fs::File;
use std::io;
use std::io::Write;
use std::rt::Files;
use tally::{Answer, Tally, expected};
use vector_rows::{field, file_space, is_remark, run_parts};

// The data files, by what their rows ask.
const CHECKS: [&str; 11] = [
    "check",
    "check_trials",
    "check_worst",
    "check_lists",
    "check_lists_trials",
    "check_lists_worst",
    "check_wide",
    "check_wide_worst",
    "check_disjoint",
    "check_disjoint_trials",
    "check_disjoint_worst",
];

const CLAIMS: [&str; 6] = [
    "claims",
    "claims_trials",
    "claims_worst",
    "claims_wide",
    "claims_disjoint",
    "claims_disjoint_trials",
];

const WRITES: [&str; 7] = [
    "write",
    "write_trials",
    "write_worst",
    "write_wide",
    "write_wide_worst",
    "write_disjoint",
    "write_disjoint_trials",
];

const READS: [&str; 8] = [
    "read",
    "read_trials",
    "read_worst",
    "read_wide",
    "read_wide_worst",
    "read_disjoint",
    "read_disjoint_trials",
    "read_disjoint_worst",
];

fn print_other(rt: &impl Print, got: Answer, line: &[u8]) -> io::Result<()> {
    print!(rt; "got {got} in the row ")?;
    io::writer(rt).write_all(line)?;
    print!(rt; "\n")
}

// Counts a row whose answer is that of field `last`, and prints another.
fn judge_row(
    rt: &impl Print,
    got: Answer,
    last: usize,
    line: &[u8],
    tally: &mut Tally,
) -> io::Result<()> {
    if Some(got) == expected(field(line, last, b'\t')) {
        tally.add(got);
        return Ok(());
    }
    print_other(rt, got, line)
}

// Runs rows that `answer` answers, each of which expects what its field `last` says.
fn run_rows<F: Fn(&[u8]) -> Answer>(
    rt: &impl Print,
    all: &[u8],
    answer: &F,
    last: usize,
    tally: &mut Tally,
) -> io::Result<()>
    requires { (f : F) (line : _) → F.pre f line }
{
    run_parts(all, b'\n', |line| {
        if is_remark(line) {
            return Ok(());
        }
        judge_row(rt, answer(line), last, line, tally)
    })
}

// Reads a file and runs its rows.
// Each program has its own: a shared one would be public, and no contract can say what a file gives or what is printed.
fn run_file<F: Fn(&[u8]) -> Answer>(
    rt: &(impl Files + Print + Eprint),
    name: &str,
    answer: &F,
    last: usize,
) -> io::Result<()>
    requires { (f : F) (line : _) → F.pre f line }
{
    let mut file = match File::open(rt, name) {
        Ok(file) => file,
        Err(e) => return eprintln!(rt; "{name}: {e}"),
    };
    // A fixed array, the longest file's and more: no heap is a rule of the project.
    let mut space = file_space();
    let n = read_full(&mut file, &mut space)?;
    let mut tally = Tally::new();
    println!(rt; "{name}")?;
    run_rows(rt, &space[..n], answer, last, &mut tally)?;
    tally.print(rt)
}

fn run_files<F: Fn(&[u8]) -> Answer>(
    rt: &(impl Files + Print + Eprint),
    names: &[&str],
    answer: F,
    last: usize,
) -> io::Result<()>
    requires { (f : F) (line : _) → F.pre f line }
{
    for name in names {
        run_file(rt, name, &answer, last)?;
    }
    Ok(())
}

fn main(rt: HostRuntime) -> io::Result<()> {
    run_files(&rt, &CHECKS, check_row, 1)?;
    run_files(&rt, &CLAIMS, claim_row, 5)?;
    run_files(&rt, &WRITES, write_row, 3)?;
    run_files(&rt, &READS, read_row, 2)
}
