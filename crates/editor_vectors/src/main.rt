// Plays the scripts of the data file with the editor, and holds each answer, each byte of a buffer and the role records at the end to the
// row. A row's fields stand between tabs: the most entries of a table, the items of the script, their answers, the records.
// Prints how often each answer was right, what differs in a row, and at the end whether all agree.
#![tactic(auto)]

mod items;
mod records;
mod rows;
mod tally;

use input::read_full;
use rows::Row;
use std::fs::File;
use std::io;
use std::rt::Files;
use tally::Tally;
use vector_rows::{file_space, run_parts};

// How many rows there are, and whether all agree.
fn print_total(rt: &impl Print, rows: u64, agree: bool) -> io::Result<()> {
    println!(rt; "rows: {rows}")?;
    if agree {
        println!(rt; "all agree")
    } else {
        println!(rt; "not all agree")
    }
}

// Plays each row, numbered from 1, and prints how many there are and whether all agree.
fn run<P: Print>(rt: &P, all: &[u8], tally: &mut Tally) -> io::Result<()> {
    let mut rows: u64 = 0;
    let mut agree = true;
    run_parts(all, b'\n', |line| {
        rows = rows.saturating_add(1);
        let row = Row { rt, number: rows };
        agree &= row.is_right(line, tally)?;
        Ok(())
    })?;
    print_total(rt, rows, agree)
}

// Reads a file and plays its rows.
// Each program has its own: a shared one would be public, and no contract can say what a file gives or what is printed.
fn run_file(rt: &(impl Files + Print + Eprint), name: &str) -> io::Result<()> {
    let mut file = match File::open(rt, name) {
        Ok(file) => file,
        Err(e) => return eprintln!(rt; "{name}: {e}"),
    };
    // A fixed array, the longest file's and more: no heap is a rule of the project.
    let mut space = file_space();
    let n = read_full(&mut file, &mut space)?;
    let mut tally = Tally::new();
    run(rt, &space[..n], &mut tally)?;
    tally.print(rt)
}

fn main(rt: HostRuntime) -> io::Result<()> {
    run_file(&rt, "scripts")
}
