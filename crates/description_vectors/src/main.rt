// Runs the rows of each data file: a description in hexadecimal digits on a line, or a remark after '#'. Prints an answer for each.
#![tactic(auto)]

use answers::Refusal;
use input::read_full;
use intake::test_description;
use std::fs::File;
use std::io;
use std::rt::Files;
use vector_rows::{decode, is_remark, run_parts};

fn print_tested(rt: &impl Print, t: Result<(), Refusal>) -> io::Result<()> {
    match t {
        Ok(()) => println!(rt; "FINE 0 0"),
        Err(r) => println!(rt; "REFUSED {} {}", r.reason.number(), r.place),
    }
}

fn run_line(rt: &impl Print, line: &[u8]) -> io::Result<()> {
    if is_remark(line) {
        return Ok(());
    }
    let mut space = [0; 512];
    let n = decode(line, &mut space);
    print_tested(rt, test_description(&space[..n]))
}

// Reads a file and runs its rows.
// Each program has its own: a shared one would be public, and no contract can say what a file gives or what is printed.
fn run_file(rt: &(impl Files + Print + Eprint), name: &str) -> io::Result<()> {
    let mut file = match File::open(rt, name) {
        Ok(file) => file,
        Err(e) => return eprintln!(rt; "{name}: {e}"),
    };
    // A fixed array, the longest file's and more: no heap is a rule of the project.
    let mut space = [0; 65536];
    let n = read_full(&mut file, &mut space)?;
    // A file that fills the buffer may go on: its other rows would not be run. No call failed, and the message says so.
    if n == space.len() {
        return eprintln!(rt; "{name}: Success");
    }
    run_parts(&space[..n], b'\n', |line| run_line(rt, line))
}

fn main(rt: HostRuntime) -> io::Result<()> {
    for name in [
        "refused_1",
        "refused_2",
        "refused_3",
        "refused_4",
        "refused_5",
        "refused_6",
        "refused_7",
        "refused_8",
        "accepted",
        "accepted_wide",
        "trials",
    ] {
        run_file(&rt, name)?;
    }
    Ok(())
}
