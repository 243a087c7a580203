// What the program reads and prints: the two parts of its input, and the line of its answer.
#![tactic(auto)]

ghost use Rattle.std.specs.Prelude.{◌≡◌, ◌+◌, ◌≤◌, length, take, replicate};
ghost use Rattle.std.proofs.Math.Option.{some};
ghost use Rattle.answers.specs.Answers.{REFUSED, of_verdict, answer, over};
ghost use Rattle.report.specs.Input.{description_in, evidence_in};
ghost use Rattle.report.specs.Cut.{longest};
ghost use Rattle.laying.specs.Laying.{laid};
ghost use Rattle.report.specs.Text.{text_of, Over, Digits};

use answers::Verdict;
use laying::copy_bytes;
use parts::{read2, span};

// Zeros: room for every byte of an input that its answer rests on. The clause `size` gives the length, which lending the array needs.
pub fn input_space() -> [u8; 196608]
    ensures zeros { result ≡ replicate longest 0 }
    ensures size { longest ≡ length result }
{
    [0; 196608]
}

// The description: after the two bytes of its length, as many bytes as they say, or as there are.
pub fn description_part(input: &[u8]) -> &[u8]
    ensures { result.now ≡ description_in input.now }
{
    span(input, 2, read2(input, 0))
}

// The evidence: what follows the description.
pub fn evidence_part(input: &[u8]) -> &[u8]
    ensures { result.now ≡ evidence_in input.now }
{
    span(input, 2 + read2(input, 0), input.len())
}

// Lays the text at `at` and returns where it ends.
fn lay(out: &mut [u8], at: usize, text: &[u8]) -> usize
    requires { at + length text.now ≤ length out.old }
    ensures { (out.new ≡ laid out.old at text.now) × (result ≡ at + length text.now) }
{
    copy_bytes(out, at, text);
    at + text.len()
}

// Lays the decimal digits of `n` at `at` and returns where they end. By hand: each byte of the line is promised, as `write!` does not.
fn lay_number(out: &mut [u8], at: usize, n: u8) -> usize
    requires { at + 3 ≤ length out.old }
    ensures { Digits out.old at n out.new result }
{
    if n < 10 {
        out[at] = 48 + n;
        return at + 1;
    }
    if n < 100 {
        out[at] = 48 + n / 10;
        out[at + 1] = 48 + n % 10;
        return at + 2;
    }
    out[at] = 48 + n / 100;
    out[at + 1] = 48 + n / 10 % 10;
    out[at + 2] = 48 + n % 10;
    at + 3
}

// Lays the line of a refusal and returns its length.
fn lay_refusal(out: &mut [u8], number: u8, place: u8) -> usize
    requires { 16 ≤ length out.old }
    ensures { Over (text_of (answer REFUSED (some (record { number = number; place = place })))) out.old out.new result }
{
    let a = lay(out, 0, b"REFUSED ");
    let b = lay_number(out, a, number);
    let c = lay(out, b, b" ");
    let d = lay_number(out, c, place);
    lay(out, d, b"\n")
}

// Lays the line of a refusal of any number and record, as `write_answer` does of those that there are.
pub fn write_refusal(number: u8, place: u8, out: &mut [u8; 16]) -> usize
    ensures bytes { out.new ≡ over (text_of (answer REFUSED (some (record { number = number; place = place })))) out.old }
    ensures size { result ≡ length (text_of (answer REFUSED (some (record { number = number; place = place })))) }
    ensures part { (result ≤ length out.new) × (result ≡ length (take result out.new)) }
{
    lay_refusal(out, number, place)
}

// Lays the line of an answer over the first bytes of the buffer, which has room for every answer, and returns its length; the other bytes stay.
// The clause `part` gives what lending the line as a part of the buffer needs.
pub fn write_answer(v: Verdict, out: &mut [u8; 16]) -> usize
    ensures bytes { out.new ≡ over (text_of (of_verdict v)) out.old }
    ensures size { result ≡ length (text_of (of_verdict v)) }
    ensures part { (result ≤ length out.new) × (result ≡ length (take result out.new)) }
{
    match v {
        Verdict::Inhabited => lay(out, 0, b"INHABITED 0 0\n"),
        Verdict::Empty => lay(out, 0, b"EMPTY 0 0\n"),
        Verdict::Refused(r) => write_refusal(r.reason.number(), r.place, out),
    }
}
