// The trials: runs every vector of standard input through accept, evaluate and run, compares all that they answer and leave with what
// the vector states, and prints how many there are, how many differ, and how often each number is met.
#![tactic(auto)]

mod answers;
mod judging;
mod tallies;
mod vector_set;
mod vectors;

ghost use Rattle.std.specs.Prelude.{◌≡◌, length};
ghost use Rattle.std.specs.Io.{ReadsAtMost};

use arrayvec::ArrayVec;
use std::io;
use std::io::{Print, Read};
use tallies::{Question, tally_of};
use vectors::{Call, from, front, long_at};

// The longest file that is read.
const MOST_FILE: usize = 524288;

// CASES NAME, DIFFERING differ; and where some do, the first of them, counted from 0.
fn print_differing(to: &impl Print, set: &[u8], name: &str) -> io::Result<()> {
    let t = tally_of(set, Question::Differs);
    print!(to; "{}{name}{} differ", t.cases, t.found)?;
    if let Some(first) = t.first {
        print!(to; ", the first is case {first}")?;
    }
    println!(to)
}

fn print_met(to: &impl Print, set: &[u8], number: u64, question: Question) -> io::Result<()> {
    let t = tally_of(set, question);
    print!(to; " {number}:{}", t.found)
}

// How often a call answers, as 0, and how often it is turned away by each number.
fn print_numbers(to: &impl Print, set: &[u8], name: &str, call: Call) -> io::Result<()> {
    print!(to; "{name}")?;
    print_met(to, set, 0, Question::Answered(call))?;
    for number in 1..15 {
        print_met(to, set, number, Question::Refused(call, number))?;
    }
    println!(to)
}

// A file of vectors: the length of the right ones in four bytes, these, and then those that state something wrong on purpose.
fn report(to: &impl Print, file: &[u8]) -> io::Result<()> {
    let right = long_at(file, 0) as usize;
    let sets = from(file, 4);
    let trials = front(sets, right);
    print_differing(to, trials, " cases, ")?;
    print_numbers(to, trials, "accept", Call::Accept)?;
    print_numbers(to, trials, "evaluate", Call::Evaluate)?;
    print_numbers(to, trials, "run", Call::Run)?;
    print_differing(to, from(sets, right), " cases that state something wrong, ")
}

// Reads until the buffer is full or the input ends; gives how many bytes there are. An error is handed up, a signal's interruption too.
fn read_full<R: Read>(from: &mut R, buf: &mut [u8]) -> io::Result<usize>
    ensures ok { ReadsAtMost result buf.new }
    ensures kept { length buf.new ≡ length buf.old }
{
    let mut done = 0;
    while done < buf.len() {
        let n = from.read(&mut buf[done..])?;
        if n == 0 {
            break;
        }
        done += n;
    }
    Ok(done)
}

fn main(rt: HostRuntime) -> io::Result<()> {
    let mut file = ArrayVec::from([0u8; MOST_FILE]);
    let n = read_full(&mut rt.reader(), file.as_mut_slice())?;
    file.truncate(n);
    report(&rt, file.as_slice())
}
