// The run printer: a book, a packet and a schedule from standard input, and the run's answer to standard output.
#![tactic(auto)]

mod lines;
mod text;

ghost use Rattle.std.specs.Prelude.{◌≤◌, ◌≡◌, IfOk, IfSome, MatchResult, Ok, OnOk, length, take};
ghost use Rattle.std.specs.Io.{ReadsAtMost};
ghost use Rattle.std.specs.Io.KnownBytes.{Appends};
ghost use Rattle.rules.specs.Reading.{verdict};
ghost use Rattle.printer.specs.Printing.{words_in, refused_line, printed};
ghost use Rattle.printer.specs.Building.{HasBook, Asks, ran_text};

use area::AREA_WORDS;
use arrayvec::ArrayVec;
use lines::{finished, refused, running};
use rules::{MOST_BYTES, Ran, Reason, Refusal, Sizes};
use std::io;
use std::io::{Read, Write};
use text::Text;

// The longest schedule that is run.
const MOST_CHOICES: usize = 8192;

// As much of the input as decides what is printed: 2 + 4,096 + 16 + 8,193 bytes.
const MOST_INPUT: usize = 12307;

// Sixteen packets of eight values.
const RESULT_WORDS: usize = 16 * 8;

// What an input asks for: the run of an accepted book, whose sizes are these, on a packet and under a schedule.
#[derive(Drop)]
struct Request<'a> {
    book: &'a [u8],
    sizes: Sizes,
    packet: ArrayVec<u16, 8>,
    schedule: &'a [u8],
}

#[tactic(auto, using(crate::proofs::InputLaws::words_last, crate::proofs::InputLaws::words_length))]
fn packet_of(s: &[u8], k: usize) -> ArrayVec<u16, 8>
    requires { k ≤ 8 }
    ensures { result.items ≡ words_in k s.now }
{
    let mut packet = ArrayVec::new();
    for i in 0..k {
        packet.push(book::number_at(s, 2 * i));
    }
    packet
}

// The book of an input, and what follows it; or why the input is turned away before the book is read.
#[tactic(auto, using(crate::proofs::Ways::printed_no_length, crate::proofs::Ways::printed_long_book, crate::proofs::Ways::printed_cut_book, crate::proofs::InputLaws::cut, crate::proofs::InputLaws::cut_short))]
fn cut_book(input: &[u8]) -> Result<(&[u8], &[u8]), Refusal>
    ensures { MatchResult result (λ cut. HasBook input.now cut.0.now cut.1.now)
        (λ r. printed input.now ≡ refused_line r) }
{
    let (_, tail) = input.split_at_checked(2).ok_or(Reason::Input)?;
    let n = usize::from(book::number_at(input, 0));
    if MOST_BYTES < n {
        return Err(Reason::BookLength.into());
    }
    let (book, rest) = tail.split_at_checked(n).ok_or(Reason::Input)?;
    Ok((book, rest))
}

// The parts of an input, or why it is turned away before the run.
#[tactic(auto, using(crate::proofs::InputLaws::book_refused, crate::proofs::InputLaws::fields_few, crate::proofs::InputLaws::packet_cut, crate::proofs::InputLaws::schedule_long, crate::proofs::InputLaws::run_asked))]
fn request_of(input: &[u8]) -> Result<Request<'_>, Refusal>
    ensures { MatchResult result (Asks input.now) (λ r. printed input.now ≡ refused_line r) }
{
    let (book, rest) = cut_book(input)?;
    let sizes = typing::accept(book)?;
    let k = sizes.fields;
    let (words, schedule) = rest.split_at_checked(2 * k).ok_or(Reason::PacketLength)?;
    if MOST_CHOICES < schedule.len() {
        return Err(Reason::Input.into());
    }
    let packet = packet_of(words, k);
    Ok(Request {
        book,
        sizes,
        packet,
        schedule,
    })
}

// The answer of the machine, with a result and a working area of its own. It takes the parts of a request, and not the whole: of a
// parameter the check knows that its items are bytes, which the packets' lines need, and of a slice in a struct it does not.
fn print_answer(book: &[u8], packet: &[u16], schedule: &[u8], sizes: Sizes) -> Text
    requires { verdict book.now ≡ Ok sizes }
    ensures { result.bytes ≡ ran_text book.now packet.now schedule.now }
{
    let mut result = [0u16; RESULT_WORDS];
    let mut work = [0u16; AREA_WORDS];
    match machine::run_accepted(book, packet, schedule, &mut result, &mut work, sizes) {
        Ok(Ran::Finished(f)) => finished(f, sizes.fields, &result),
        Ok(Ran::Running(p)) => running(p),
        Err(r) => refused(r),
    }
}

// Exactly what document 01 says is printed for an input.
pub fn print_run(input: &[u8]) -> Text
    ensures { result.bytes ≡ printed input.now }
{
    match request_of(input) {
        Ok(q) => print_answer(q.book, q.packet.as_slice(), q.schedule, q.sizes),
        Err(r) => refused(r),
    }
}

// Reads until the buffer is full or the input ends; gives how many bytes there are. An error is handed up, a signal's interruption too.
#[tactic(auto, using(crate::proofs::Reading::read_on))]
fn read_full<R: Read>(from: &mut R, buf: &mut [u8]) -> io::Result<usize>
    ensures ok { ReadsAtMost result buf.new }
    ensures kept { length buf.new ≡ length buf.old }
    ensures bytes { IfOk result (λ n. IfSome (R.remaining from.old) (λ bytes. take n buf.new ≡ take (length buf.old) bytes)) }
{
    let mut done = 0;
    while done < buf.len() {
        let n = from.read(&mut buf[done..])?;
        if n == 0 {
            break;
        }
        done += n;
    }
    Ok(done)
}

// The front of the input.
fn read_front<R: Read>(from: &mut R) -> io::Result<ArrayVec<u8, MOST_INPUT>>
    ensures { IfOk result (λ input. IfSome (R.remaining from.old)
        (λ bytes. input.items ≡ take MOST_INPUT bytes)) }
{
    let mut input = ArrayVec::from([0u8; MOST_INPUT]);
    let n = read_full(from, input.as_mut_slice())?;
    input.truncate(n);
    Ok(input)
}

// What is printed for the whole input goes out.
fn run<R: Read, W: Write>(from: &mut R, to: &mut W) -> io::Result<()>
    ensures { OnOk result (IfSome (R.remaining from.old)
        (λ bytes. Appends (W.contents to.old) (W.contents to.new) (printed bytes))) }
{
    let input = read_front(from)?;
    to.write_all(print_run(input.as_slice()).as_str().as_bytes())
}

fn main(rt: HostRuntime) -> io::Result<()> {
    run(&mut rt.reader(), &mut io::writer(&rt))
}
