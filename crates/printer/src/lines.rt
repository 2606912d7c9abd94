// The line or lines that each answer is printed as.
ghost use Rattle.std.specs.Prelude.{◌+◌, ◌*◌, ◌≤◌, ◌≡◌, ◌++◌, length};
ghost use Rattle.arrayvec.specs.ArrayString.{array_string_len};
ghost use Rattle.printer.specs.Printing.{blank_then, values_line, refused_line};
ghost use Rattle.printer.specs.Building.{running_line, finished_lines};

use crate::text::{MOST_TEXT, Text, push_next, push_number};
use rules::{Finish, Progress, Refusal};

// Every answer begins with a word and two numbers.
#[tactic(auto, using(crate::proofs::DecimalLaws::decimal_few))]
fn opening(word: &str, a: usize, b: usize) -> Text
    requires { length word.now ≤ 8 }
    ensures bytes { result.bytes ≡ word.now ++ (blank_then a ++ blank_then b) }
    ensures few { array_string_len result ≤ 50 }
{
    let mut text = Text::new();
    text.push_str(word);
    push_next(&mut text, a);
    push_next(&mut text, b);
    text
}

// refused NUMBER PLACE
#[tactic(auto, using(crate::proofs::LineLaws::parts), unfolding(crate::specs::Printing::refused_line))]
pub fn refused(r: Refusal) -> Text
    ensures { result.bytes ≡ refused_line r }
{
    let mut text = opening("refused", r.number(), r.place);
    text.push('\n');
    text
}

// running STEPS LIVE READY
#[tactic(auto, using(crate::proofs::LineLaws::parts, crate::proofs::DecimalLaws::decimal_few), unfolding(crate::specs::Building::running_line))]
pub fn running(p: Progress) -> Text
    ensures { result.bytes ≡ running_line p }
{
    let mut text = opening("running", p.steps, p.live);
    push_next(&mut text, p.ready);
    text.push('\n');
    text
}

// One packet's values, with single blanks between them.
#[tactic(auto, using(crate::proofs::LineLaws::further_next, crate::proofs::LineLaws::further_none, crate::proofs::LineLaws::values_first, crate::proofs::LineLaws::values_none, crate::proofs::DecimalLaws::decimal_few))]
fn push_values(text: &mut Text, values: &[u16])
    requires { array_string_len text.old + (21 * length values.now + 1) ≤ MOST_TEXT }
    ensures bytes { text.new.bytes ≡ text.old.bytes ++ values_line values.now }
    ensures few { array_string_len text.new ≤ array_string_len text.old + (21 * length values.now + 1) }
{
    if let Some((first, others)) = values.split_first() {
        push_number(text, usize::from(*first));
        for value in others {
            push_next(text, usize::from(*value));
        }
    }
    text.push('\n');
}

// finished STEPS COUNT, and a line for each of the packets, which stand in the words one after the other, k values each
pub fn finished(f: Finish, k: usize, words: &[u16]) -> Text
    requires eight { k ≤ 8 }
    requires few { f.count ≤ 16 }
    requires room { f.count * k ≤ length words.now }
    ensures { result.bytes ≡ finished_lines k f words.now }
{
    let mut text = opening("finished", f.steps, f.count);
    text.push('\n');
    for i in 0..f.count {
        push_values(&mut text, &words[i * k..(i + 1) * k]);
    }
    text
}
