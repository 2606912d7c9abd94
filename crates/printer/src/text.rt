// The text that is printed, in fixed memory, and what is added to it: numbers in decimal.
ghost use Rattle.std.specs.Prelude.{◌+◌, ◌≤◌, ◌≡◌, ◌++◌, length};
ghost use Rattle.arrayvec.specs.ArrayString.{array_string_len};
ghost use Rattle.printer.specs.Printing.{decimal, blank_then};

use arrayvec::ArrayString;
use itoa::Buffer;

// No answer has more bytes.
pub const MOST_TEXT: usize = 4096;

pub type Text = ArrayString<MOST_TEXT>;

// A number has at most 20 digits; room is asked for those alone that this one has.
#[tactic(auto, using(crate::proofs::DecimalLaws::decimal_is, crate::proofs::DecimalLaws::decimal_few))]
pub fn push_number(text: &mut Text, n: usize)
    requires { array_string_len text.old + length (decimal n) ≤ MOST_TEXT }
    ensures bytes { text.new.bytes ≡ text.old.bytes ++ decimal n }
    ensures few { array_string_len text.new ≤ array_string_len text.old + 20 }
{
    let mut buffer = Buffer::new();
    text.push_str(buffer.format(n));
}

// A blank and a number.
pub fn push_next(text: &mut Text, n: usize)
    requires { array_string_len text.old + length (blank_then n) ≤ MOST_TEXT }
    ensures bytes { text.new.bytes ≡ text.old.bytes ++ blank_then n }
    ensures few { array_string_len text.new ≤ array_string_len text.old + 21 }
{
    text.push(' ');
    push_number(text, n);
}
