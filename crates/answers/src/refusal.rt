// The lines that tell what is wrong: the word, and what was wanted of it.
ghost use Rattle.answers.specs.Outputs.{Kept, Passed};

use crate::out::Output;
use text::number::Fault;
use text::word::Word;

// What is wanted of a word: a sample; an address or a byte; how many bytes to read; a row or a column that is asked for; the row and the column of a contact;
// how many looks to make; the bytes of a buffer; the digits of a packed list; a code; by which rule and at which place a list of codes is cut;
// a sample of the pins.
#[derive(Clone, Copy, Debug, PartialEq, Eq)]
pub enum Kind {
    Sample,
    Byte,
    Count,
    Asked,
    Row,
    Col,
    Looks,
    Room,
    Packed,
    Code,
    Rule,
    Place,
    Pins,
}

// What is wrong, the word that is, and what was wanted of it.
#[derive(Clone, Copy, Debug, PartialEq, Eq)]
pub struct Wrong {
    pub fault: Fault,
    pub kind: Kind,
    pub word: Word,
}

// How much is shown of a word.
const SHOWN: usize = 20;

// A byte as it is shown; a question mark if it is no printing ASCII.
fn shown(byte: u8) -> u8 {
    if byte.is_ascii_graphic() { byte } else { b'?' }
}

// A word as it is shown, its first bytes.
fn quoted(out: &mut Output, word: &[u8])
    ensures { Passed out.old out.new }
{
    for byte in &word[..word.len().min(SHOWN)] {
        out.put(shown(*byte));
    }
    if SHOWN < word.len() {
        out.text(b"..");
    }
}

// What a word is not, if some digit is none.
fn not_a_number(kind: Kind) -> &'static [u8] {
    match kind {
        Kind::Sample | Kind::Byte | Kind::Packed | Kind::Code | Kind::Pins => {
            b"? not a hexadecimal number: "
        }
        _ => b"? not a decimal number: ",
    }
}

// What was wanted of such a word.
fn digits_wanted(kind: Kind) -> &'static [u8] {
    match kind {
        Kind::Sample => b" (samples are hexadecimal)\n",
        Kind::Byte => b" (addresses and bytes are hexadecimal)\n",
        Kind::Count | Kind::Looks => b" (counts are decimal)\n",
        Kind::Room => b" (the room is decimal)\n",
        Kind::Packed => b" (a packed list is hexadecimal, two digits a byte)\n",
        Kind::Col => b" (columns are 0 to 12, or SF)\n",
        Kind::Code => b" (codes are hexadecimal)\n",
        Kind::Rule | Kind::Place => b" (rules and places are decimal)\n",
        Kind::Pins => b" (pin samples are hexadecimal)\n",
        Kind::Asked | Kind::Row => b" (rows and columns are decimal)\n",
    }
}

// What a number is not, if it is too large.
fn not_in_range(kind: Kind) -> &'static [u8] {
    match kind {
        Kind::Row => b"? not a row: ",
        Kind::Col => b"? not a column: ",
        Kind::Rule => b"? not a rule: ",
        _ => b"? number too large: ",
    }
}

// What was wanted of such a number.
fn range_wanted(kind: Kind) -> &'static [u8] {
    match kind {
        Kind::Sample => b" (a sample is at most FFFF)\n",
        Kind::Byte => b" (an address or a byte is at most FF)\n",
        Kind::Count => b" (1024 at most)\n",
        Kind::Asked => b" (255 at most)\n",
        Kind::Row => b" (rows are 0 to 7)\n",
        Kind::Col => b" (columns are 0 to 12, or SF)\n",
        Kind::Looks => b" (65535 at most)\n",
        Kind::Code => b" (a code is at most FF)\n",
        Kind::Rule => b" (rule 1 is the only one)\n",
        Kind::Pins => b" (a pin sample is at most FFFFFFFF)\n",
        Kind::Room | Kind::Packed | Kind::Place => b" (999999 at most)\n",
    }
}

// The wrong word of a line, between what it is not and what was wanted.
fn word_told(out: &mut Output, line: &[u8], wrong: Wrong, not: &[u8], wanted: &[u8])
    ensures { Kept out.old out.new }
{
    let end = wrong.word.end.min(line.len());
    let start = wrong.word.start.min(end);
    out.text(not);
    quoted(out, &line[start..end]);
    out.text(wanted);
}

// A number of words that the command doesn't take, and the command's form.
fn words_told(out: &mut Output, not: &[u8], form: &[u8])
    ensures { Kept out.old out.new }
{
    out.text(not);
    out.text(b" (");
    out.text(form);
    out.text(b")\n");
}

// What is wrong with a line whose command has this form.
pub fn refusal(out: &mut Output, line: &[u8], wrong: Wrong, form: &[u8])
    ensures { Kept out.old out.new }
{
    let kind = wrong.kind;
    match wrong.fault {
        Fault::NoDigit => word_told(out, line, wrong, not_a_number(kind), digits_wanted(kind)),
        Fault::TooLarge => word_told(out, line, wrong, not_in_range(kind), range_wanted(kind)),
        Fault::TooFew => words_told(out, b"? too few words", form),
        Fault::Odd => out.text(b"? an odd number of digits (two a byte)\n"),
        _ => words_told(out, b"? too many words", form),
    }
}

// A line whose first word is no command.
pub fn unknown(out: &mut Output, word: &[u8])
    ensures { Kept out.old out.new }
{
    out.text(b"? unknown command: ");
    quoted(out, word);
    out.text(b" (help lists them)\n");
}

// A part of a line, between semicolons, whose first word names no call.
fn unknown_call(out: &mut Output, line: &[u8], wrong: Wrong)
    ensures { Kept out.old out.new }
{
    word_told(
        out,
        line,
        wrong,
        b"? unknown call: ",
        b" (a list has reset, look, write and read)\n",
    );
}

// What is wrong with a call of a list, the form of which is this.
pub fn refusal_of_call(out: &mut Output, line: &[u8], wrong: Wrong, form: &[u8])
    ensures { Kept out.old out.new }
{
    match wrong.fault {
        Fault::Unknown => unknown_call(out, line, wrong),
        Fault::Missing => { out.text(b"? no call between semicolons (pack ROOM CALL ; CALL ..)\n") }
        _ => refusal(out, line, wrong, form),
    }
}

// A line that is too long.
pub fn too_long(out: &mut Output)
    ensures { Kept out.old out.new }
{
    out.text(b"? line too long (16384 bytes at most)\n");
}
