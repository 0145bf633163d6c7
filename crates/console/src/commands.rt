// The words behind a command: no more words, one number, two numbers, a key, a list of numbers, bytes as digits.
ghost use Rattle.std.specs.Prelude.{◌≡◌, ◌≤◌, length, IfOk};

use answers::refusal::{Kind, Wrong};
use keys::{Col, Row};
use text::number::{Fault, digit_of, number_of};
use text::word::{Word, is_blank, is_end, word_from};

// The base of a number.
fn base_of(kind: Kind) -> usize
    ensures { result ≤ 16 }
{
    match kind {
        Kind::Sample | Kind::Byte | Kind::Code | Kind::Pins => 16,
        _ => 10,
    }
}

// The most that a number can be.
fn most_of(kind: Kind) -> u32 {
    match kind {
        Kind::Sample => 0xFFFF,
        Kind::Count => 1024,
        Kind::Row => 7,
        Kind::Col => 12,
        Kind::Looks => 65535,
        Kind::Room | Kind::Place => 999999,
        Kind::Rule => 1,
        Kind::Pins => 0xFFFFFFFF,
        _ => 0xFF,
    }
}

// The number of a word; SF, in either case, is column 12, and no rule is 0.
fn value_of(word: &[u8], kind: Kind) -> Result<u32, Fault> {
    let number = number_of(word, base_of(kind), most_of(kind));
    match (kind, word) {
        (Kind::Col, [b'S' | b's', b'F' | b'f']) => Ok(12),
        (Kind::Rule, _) if number == Ok(0) => Err(Fault::TooLarge),
        _ => number,
    }
}

// What is wrong with no word of its own.
fn of_line(fault: Fault, kind: Kind) -> Wrong {
    Wrong {
        fault,
        kind,
        word: Word { start: 0, end: 0 },
    }
}

// A word too many.
pub(crate) fn too_many() -> Wrong {
    of_line(Fault::TooMany, Kind::Byte)
}

// Too few words.
pub(crate) fn too_few() -> Wrong {
    of_line(Fault::TooFew, Kind::Byte)
}

// There are no more words.
pub(crate) fn no_more(line: &[u8]) -> Result<(), Wrong> {
    if !is_end(line, 0) {
        return Err(too_many());
    }
    Ok(())
}

// The number of the next word, from a place on, and the place behind the word.
pub(crate) fn number_at(line: &[u8], from: usize, kind: Kind) -> Result<(u32, usize), Wrong>
    requires { from ≤ length line.now }
    ensures { IfOk result (λ told. told.1 ≤ length line.now) }
{
    let word = word_from(line, from);
    match value_of(&line[word.start..word.end], kind) {
        Ok(number) => Ok((number, word.end)),
        Err(fault) => Err(Wrong { fault, kind, word }),
    }
}

// The number of the last word, from a place on.
pub(crate) fn last_number(line: &[u8], from: usize, kind: Kind) -> Result<u32, Wrong>
    requires { from ≤ length line.now }
{
    let w = word_from(line, from);
    no_more(&line[w.end..])?;
    let (number, _) = number_at(line, from, kind)?;
    Ok(number)
}

// Two numbers, of two kinds.
pub(crate) fn pair_of(line: &[u8], kind: Kind, second: Kind) -> Result<(u32, u32), Wrong> {
    let (first, end) = number_at(line, 0, kind)?;
    Ok((first, last_number(line, end, second)?))
}

// A row and a column, of two kinds.
pub(crate) fn key_of(line: &[u8], kind: Kind, second: Kind) -> Result<(Row, Col), Wrong> {
    let (row, col) = pair_of(line, kind, second)?;
    Ok((Row((row % 256) as u8), Col((col % 256) as u8)))
}

// The numbers of all words from a place on, samples, bytes or codes, go to the list: how many there are.
pub(crate) fn list_of(
    line: &[u8],
    from: usize,
    kind: Kind,
    numbers: &mut [u16],
) -> Result<usize, Wrong>
    requires { from ≤ length line.now }
    ensures { IfOk result (λ count. count ≤ length numbers.new) }
{
    let mut at = from;
    for (count, place) in numbers.iter_mut().enumerate() {
        if is_end(line, at) {
            return Ok(count);
        }
        let (number, end) = number_at(line, at, kind)?;
        *place = (number % 65536) as u16;
        at = end;
    }
    Err(too_many())
}

// A byte with one digit more behind its last.
fn with_digit(byte: u8, digit: usize) -> u8 {
    byte % 16 * 16 + (digit % 16) as u8
}

// The digits of all words, two a byte, go to the bytes: how many there are.
pub(crate) fn bytes_of(line: &[u8], bytes: &mut [u8]) -> Result<usize, Wrong>
    requires { (length line.now ≤ 16384) × (8192 ≡ length bytes.old) }
    ensures { IfOk result (λ count. count ≤ length bytes.new) }
{
    let mut start = 0;
    let mut digits = 0;
    for (i, byte) in line.iter().enumerate() {
        if let Some(digit) = digit_of(*byte) {
            bytes[digits / 2] = with_digit(bytes[digits / 2], digit);
            digits += 1;
        } else if is_blank(*byte) {
            start = i + 1;
        } else {
            return Err(Wrong {
                fault: Fault::NoDigit,
                kind: Kind::Packed,
                word: word_from(line, start),
            });
        }
    }
    if digits % 2 == 1 {
        return Err(of_line(Fault::Odd, Kind::Packed));
    }
    Ok(digits / 2)
}
