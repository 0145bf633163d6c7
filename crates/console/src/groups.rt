// `group`, `groups`, `fetch` and `undo`: lists of codes, cut into undo groups.
ghost use Rattle.std.specs.Prelude.{◌≤◌, length, IfOk};

use crate::commands::{list_of, number_at, too_many};
use crate::session::{NUMBERS, Session};
use answers::groups;
use answers::refusal::{Kind, Wrong};
use text::list::as_bytes;
use text::word::{is_end, is_same, word_from};

// What is asked of a list of codes: by which trim key's code, and at which place.
#[derive(Clone, Copy)]
struct Asked {
    trim: u8,
    place: usize,
    // how many codes the list has
    count: usize,
}

// The codes that stand in a line from a place on: how many there are.
fn codes_at(line: &[u8], from: usize, list: &mut [u16], codes: &mut [u8]) -> Result<usize, Wrong>
    requires { from ≤ length line.now }
    ensures { IfOk result (λ count. count ≤ length codes.new) }
{
    let count = list_of(line, from, Kind::Code, list)?;
    Ok(as_bytes(&list[..count], codes))
}

// TRIM, from a place on: the trim key's code, and the place behind it.
fn trim_at(line: &[u8], from: usize) -> Result<(u8, usize), Wrong>
    requires { from ≤ length line.now }
    ensures { IfOk result (λ told. told.1 ≤ length line.now) }
{
    let (code, end) = number_at(line, from, Kind::Code)?;
    Ok(((code % 256) as u8, end))
}

// RULE TRIM: the trim key's code, and the place behind it.
fn trim_of(line: &[u8]) -> Result<(u8, usize), Wrong>
    ensures { IfOk result (λ told. told.1 ≤ length line.now) }
{
    let (_, end) = number_at(line, 0, Kind::Rule)?;
    trim_at(line, end)
}

// RULE TRIM PLACE C0 C1 ..
fn asked_of(line: &[u8], list: &mut [u16], codes: &mut [u8]) -> Result<Asked, Wrong>
    ensures { IfOk result (λ asked. asked.count ≤ length codes.new) }
{
    let (trim, end) = trim_of(line)?;
    let (place, end) = number_at(line, end, Kind::Place)?;
    let count = codes_at(line, end, list, codes)?;
    Ok(Asked {
        trim,
        place: place as usize,
        count,
    })
}

// kept: `fetch` is its like; three lines each are plainer than one function that is given the answer
// `group RULE TRIM PLACE C0 C1 ..`
pub(crate) fn group(s: &mut Session, rest: &[u8]) -> Result<(), Wrong> {
    // kept: no heap
    let mut codes = [0; NUMBERS];
    let Asked { trim, place, count } = asked_of(rest, &mut s.list, &mut codes)?;
    groups::stand(&mut s.out, trim, &codes[..count], place);
    Ok(())
}

// `groups RULE TRIM C0 C1 ..`
pub(crate) fn all(s: &mut Session, rest: &[u8]) -> Result<(), Wrong> {
    // kept: no heap
    let mut codes = [0; NUMBERS];
    let (trim, end) = trim_of(rest)?;
    let count = codes_at(rest, end, &mut s.list, &mut codes)?;
    groups::all(&mut s.out, trim, &codes[..count]);
    Ok(())
}

// `fetch RULE TRIM PLACE C0 C1 ..`
pub(crate) fn fetch(s: &mut Session, rest: &[u8]) -> Result<(), Wrong> {
    // kept: no heap
    let mut codes = [0; NUMBERS];
    let Asked { trim, place, count } = asked_of(rest, &mut s.list, &mut codes)?;
    groups::stretch(&mut s.out, trim, &codes[..count], place);
    Ok(())
}

// `undo TRIM : C0 C1 ..`, from the place behind TRIM on.
fn undo_list(s: &mut Session, rest: &[u8], from: usize, trim: u8) -> Result<(), Wrong>
    requires { from ≤ length rest.now }
{
    let w = word_from(rest, from);
    if !is_same(&rest[w.start..w.end], b":") {
        return Err(too_many());
    }
    // kept: no heap
    let mut codes = [0; NUMBERS];
    let count = codes_at(rest, w.end, &mut s.list, &mut codes)?;
    groups::drawn(&mut s.out, trim, &codes[..count], false);
    Ok(())
}

// `undo TRIM`, `undo TRIM : C0 C1 ..`
pub(crate) fn undo(s: &mut Session, rest: &[u8]) -> Result<(), Wrong> {
    let (trim, end) = trim_at(rest, 0)?;
    if !is_end(rest, end) {
        return undo_list(s, rest, end, trim);
    }
    groups::drawn(&mut s.out, trim, s.fetched.kept(), s.fetched.is_more());
    Ok(())
}
