// `pack ROOM CALL ; CALL ..`: a line of calls as a packed list.
ghost use Rattle.std.specs.Prelude.{◌≡◌, ◌≤◌, length, IfSome};

use crate::commands::number_at;
use crate::reply::listed;
use crate::session::Session;
use crate::typed::{call_of, form_of, kind_of};
use answers::out::Output;
use answers::refusal::{Kind, Wrong, refusal_of_call};
use carry::call::{Call, NUMBERS};
use carry::writer;
use text::lines::next_from;
use text::number::Fault;
use text::word::{Word, is_end, word_from};

const SEMICOLON: u8 = b';';

// The bytes of the longest packed list of a line: each call is longer as it is typed.
const LONGEST: usize = 16384;

// The numbers of a call go to their places in a list of calls.
fn store(call: &Call, numbers: &mut [u16])
    requires { length numbers.old ≡ 35 }
{
    numbers[0] = call.kind;
    numbers[1] = call.first;
    numbers[2] = call.count;
    numbers[3..].copy_from_slice(&call.values);
}

// A part of the line whose first word names no call.
fn unnamed(out: &mut Output, part: &[u8], word: Word) {
    let fault = if word.start == word.end {
        Fault::Missing
    } else {
        Fault::Unknown
    };
    let wrong = Wrong {
        fault,
        kind: Kind::Byte,
        word,
    };
    refusal_of_call(out, part, wrong, b"");
}

// The call of a part of the line; if there is none, what is wrong is told.
fn part_call(out: &mut Output, part: &[u8], list: &mut [u16]) -> Option<Call>
    ensures { IfSome result (λ _. 4 ≤ length part.now) }
{
    let w = word_from(part, 0);
    let Some(kind) = kind_of(&part[w.start..w.end]) else {
        unnamed(out, part, w);
        return None;
    };
    let rest = &part[w.end..];
    match call_of(kind, rest, list) {
        Ok(call) => Some(call),
        Err(wrong) => {
            refusal_of_call(out, rest, wrong, form_of(kind));
            None
        }
    }
}

// The calls of a line from a place on: how many there are. If one is wrong, that is told, and there are none.
fn gather(
    out: &mut Output,
    line: &[u8],
    from: usize,
    list: &mut [u16],
    calls: &mut [u16],
) -> Option<usize>
    requires { (from ≤ length line.now) × (length line.now ≤ 16384) × (114695 ≡ length calls.old) }
    ensures { IfSome result (λ count. count ≤ 3277) }
{
    let mut count = 0;
    let mut at = from;
    // kept: the end of a part is searched, and the next part begins behind it: no index counts
    while at <= line.len() {
        let end = next_from(line, at, SEMICOLON);
        let call = part_call(out, &line[at..end], list)?;
        store(&call, &mut calls[count * NUMBERS..(count + 1) * NUMBERS]);
        count += 1;
        at = end + 1;
    }
    Some(count)
}

// The number of a list of calls, and its packed list if it is 0, for a buffer of so many bytes. A greater room than the longest list makes no difference.
fn packed(out: &mut Output, calls: &[u16], room: usize) {
    // kept: no heap
    let mut bytes = [0; LONGEST];
    let n = room.min(LONGEST);
    match writer::pack(calls, &mut bytes[..n]) {
        Ok(length) => listed(out, Ok(&bytes[..length.min(n)])),
        Err(refusal) => listed(out, Err(refusal)),
    }
}

// Space for the calls of a line.
fn space() -> [u16; 114695]
    ensures { 114695 ≡ length result }
{
    [0; 114695]
}

// `pack ROOM CALL ; CALL ..`
pub(crate) fn pack(s: &mut Session, rest: &[u8]) -> Result<(), Wrong>
    requires { length rest.now ≤ 16384 }
{
    let (room, end) = number_at(rest, 0, Kind::Room)?;
    let mut calls = space();
    let count = if is_end(rest, end) {
        Some(0)
    } else {
        gather(&mut s.out, rest, end, &mut s.list, &mut calls)
    };
    if let Some(count) = count {
        packed(&mut s.out, &calls[..count * NUMBERS], room as usize);
    }
    Ok(())
}
