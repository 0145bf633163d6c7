// Calls as they are typed: `reset`, `look S0 S1 ..`, `write AA B0 B1 ..`, `read AA COUNT`.
ghost use Rattle.std.specs.Prelude.{◌≡◌, ◌≤◌, length, true, IfSome};
ghost use Rattle.text.specs.Line.{same};
ghost use Rattle.console.specs.Names.{call_name};

use crate::commands::{list_of, no_more, pair_of, too_few};
use answers::refusal::{Kind, Wrong};
use carry::call;
use carry::call::Call;
use text::list::copied;
use text::word::is_same;

// The kind of the call that a word names.
pub(crate) fn kind_of(word: &[u8]) -> Option<call::Kind>
    ensures { IfSome result (λ kind. (same word.now (call_name kind) ≡ true) × (4 ≤ length word.now)) }
{
    match word {
        _ if is_same(word, b"look") => Some(call::Kind::Look),
        _ if is_same(word, b"write") => Some(call::Kind::Write),
        _ if is_same(word, b"read") => Some(call::Kind::Read),
        _ if is_same(word, b"reset") => Some(call::Kind::Reset),
        _ => None,
    }
}

// How a call of a kind is typed.
pub(crate) fn form_of(kind: call::Kind) -> &'static [u8] {
    match kind {
        call::Kind::Look => b"look S0 S1 ..",
        call::Kind::Write => b"write AA B0 B1 ..",
        call::Kind::Read => b"read AA COUNT",
        call::Kind::Reset => b"reset",
    }
}

// A call of a kind, with no list.
pub(crate) fn plain(kind: call::Kind, first: u32, count: u32) -> Call {
    Call {
        kind: u16::from(kind),
        first: (first % 256) as u16,
        count: (count % 65536) as u16,
        values: [0; 32],
    }
}

// The samples of a look: the first eight of its values.
pub(crate) fn samples_of(call: &Call) -> [u16; 8] {
    let mut samples = [0; 8];
    samples.copy_from_slice(&call.values[..8]);
    samples
}

// A look at samples.
pub(crate) fn look_at(samples: &[u16; 8]) -> Call {
    with_list(call::Kind::Look, 0, samples)
}

// A call of a kind with the numbers of a list.
fn with_list(kind: call::Kind, first: u16, list: &[u16]) -> Call {
    let mut values = [0; 32];
    copied(list, &mut values);
    Call {
        kind: u16::from(kind),
        first,
        count: list.len().min(65535) as u16,
        values,
    }
}

// What stands behind `look`.
fn look(rest: &[u8], list: &mut [u16]) -> Result<Call, Wrong> {
    let count = list_of(rest, 0, Kind::Sample, list)?;
    Ok(with_list(call::Kind::Look, 0, &list[..count]))
}

// What stands behind `write`: an address and bytes.
fn write(rest: &[u8], list: &mut [u16]) -> Result<Call, Wrong> {
    let count = list_of(rest, 0, Kind::Byte, list)?;
    match &list[..count] {
        [] => Err(too_few()),
        [first, bytes @ ..] => Ok(with_list(call::Kind::Write, *first, bytes)),
    }
}

// What stands behind `read`.
fn read(rest: &[u8]) -> Result<Call, Wrong> {
    let (first, count) = pair_of(rest, Kind::Byte, Kind::Count)?;
    Ok(plain(call::Kind::Read, first, count))
}

// What stands behind `reset`.
fn reset(rest: &[u8]) -> Result<Call, Wrong> {
    no_more(rest)?;
    Ok(plain(call::Kind::Reset, 0, 0))
}

// A call of a kind, with the words behind its name; its numbers go to the list.
pub(crate) fn call_of(kind: call::Kind, rest: &[u8], list: &mut [u16]) -> Result<Call, Wrong> {
    match kind {
        call::Kind::Look => look(rest, list),
        call::Kind::Write => write(rest, list),
        call::Kind::Read => read(rest),
        call::Kind::Reset => reset(rest),
    }
}
