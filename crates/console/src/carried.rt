// `unpack HEX..` and `play HEX..`: what a packed list holds, and the panel after it.
ghost use Rattle.std.specs.Prelude.{◌≤◌, length};

use crate::commands::bytes_of;
use crate::made::{BYTES, address, make, reset};
use crate::reply::told;
use crate::session::Session;
use crate::typed::{plain, samples_of};
use answers::out::Output;
use answers::refusal::Wrong;
use carry::call::{Call, Kind, Place};
use carry::reader;
use numbers::{DONE, Refusal};
use text::list::as_bytes;

// Space for the bytes of the longest line.
const LENGTH: usize = 8192;

// A write as it is typed.
fn write_shown(out: &mut Output, call: &Call) {
    // kept: no heap
    let mut bytes = [0; 32];
    as_bytes(&call.values, &mut bytes);
    out.hex(b"write ", address(call));
    out.listed(&bytes[..usize::from(call.count).min(32)]);
}

// A read as it is typed.
fn read_shown(out: &mut Output, call: &Call) {
    out.hex(b"read ", address(call));
    out.put(b' ');
    out.decimal(u32::from(call.count));
}

// A call as it is typed.
fn call_shown(out: &mut Output, call: &Call) {
    match call.kind() {
        Kind::Look => {
            out.text(b"look");
            out.samples(&samples_of(call));
        }
        Kind::Write => write_shown(out, call),
        Kind::Read => read_shown(out, call),
        Kind::Reset => out.text(b"reset"),
    }
}

// The call at a place of a packed list, and the place moves behind it; none at the list's end.
fn next_call(bytes: &[u8], place: &mut Place) -> Option<Call> {
    let record = reader::record_at(bytes, place.byte, place.bit);
    if record.end || record.number != DONE {
        return None;
    }
    *place = Place {
        byte: record.byte,
        bit: record.bit,
    };
    Some(record.call)
}

// The calls of a packed list, as they are typed.
fn calls_shown(out: &mut Output, bytes: &[u8]) {
    let mut place = Place { byte: 0, bit: 0 };
    let mut between = b" ".as_slice();
    // kept: a count ends the loop, of more turns than a list has records
    for _ in 0..u64::MAX {
        let Some(call) = next_call(bytes, &mut place) else {
            break;
        };
        out.text(between);
        call_shown(out, &call);
        between = b" ; ";
    }
}

// The number of a list, and its calls if it is one.
fn unpacked(out: &mut Output, bytes: &[u8]) {
    match reader::check(bytes) {
        Ok(()) => {
            out.decimal(u32::from(DONE));
            calls_shown(out, bytes);
            out.end();
        }
        declined => told(out, declined),
    }
}

// `unpack HEX..`
pub(crate) fn unpack(s: &mut Session, rest: &[u8]) -> Result<(), Wrong>
    requires { length rest.now ≤ 16384 }
{
    // kept: no heap
    let mut bytes = [0; LENGTH];
    let count = bytes_of(rest, &mut bytes)?;
    unpacked(&mut s.out, &bytes[..count]);
    Ok(())
}

// Makes a call of a list and records it. After a look the contacts are as its samples.
fn made_on(s: &mut Session, call: Call) {
    // kept: no heap
    let mut bytes = [0; BYTES];
    let _ = make(s, &call, &mut bytes);
    s.tape.record(call);
    if call.kind() == Kind::Look {
        s.contacts = samples_of(&call);
    }
}

// The calls of a list, made on a panel that was reset: they are recorded behind a reset.
fn walked(s: &mut Session, bytes: &[u8]) {
    reset(s);
    s.tape.record(plain(Kind::Reset, 0, 0));
    let mut place = Place { byte: 0, bit: 0 };
    // kept: a count, as above
    for _ in 0..u64::MAX {
        let Some(call) = next_call(bytes, &mut place) else {
            break;
        };
        made_on(s, call);
    }
}

// The panel is reset and makes the calls of a packed list. A list that is none is declined, and nothing is played.
pub(crate) fn played(s: &mut Session, bytes: &[u8]) -> Result<(), Refusal> {
    reader::check(bytes)?;
    walked(s, bytes);
    Ok(())
}

// `play HEX..`
pub(crate) fn play(s: &mut Session, rest: &[u8]) -> Result<(), Wrong>
    requires { length rest.now ≤ 16384 }
{
    // kept: no heap
    let mut bytes = [0; LENGTH];
    let count = bytes_of(rest, &mut bytes)?;
    let outcome = played(s, &bytes[..count]);
    told(&mut s.out, outcome);
    Ok(())
}
