// The player: the calls of a packed list, made one after the other on a panel that was reset.
ghost use Rattle.std.specs.Prelude.{◌≡◌, true, map, length};
ghost use Rattle.state.specs.Module.{fresh};
ghost use Rattle.carry.specs.Carried.{fits, unpack};
ghost use Rattle.carry.specs.Calls.{carried, low};
ghost use Rattle.carry.specs.Reader.{is_list};
ghost use Rattle.carry.specs.Player.{stepped, played_as, play_call};

use crate::call::{Call, Kind, Place};
use crate::reader::{Rest, check};
use calls::Done;
use state::Module;

// Numbers as bytes.
fn bytes_of(values: &[u16; 32]) -> [u8; 32]
    ensures { result ≡ map low values.now }
{
    // kept: no heap
    let mut bytes = [0; 32];
    for (i, value) in values.iter().enumerate() {
        bytes[i] = (*value % 256) as u8;
    }
    bytes
}

// A call that fits is made, and done or declined.
fn step(m: &mut Module, call: Call)
    requires { fits (carried call) ≡ true }
    ensures { m.new ≡ stepped m.old (carried call) }
{
    let first = (call.first % 256) as u8;
    let n = usize::from(call.count);
    match call.kind() {
        Kind::Look => {
            let _ = calls::lent::look(m, &call.values[0..n]);
        }
        Kind::Write => {
            let _ = calls::lent::write(m, first, &bytes_of(&call.values)[0..n]);
        }
        Kind::Read => {
            let _ = calls::lent::read(m, first, &mut [0; 32][0..n]);
        }
        Kind::Reset => *m = calls::reset().after,
    }
}

// The module after the calls of a packed list.
fn played(bytes: &[u8]) -> Module
    requires { is_list (unpack bytes.now) ≡ true }
    ensures { result ≡ (played_as (unpack bytes.now)).after }
{
    let mut m = state::fresh();
    let mut place = Place::FRONT;
    // kept: it goes from record to record, and counts no index.
    loop {
        let rest = Rest::from_place(bytes, place);
        if rest.is_end() {
            return m;
        }
        step(&mut m, rest.told());
        place = place.behind(rest.size());
    }
}

// Plays a packed list on a panel that is reset first. A list that is none is declined before any call is made.
pub fn play(bytes: &[u8]) -> Done
    ensures { result ≡ play_call bytes.now }
{
    match check(bytes) {
        Ok(()) => Done {
            after: played(bytes),
            number: numbers::DONE,
        },
        Err(refusal) => Done {
            after: state::fresh(),
            number: refusal.number(),
        },
    }
}
