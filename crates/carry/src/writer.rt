// The writer: a list of calls as a packed list.
ghost use Rattle.std.specs.Prelude.{◌≡◌, ◌+◌, ◌*◌, ◌/◌, ◌≤◌, length, IfOk};
ghost use Rattle.numbers.specs.Numbers.{number_of};
ghost use Rattle.numbers.specs.Refusals.{told};
ghost use Rattle.bits.specs.Bits.{laid, bytes_for};
ghost use Rattle.carry.specs.Carried.{records};
ghost use Rattle.carry.specs.Calls.{listed};
ghost use Rattle.carry.specs.Places.{bits_to};
ghost use Rattle.carry.specs.Writer.{list_lines, as_packed, pack_call, pack_buffer, as_added, add_call, add_buffer};

use crate::call::{Call, NUMBERS, Place, bits_of, call_at, of_call, put_call};
use numbers::Refusal;

// Judges and measures the calls, in one pass: the place behind their records.
fn measured(calls: &[u16]) -> Result<Place, Refusal>
    ensures number { told result ≡ number_of (list_lines (listed calls.now)) }
    ensures place { IfOk result (λ p. (p.bit ≤ 7) × (p.byte ≤ length calls.now / 35 * 34) × (bits_to p ≡ length (records (listed calls.now)))) }
{
    let mut place = Place::FRONT;
    for i in 0..calls.len() / NUMBERS {
        let call = call_at(calls, i);
        of_call(&call)?;
        place = place.behind(bits_of(&call));
    }
    Ok(place)
}

// Lays the records of calls that fit into a buffer that has room for them.
fn put_calls(calls: &[u16], out: &mut [u8])
    requires { (number_of (list_lines (listed calls.now)) ≡ 0) × (bytes_for (length (records (listed calls.now))) ≤ length out.old) }
    ensures { out.new ≡ laid out.old 0 (records (listed calls.now)) }
{
    let mut place = Place::FRONT;
    for i in 0..calls.len() / NUMBERS {
        let call = call_at(calls, i);
        put_call(&mut out[place.byte..], usize::from(place.bit), &call);
        place = place.behind(bits_of(&call));
    }
}

// A list of calls as a packed list, at the front of a buffer: its length.
pub fn pack(calls: &[u16], out: &mut [u8]) -> Result<usize, Refusal>
    ensures { (as_packed result ≡ pack_call calls.now (length out.old)) × (out.new ≡ pack_buffer calls.now out.old) }
{
    let end = measured(calls)?;
    let length = end.byte + (usize::from(end.bit) + 7) / 8;
    if out.len() < length {
        return Err(Refusal::NoRoom);
    }
    put_calls(calls, out);
    Ok(length)
}

// One call more: its record goes to a place of a buffer. The place behind it.
pub fn add(call: Call, out: &mut [u8], place: Place) -> Result<Place, Refusal>
    ensures { (as_added place result ≡ add_call call (length out.old) place.byte place.bit) × (out.new ≡ add_buffer call out.old place.byte place.bit) }
{
    of_call(&call)?;
    let size = bits_of(&call);
    if !place.is_room(out.len(), size) {
        return Err(Refusal::NoRoom);
    }
    put_call(&mut out[place.byte..], usize::from(place.bit), &call);
    Ok(place.behind(size))
}
