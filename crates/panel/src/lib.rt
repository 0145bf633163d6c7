// The face for C (include/panel.h): reset by value, seven calls and blocks of looks over a module that is lent, transfers on a bus over a wire that is lent, and sessions carried, by value again.
#![tactic(auto)]

ghost use Rattle.std.specs.Prelude.{◌≡◌, length};
ghost use Rattle.calls.specs.Calls.{reset_call};
ghost use Rattle.carry.specs.Calls.{call_at};
ghost use Rattle.carry.specs.Writer.{pack_call, pack_buffer, add_call, add_buffer};
ghost use Rattle.carry.specs.Reader.{record_at};
ghost use Rattle.wire.specs.Wire.{begin_read, begin_write, take_byte, next_byte, stop, drop_open};
ghost use Rattle.panel.specs.Lent.{LookLent, LooksLent, WriteLent, ReadLent, HeldLent, InterruptLent, PinsLent, DriveLent, BegunLent, KeptLent, HandedLent, EndedLent};
ghost use Rattle.panel.specs.Written.{of_packed, of_added};

use calls::Done;
use calls::lent::{self, Levels};
use carry::call::Place;
use carry::reader::Record;
use keys::{Col, Row};
use state::Module;
use wire::Wire;

// kept: the C interface: a function for each name in include/panel.h, and numbers for refusals.

// One look; the module is altered where it is.
#[unsafe(no_mangle)]
pub extern "C" fn panel_look(m: &mut Module, samples: &[u16]) -> u8
    ensures { LookLent m.old samples.now result m.new }
{
    numbers::told(lent::look(m, samples))
}

// Several looks; the module is altered where it is, and how many were done is written where it is lent.
#[unsafe(no_mangle)]
pub extern "C" fn panel_looks(m: &mut Module, samples: &[u16], done: &mut usize) -> u8
    ensures { LooksLent m.old samples.now result m.new done.new }
{
    let made = lent::looks(m, samples);
    *done = made.done;
    numbers::told(made.outcome)
}

// A write access; the module is altered where it is.
#[unsafe(no_mangle)]
pub extern "C" fn panel_write(m: &mut Module, first: u8, bytes: &[u8]) -> u8
    ensures { WriteLent m.old first bytes.now result m.new }
{
    numbers::told(lent::write(m, first, bytes))
}

// A read access; the module is altered where it is, and the caller's buffer is filled.
#[unsafe(no_mangle)]
pub extern "C" fn panel_read(m: &mut Module, first: u8, out: &mut [u8]) -> u8
    ensures { ReadLent m.old first out.old result m.new out.new }
{
    numbers::told(lent::read(m, first, out))
}

// Reset, by value: C's memory may hold anything before it.
#[unsafe(no_mangle)]
pub extern "C" fn panel_reset_value() -> Done
    ensures { result ≡ reset_call }
{
    calls::reset()
}

// Is this key held? The module is lent to be looked at only.
#[unsafe(no_mangle)]
pub extern "C" fn panel_held(m: &Module, row: Row, col: Col, yes: &mut bool) -> u8
    ensures { HeldLent m.now row.0 col.0 result yes.new }
{
    let answer = lent::held(m, row, col);
    *yes = answer.unwrap_or(false);
    numbers::told(answer)
}

// Is the interrupt line asserted? The module is lent to be looked at only.
#[unsafe(no_mangle)]
pub extern "C" fn panel_interrupt(m: &Module, yes: &mut bool) -> u8
    ensures { InterruptLent m.now result yes.new }
{
    let answer = lent::interrupt(m);
    *yes = answer.unwrap_or(false);
    numbers::told(answer)
}

// The pins are sampled, bit i for pin i; the module is altered where it is.
#[unsafe(no_mangle)]
pub extern "C" fn panel_pins(m: &mut Module, samples: u32) -> u8
    ensures { PinsLent m.old samples result m.new }
{
    numbers::told(lent::pins(m, samples))
}

// Which pins are driven, and to what level? The module is lent to be looked at only.
#[unsafe(no_mangle)]
pub extern "C" fn panel_drive(m: &Module, driven: &mut u32, level: &mut u32) -> u8
    ensures { DriveLent m.now result driven.new level.new }
{
    let answer = lent::drive(m);
    let levels = answer.unwrap_or(Levels::NONE);
    *driven = levels.driven;
    *level = levels.level;
    numbers::told(answer)
}

// The host begins a read on the bus; the module is lent to be looked at only, and the wire is altered where it is.
#[unsafe(no_mangle)]
pub extern "C" fn panel_wire_ahead(m: &Module, w: &mut Wire) -> u8
    ensures { BegunLent (begin_read m.now w.old) result w.new }
{
    numbers::told(wire::begin_read(m, w))
}

// The host begins a write on the bus.
#[unsafe(no_mangle)]
pub extern "C" fn panel_wire_listens(m: &Module, w: &mut Wire) -> u8
    ensures { BegunLent (begin_write m.now w.old) result w.new }
{
    numbers::told(wire::begin_write(m, w))
}

// A byte came from the host; the wire is altered where it is.
#[unsafe(no_mangle)]
pub extern "C" fn panel_wire_takes(w: &mut Wire, byte: u8) -> bool
    ensures { KeptLent (take_byte w.old byte) result w.new }
{
    wire::take_byte(w, byte)
}

// The bus asks for a byte; the wire is altered where it is.
#[unsafe(no_mangle)]
pub extern "C" fn panel_wire_gives(w: &mut Wire) -> u8
    ensures { HandedLent (next_byte w.old) result w.new }
{
    wire::next_byte(w)
}

// The transfer stops, so many bytes of a read having been sent: how many bytes its access has. The module is lent to be looked at only.
#[unsafe(no_mangle)]
pub extern "C" fn panel_wire_ends(m: &Module, w: &mut Wire, sent: u32) -> u8
    ensures { EndedLent (stop m.now w.old sent) result w.new }
{
    wire::stop(m, w, sent)
}

// The transfer is dropped; the wire is altered where it is.
#[unsafe(no_mangle)]
pub extern "C" fn panel_wire_drops(w: &mut Wire) -> bool
    ensures { KeptLent (drop_open w.old) result w.new }
{
    wire::drop_open(w)
}

// How far a list is written: bytes, bits more, and the call's number. Three words, so that C gets it in memory on every target. kept: the C interface.
#[repr(C)]
#[derive(Clone, Copy)]
pub struct Written {
    pub byte: usize,
    pub bit: usize,
    pub number: usize,
}

// A list of calls, 35 numbers a call, as a packed list, at the front of the buffer.
#[unsafe(no_mangle)]
pub extern "C" fn panel_pack_numbers(calls: &[u16], out: &mut [u8]) -> Written
    ensures { (result ≡ of_packed (pack_call calls.now (length out.old))) × (out.new ≡ pack_buffer calls.now out.old) }
{
    let length = carry::writer::pack(calls, out);
    Written {
        byte: length.unwrap_or(0),
        bit: 0,
        number: usize::from(numbers::told(length)),
    }
}

// One call more, of 35 numbers: its record goes behind so many bytes and bits of the buffer.
#[unsafe(no_mangle)]
pub extern "C" fn panel_add_numbers(
    call: &[u16; 35],
    out: &mut [u8],
    byte: usize,
    bit: u8,
) -> Written
    ensures { (result ≡ of_added (add_call (call_at call.now 0) (length out.old) byte bit)) × (out.new ≡ add_buffer (call_at call.now 0) out.old byte bit) }
{
    let place = Place { byte, bit };
    let behind = carry::writer::add(carry::call::call_at(call, 0), out, place);
    let at = behind.unwrap_or(place);
    Written {
        byte: at.byte,
        bit: usize::from(at.bit),
        number: usize::from(numbers::told(behind)),
    }
}

// The call whose record is behind so many bytes and bits of a packed list, and the place behind it.
#[unsafe(no_mangle)]
pub extern "C" fn panel_unpack_value(bytes: &[u8], byte: usize, bit: u8) -> Record
    ensures { result ≡ record_at bytes.now byte bit }
{
    carry::reader::record_at(bytes, byte, bit)
}
