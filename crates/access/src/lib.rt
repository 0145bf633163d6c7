// What the bytes of one access do to a module and a buffer.
#![tactic(auto)]

ghost use Rattle.std.specs.Prelude.{◌+◌, ◌≤◌, ◌≡◌, length, true, false};
ghost use Rattle.registers.specs.declared.Access.TheVariants as way;
ghost use Rattle.registers.specs.declared.Register.TheVariants.{PIN};
ghost use Rattle.registers.specs.Registers.{◌is◌};
ghost use Rattle.registers.specs.Runs.{run_allowed};
ghost use Rattle.picture.specs.Picture.{held_codes};
ghost use Rattle.picture.specs.Masks.{by_masks};
ghost use Rattle.access.specs.Bytes as byte;
ghost use Rattle.access.specs.Accesses.{bytes_read, read_all, wrote};
ghost use Rattle.access.specs.Pins.{along, items, kept_run, pin_byte};

use picture::MASKS;
use pins::{KEPT, Pins};
use registers::{IRQST, KBDCODE0, Register};
use state::Module;

// A byte is written to a register.
#[tactic(auto, unfolding(crate::specs::Bytes::written))]
fn written(m: &mut Module, register: Register, b: u8)
    ensures { m.new ≡ byte.written m.old register b }
{
    match register {
        Register::KBDBOUNCE => m.bounce = b,
        Register::KBDSIZE => m.restart(b),
        Register::KBDIC => {
            m.rsint = flags::cleared(m.rsint, 0, b);
            m.rklint = flags::cleared(m.rklint, 0, b);
            m.relint = flags::cleared(m.relint, 1, b);
        }
        Register::KBDMSK => m.mask = b % 16,
        Register::RSTINTCLR => m.porirq = flags::cleared(m.porirq, 0, b),
        Register::PIN(address) => m.pins.write(address, b),
        Register::KBDRIS
        | Register::KBDMIS
        | Register::KBDCODE(_)
        | Register::EVTCODE
        | Register::Unknown => {}
    }
}

// The bytes of a write are written, one at a time, in order.
pub fn write(m: &mut Module, first: u16, bytes: &[u8])
    ensures { m.new ≡ wrote m.old first bytes.now }
{
    let mut address = first;
    for byte in bytes {
        written(m, registers::register_at(address), *byte);
        address = registers::next_address(address);
    }
}

// The byte that a read of a keypad's register gives, and what it does to the module.
#[tactic(auto, using(crate::proofs::Pins::pins_alike), unfolding(crate::specs::Bytes::byte_of, crate::specs::Bytes::read_out))]
fn read_byte(m: &mut Module, register: Register) -> u8
    requires { (register is PIN 0x91) ≡ false }
    ensures { (result ≡ byte.byte_of m.old register) × (m.new ≡ byte.read_out m.old register) }
{
    match register {
        Register::KBDBOUNCE => m.bounce,
        Register::KBDSIZE => m.size,
        Register::KBDRIS => flags::ris(m),
        Register::KBDMIS => flags::mis(m),
        Register::KBDMSK => m.mask,
        Register::KBDCODE(n) => {
            let code = picture::picture(&m.held, n);
            picture::mark(m, n);
            code
        }
        Register::EVTCODE => m.take_oldest(),
        Register::KBDIC | Register::RSTINTCLR | Register::PIN(_) | Register::Unknown => 0,
    }
}

// The keypad's registers: a byte is read into the buffer's first place, and the rest of the buffer is filled by the same rule.
fn fill_from(m: &mut Module, first: u16, out: &mut [u8])
    requires { first + length out.old ≤ 0x91 }
    ensures { (m.new ≡ read_all m.old first (length out.old)) × (out.new ≡ bytes_read m.old first (length out.old)) }
{
    if out.is_empty() {
        return;
    }
    // kept: document 01 names this form, a byte and then the rest of the buffer, lent on; so do the three rules below
    out[0] = read_byte(m, registers::register_at(first));
    if out.len() < 2 {
        return;
    }
    fill_from(m, registers::next_address(first), &mut out[1..]);
}

// EVTCODE, by the same rule: its address stays, so the first place gets the oldest code.
fn fetch(m: &mut Module, out: &mut [u8])
    ensures { (m.new ≡ read_all m.old 0x10 (length out.old)) × (out.new ≡ bytes_read m.old 0x10 (length out.old)) }
{
    if out.is_empty() {
        return;
    }
    out[0] = m.take_oldest();
    fetch(m, &mut out[1..]);
}

// The picture, by the same rule, from register n on, by the rows' masks.
fn show(m: &mut Module, masks: &[u16; MASKS], n: u8, out: &mut [u8])
    requires { (n + length out.old ≤ 4) × (by_masks 0 masks.now ≡ held_codes 0 m.old.held) }
    ensures { (m.new ≡ read_all m.old (0x0B + n) (length out.old)) × (out.new ≡ bytes_read m.old (0x0B + n) (length out.old)) }
{
    if out.is_empty() {
        return;
    }
    out[0] = picture::shown(masks, n);
    picture::mark(m, n);
    show(m, masks, n + 1, &mut out[1..]);
}

// The picture, from register n on. The held keys are looked at once, for the rows' masks.
fn fill_picture(m: &mut Module, n: u8, out: &mut [u8])
    requires { n + length out.old ≤ 4 }
    ensures { (m.new ≡ read_all m.old (0x0B + n) (length out.old)) × (out.new ≡ bytes_read m.old (0x0B + n) (length out.old)) }
{
    let masks = picture::masks(&m.held);
    show(m, &masks, n, out);
}

// Bytes that are at hand, from a place on.
// kept: the library's `copy_from_slice` makes numbers of pointers, which a module for Arm may not (docs/FIRMWARE.md)
fn give(from: &[u8; KEPT], at: usize, out: &mut [u8])
    requires { at + length out.old ≤ 33 }
    ensures { out.new ≡ items from.now at (length out.old) }
{
    for i in 0..out.len() {
        out[i] = from[at + i];
    }
}

// The byte that a read of the pins' register at an address gives, IRQST among them.
#[tactic(auto, unfolding(crate::specs::Pins::pin_byte))]
fn pin_byte(m: &Module, pins: &Pins, address: u16) -> u8
    ensures { result ≡ pin_byte m.now pins.now address }
{
    if address == IRQST {
        flags::irqst(m)
    } else {
        pins.byte(m.size, address)
    }
}

// The pins' registers, by the same rule.
fn fill_each(m: &Module, pins: &Pins, first: u16, out: &mut [u8])
    ensures { out.new ≡ along (pin_byte m.now pins.now) first (length out.old) }
{
    if out.is_empty() {
        return;
    }
    out[0] = pin_byte(m, pins, first);
    if out.len() < 2 {
        return;
    }
    fill_each(m, pins, registers::next_address(first), &mut out[1..]);
}

// Do so many bytes from this address on all read as they are kept?
#[tactic(auto, unfolding(crate::specs::Pins::kept_run))]
fn is_kept_run(first: u16, count: usize) -> bool
    ensures { result ≡ kept_run first count }
{
    registers::is_run_in(0xAA, 0xB0, first, count)
        || registers::is_run_in(0xC6, 0xD5, first, count)
        || registers::is_run_in(0xE0, 0xE6, first, count)
}

// The pins' registers. Those that read as they are kept, and GPIORIS with GPIOMIS, are at hand.
fn fill_shown(m: &Module, pins: &Pins, first: u16, out: &mut [u8])
    ensures { out.new ≡ along (pin_byte m.now pins.now) first (length out.old) }
{
    if is_kept_run(first, out.len()) {
        give(&pins.kept, pins::place(first), out);
    } else if registers::is_run_in(0xD6, 0xDC, first, out.len()) {
        give(&pins.edges(m.size), (first - 0xD6) as usize, out);
    } else {
        fill_each(m, pins, first, out);
    }
}

// The pins' registers, with the newest samples. The module stays.
fn fill_pins(m: &Module, first: u16, out: &mut [u8])
    requires { 0x91 ≤ first }
    ensures { (m.now ≡ read_all m.now first (length out.old)) × (out.new ≡ bytes_read m.now first (length out.old)) }
{
    let pins = Pins {
        level: m.pins.newest(),
        ..m.pins
    };
    fill_shown(m, &pins, first, out);
}

// The buffer is filled by a read that may be done. EVTCODE's address stays, the picture's masks serve all of its bytes, and the pins' registers share no run with the keypad's, so a read there has a rule of its own.
pub fn read(m: &mut Module, first: u16, out: &mut [u8])
    requires { run_allowed way.Read first (length out.old) ≡ true }
    ensures { (m.new ≡ read_all m.old first (length out.old)) × (out.new ≡ bytes_read m.old first (length out.old)) }
{
    if registers::stays(first) {
        fetch(m, out);
    } else if registers::is_picture_run(first, out.len()) {
        fill_picture(m, (first - KBDCODE0) as u8, out);
    } else if IRQST <= first {
        fill_pins(m, first, out);
    } else {
        fill_from(m, first, out);
    }
}

// The bytes that a read which may be done would give: the state stays.
pub fn peek(m: &Module, first: u16, out: &mut [u8])
    requires { run_allowed way.Read first (length out.old) ≡ true }
    ensures { out.new ≡ bytes_read m.now first (length out.old) }
{
    let mut copy = *m;
    read(&mut copy, first, out);
}
