// The registers: which stands at an address, what may be read and written, and the addresses of an access.
#![tactic(auto)]

ghost use Rattle.std.specs.Prelude.{◌+◌, ◌≡◌, ◌&&◌, leb, eqb};
ghost use Rattle.registers.specs.Registers.{keypad_at, pin_at, pin_reads, pin_writes, register_at, can_read, can_write, allowed};
ghost use Rattle.registers.specs.Runs.{next, run_allowed};

// The registers by the data sheet's names; KBDCODE holds which of the four it is, PIN the address of a register of the spare pins, IRQST among them.
#[derive(Clone, Copy, Debug, PartialEq, Eq)]
pub enum Register {
    KBDBOUNCE,
    KBDSIZE,
    KBDRIS,
    KBDMIS,
    KBDIC,
    KBDMSK,
    KBDCODE(u8),
    EVTCODE,
    RSTINTCLR,
    PIN(u16),
    Unknown,
}

// The two ways of an access.
#[derive(Clone, Copy, Debug, PartialEq, Eq)]
pub enum Access {
    Read,
    Write,
}

// The first address of the pins' registers.
pub const IRQST: u16 = 0x91;

// May the pins' register at this address be read?
#[tactic(auto, unfolding(crate::specs::Registers::pin_reads))]
fn pin_reads(address: u16) -> bool
    ensures { result ≡ pin_reads address }
{
    matches!(
        address,
        IRQST | 0xAA..=0xAF | 0xC0 | 0xC2 | 0xC4 | 0xC6..=0xD4 | 0xD6..=0xDB | 0xE0..=0xE5
    )
}

// May it be written?
#[tactic(auto, unfolding(crate::specs::Registers::pin_writes))]
fn pin_writes(address: u16) -> bool
    ensures { result ≡ pin_writes address }
{
    matches!(
        address,
        0xAA..=0xAF | 0xC0..=0xD4 | 0xDC..=0xDE | 0xE0..=0xE5
    )
}

// The pins' register at an address from IRQST on.
fn pin_at(address: u16) -> Register
    ensures { result ≡ pin_at address }
{
    if pin_reads(address) || pin_writes(address) {
        Register::PIN(address)
    } else {
        Register::Unknown
    }
}

// The register at an address.
#[tactic(auto, unfolding(crate::specs::Registers::register_at))]
pub fn register_at(address: u16) -> Register
    ensures { result ≡ register_at address }
{
    if address < IRQST {
        keypad_at(address)
    } else {
        pin_at(address)
    }
}

// The keypad's register at an address below IRQST.
fn keypad_at(address: u16) -> Register
    ensures { result ≡ keypad_at address }
{
    match address {
        0x02 => Register::KBDBOUNCE,
        0x03 => Register::KBDSIZE,
        0x06 => Register::KBDRIS,
        0x07 => Register::KBDMIS,
        0x08 => Register::KBDIC,
        0x09 => Register::KBDMSK,
        0x0B..=0x0E => Register::KBDCODE((address - 0x0B) as u8),
        0x10 => Register::EVTCODE,
        0x84 => Register::RSTINTCLR,
        _ => Register::Unknown,
    }
}

// May the register be read?
pub fn can_read(register: Register) -> bool
    ensures { result ≡ can_read register }
{
    match register {
        Register::KBDBOUNCE
        | Register::KBDSIZE
        | Register::KBDRIS
        | Register::KBDMIS
        | Register::KBDMSK
        | Register::KBDCODE(_)
        | Register::EVTCODE => true,
        Register::KBDIC | Register::RSTINTCLR | Register::Unknown => false,
        Register::PIN(address) => pin_reads(address),
    }
}

// May it be written?
pub fn can_write(register: Register) -> bool
    ensures { result ≡ can_write register }
{
    match register {
        Register::KBDBOUNCE
        | Register::KBDSIZE
        | Register::KBDIC
        | Register::KBDMSK
        | Register::RSTINTCLR => true,
        Register::KBDRIS
        | Register::KBDMIS
        | Register::KBDCODE(_)
        | Register::EVTCODE
        | Register::Unknown => false,
        Register::PIN(address) => pin_writes(address),
    }
}

// May the register be accessed so?
#[tactic(auto, unfolding(crate::specs::Registers::allowed))]
pub fn is_allowed(access: Access, register: Register) -> bool
    ensures { result ≡ allowed access register }
{
    match access {
        Access::Read => can_read(register),
        Access::Write => can_write(register),
    }
}

// Does an access stay at this address, byte after byte? At EVTCODE it does.
pub fn stays(address: u16) -> bool
    ensures { result ≡ eqb address 0x10 }
{
    address == 0x10
}

// The address of an access's next byte. 0x100 stands for no address, and none follows it.
#[tactic(auto, unfolding(crate::specs::Runs::next))]
pub fn next_address(address: u16) -> u16
    ensures { result ≡ next address }
{
    if stays(address) || 0x100 <= address {
        address
    } else {
        address + 1
    }
}

// The first of the picture's four registers.
pub const KBDCODE0: u16 = 0x0B;

// Do so many bytes from the address first on all lie in the registers from one address up to another?
pub fn is_run_in(from: u16, to: u16, first: u16, count: usize) -> bool
    ensures { result ≡ (leb from first && leb (first + count) to) }
{
    pins::is_within(from, to, first) && count <= usize::from(to - first)
}

// Do so many bytes from this address on all lie in the picture's four registers?
pub fn is_picture_run(first: u16, count: usize) -> bool
    ensures { result ≡ (leb 0x0B first && leb (first + count) 0x0F) }
{
    is_run_in(KBDCODE0, KBDCODE0 + 4, first, count)
}

// May every address of a run be accessed so?
pub fn is_run_allowed(access: Access, first: u16, count: usize) -> bool
    ensures { result ≡ run_allowed access first count }
{
    let mut address = first;
    for _ in 0..count {
        if !is_allowed(access, register_at(address)) {
            return false;
        }
        address = next_address(address);
    }
    true
}
