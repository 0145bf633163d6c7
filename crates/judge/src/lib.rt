// What is declined by a call's arguments alone, before any state is looked at.
#![tactic(auto)]

ghost use Rattle.std.specs.Prelude.{◌≡◌, not, length};
ghost use Rattle.words.specs.Words.{all};
ghost use Rattle.numbers.specs.Numbers.{number_of};
ghost use Rattle.numbers.specs.Refusals.{told};
ghost use Rattle.judge.specs.Lines.{high, sample_lines, access_lines, byte_fits, sizes_fit, read_lines, write_lines, key_lines, pin_lines};

use keys::{Col, Row};
use numbers::Refusal;
use registers::{Access, Register};

// Has no sample bit 13, 14 or 15 set?
fn are_narrow(samples: &[u16]) -> bool
    ensures { result ≡ all (λ x. not (high x)) samples.now }
{
    samples.iter().all(|sample| *sample < 0x2000)
}

// Is a look declined by its samples? By 1 or 2.
pub fn of_samples(samples: &[u16]) -> Result<(), Refusal>
    ensures { told result ≡ number_of (sample_lines samples.now) }
{
    if samples.len() != 8 {
        return Err(Refusal::NotEight);
    }
    if !are_narrow(samples) {
        return Err(Refusal::HighBits);
    }
    Ok(())
}

// Is an access declined by its first address and its length? By 3, 4 or 5.
fn of_access(way: Access, first: u16, count: usize) -> Result<(), Refusal>
    ensures { told result ≡ number_of (access_lines way first count) }
{
    if count < 1 {
        return Err(Refusal::NoBytes);
    }
    if 32 < count {
        return Err(Refusal::TooMany);
    }
    if !registers::is_run_allowed(way, first, count) {
        return Err(Refusal::NotAllowed);
    }
    Ok(())
}

// Is a byte for this register acceptable, if the register is KBDSIZE?
fn is_fit(register: Register, byte: u8) -> bool
    ensures { result ≡ byte_fits register byte }
{
    match register {
        Register::KBDSIZE => keys::is_acceptable(byte),
        _ => true,
    }
}

// Is every byte for KBDSIZE acceptable?
fn are_fit(first: u16, bytes: &[u8]) -> bool
    ensures { result ≡ sizes_fit first bytes.now }
{
    let mut address = first;
    for byte in bytes {
        if !is_fit(registers::register_at(address), *byte) {
            return false;
        }
        address = registers::next_address(address);
    }
    true
}

// Is a question declined by its row and column? By 7.
pub fn of_key(row: Row, col: Col) -> Result<(), Refusal>
    ensures { told result ≡ number_of (key_lines row.0 col.0) }
{
    if !keys::is_key(row, col) {
        return Err(Refusal::NoKey);
    }
    Ok(())
}

// Is a read declined? By 3, 4 or 5.
pub fn of_read(first: u16, count: usize) -> Result<(), Refusal>
    ensures { told result ≡ number_of (read_lines first count) }
{
    of_access(Access::Read, first, count)
}

// Is a write declined? By 3, 4, 5 or 6.
pub fn of_write(first: u16, bytes: &[u8]) -> Result<(), Refusal>
    ensures { told result ≡ number_of (write_lines first bytes.now) }
{
    of_access(Access::Write, first, bytes.len())?;
    if !are_fit(first, bytes) {
        return Err(Refusal::BadSize);
    }
    Ok(())
}

// Are pin samples, bit i for pin i, declined? By 26.
pub fn of_pins(samples: u32) -> Result<(), Refusal>
    ensures { told result ≡ number_of (pin_lines samples) }
{
    if 0x80000 <= samples {
        return Err(Refusal::BadPins);
    }
    Ok(())
}
