// Numbers read from bits and laid into bits, most significant first. A place is counted in bits.
#![tactic(auto)]

ghost use Rattle.std.specs.Prelude.{◌≡◌, [], ◌++◌, ◌+◌, ◌-◌, ◌*◌, ◌≤◌, ◌<◌, length, get_or, take, replicate, leb};
ghost use Rattle.bits.specs.Bits.{number, numbers, bits_of, spelled, bits_from, laid};

// Have so many bytes room for n bits more, behind a place in the first of them?
pub fn is_room(bytes: usize, place: usize, n: usize) -> bool
    requires { (place ≤ 7) × (n ≤ 500) }
    ensures { result ≡ leb (place + n) (bytes * 8) }
{
    64 <= bytes || place + n <= bytes * 8
}

// A byte of a list; 0 past its end.
fn byte_at(bytes: &[u8], at: usize) -> u32
    ensures { (result ≡ get_or bytes.now at 0) × (result ≤ 255) }
{
    bytes.get(at).map_or(0, |byte| u32::from(*byte))
}

// The number that 24 bits spell, from a byte on.
fn three_bytes(bytes: &[u8], at: usize) -> u32
    requires { at ≤ 200 }
    ensures { (result ≡ number 24 (bits_from bytes.now (at * 8))) × (result < 16777216) }
{
    byte_at(bytes, at) * 65536 + byte_at(bytes, at + 1) * 256 + byte_at(bytes, at + 2)
}

// kept: `width ≤ 13` stands in five contracts: the callers write the width as a literal, and a type for it would be no plainer
// The number that bits spell, from a place on.
pub fn number_at(bytes: &[u8], place: usize, width: u32) -> u16
    requires { (place ≤ 1000) × (width ≤ 13) }
    ensures { result ≡ number width (bits_from bytes.now place) }
{
    let bit = (place % 8) as u32;
    let begun = three_bytes(bytes, place / 8) >> (24 - bit - width);
    (begun % (1 << width)) as u16
}

// The numbers that bits spell, from a place on, so many; behind them 0.
pub fn numbers_at(bytes: &[u8], place: usize, count: usize, width: u32) -> [u16; 32]
    requires { (place ≤ 500) × (count ≤ 32) × (width ≤ 13) }
    ensures { result ≡ numbers count width (bits_from bytes.now place) ++ replicate (32 - count) 0 }
{
    // kept: no heap: 32 numbers, 0 behind those that are asked for
    let mut found = [0u16; 32];
    for i in 0..count {
        found[i] = number_at(bytes, place + i * (width as usize), width);
    }
    found
}

// The number that 24 bits spell: the first bits of a byte, then a number in its width, then 0.
fn joined(byte: u8, bit: u32, x: u16, width: u32) -> u32
    requires { (bit ≤ 7) × (width ≤ 13) }
    ensures { (result ≡ number 24 (take bit (bits_of 8 byte) ++ bits_of width x)) × (result < 16777216) }
{
    let kept = u32::from(byte) >> (8 - bit);
    let low = u32::from(x) % (1 << width);
    ((kept << width) + low) << (24 - bit - width)
}

// A number is laid into bits, at a place; 0 fills its last byte.
pub fn put(out: &mut [u8], place: usize, x: u16, width: u32)
    requires { (place ≤ 1000) × (1 ≤ width) × (width ≤ 13) × (place + width ≤ length out.old * 8) }
    ensures { out.new ≡ laid out.old place (bits_of width x) }
{
    let at = place / 8;
    let bit = (place % 8) as u32;
    let all = joined(out[at], bit, x, width);
    out[at] = (all / 65536) as u8;
    if bit + width <= 8 {
        return;
    }
    out[at + 1] = (all / 256 % 256) as u8;
    if bit + width <= 16 {
        return;
    }
    out[at + 2] = (all % 256) as u8;
}

// Where a place lies within a byte, 0 fills the byte from there on.
fn fill(out: &mut [u8], place: usize)
    requires { place ≤ length out.old * 8 }
    ensures { out.new ≡ laid out.old place [] }
{
    let bit = (place % 8) as u32;
    if bit != 0 {
        let at = place / 8;
        out[at] = (joined(out[at], bit, 0, 0) / 65536) as u8;
    }
}

// Numbers are laid into bits, one behind the other; 0 fills the last byte, also where there is no number.
pub fn put_all(out: &mut [u8], place: usize, numbers: &[u16], width: u32)
    requires { (place ≤ 500) × (length numbers.now ≤ 32) × (1 ≤ width) × (width ≤ 13) × (place + length numbers.now * width ≤ length out.old * 8) }
    ensures { out.new ≡ laid out.old place (spelled width numbers.now) }
{
    fill(out, place);
    for (i, x) in numbers.iter().enumerate() {
        put(out, place + i * (width as usize), *x, width);
    }
}
