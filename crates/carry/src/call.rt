// One call of a list, as numbers; and a place of a packed list.
ghost use Rattle.std.specs.Prelude.{take, ◌≡◌, ◌+◌, ◌*◌, ◌/◌, ◌%◌, ◌<◌, ◌≤◌, ◌^◌, ◌↔◌, IsTrue, length};
ghost use Rattle.numbers.specs.Numbers.{number_of};
ghost use Rattle.numbers.specs.Refusals.{told};
ghost use Rattle.judge.specs.Lines.{sample_lines};
ghost use Rattle.bits.specs.Bits.{laid};
ghost use Rattle.carry.specs.Carried.{packed, size};
ghost use Rattle.carry.specs.Calls.{code, firsts, carried, call_at, header};
ghost use Rattle.carry.specs.Places.{bits_to};
ghost use Rattle.carry.specs.Writer.{count_lines, own_lines};

use numbers::Refusal;

// What kind of call it is, by its number in a record.
#[derive(Clone, Copy, Debug, PartialEq, Eq)]
pub enum Kind {
    Look = 0,
    Write = 1,
    Read = 2,
    Reset = 3,
}

impl Kind {
    // The kind that a number modulo 4 tells.
    pub(crate) fn told_by(number: u16) -> Kind
        ensures { code result ≡ number % 4 }
    {
        match number % 4 {
            0 => Kind::Look,
            1 => Kind::Write,
            2 => Kind::Read,
            _ => Kind::Reset,
        }
    }
}

impl From<Kind> for u16 {
    ghost from_gives = { λ kind number. number ≡ code kind };

    fn from(kind: Kind) -> u16 {
        kind as u16
    }
}

// A call: by its type it can hold what 1 to 4 decline.
// kept: the C interface has its kind as a number, and its samples or bytes as 32 numbers with a count.
#[repr(C)]
#[derive(Clone, Copy)]
pub struct Call {
    // modulo 4: 0 a look, 1 a write, 2 a read, 3 a reset
    pub kind: u16,
    // an access's first address, modulo 256
    pub first: u16,
    // how many samples or bytes
    pub count: u16,
    // the samples, or the bytes modulo 256; those beyond the count are not looked at
    pub values: [u16; 32],
}

impl Call {
    // The kind of the call.
    pub fn kind(&self) -> Kind
        ensures { code result ≡ self.now.kind % 4 }
    {
        Kind::told_by(self.kind)
    }
}

// A place of a packed list, where a record begins: behind so many bytes, and bits more.
#[derive(Clone, Copy, Debug, PartialEq, Eq)]
pub struct Place {
    pub byte: usize,
    pub bit: u8,
}

impl Place {
    // The front of a list.
    pub(crate) const FRONT: Place = Place { byte: 0, bit: 0 };

    // Have so many bytes room for a record of so many bits at this place?
    pub(crate) fn is_room(self, bytes: usize, size: usize) -> bool
        requires { size ≤ 271 }
        ensures { IsTrue result ↔ ((self.bit ≤ 7) × (bits_to self + size ≤ bytes * 8)) }
    {
        self.bit <= 7
            && self.byte <= bytes
            && bits::is_room(bytes - self.byte, usize::from(self.bit), size)
    }

    // The place behind a record of so many bits.
    pub(crate) fn behind(self, size: usize) -> Place
        requires { (size ≤ 271) × ((bits_to self + size) / 8 < 2 ^ 64) }
        ensures { (bits_to result ≡ bits_to self + size) × (result.bit ≤ 7) }
    {
        let end = usize::from(self.bit) + size;
        Place {
            byte: self.byte + end / 8,
            bit: (end % 8) as u8,
        }
    }
}

// How many numbers a call has in a list of numbers.
pub const NUMBERS: usize = 35;

// The first 32 numbers of a list.
// kept: the library's `copy_from_slice` makes numbers of pointers, which a module for Arm may not (docs/FIRMWARE.md)
fn values_of(list: &[u16]) -> [u16; 32]
    requires { 32 ≤ length list.now }
    ensures { result ≡ take 32 list.now }
{
    let mut values = [0; 32];
    for i in 0..32 {
        values[i] = list[i];
    }
    values
}

// A call of a list of numbers.
pub fn call_at(calls: &[u16], i: usize) -> Call
    requires { i * 35 + 35 ≤ length calls.now }
    ensures { result ≡ call_at calls.now i }
{
    let at = i * NUMBERS;
    Call {
        kind: calls[at],
        first: calls[at + 1],
        count: calls[at + 2],
        values: values_of(&calls[at + 3..]),
    }
}

// Is an access's count declined: by 3, or 4?
#[tactic(auto, unfolding(crate::specs::Writer::count_lines, numbers::specs::Numbers::number_of))]
fn of_count(count: u16) -> Result<(), Refusal>
    ensures { told result ≡ number_of (count_lines count) }
{
    match count {
        0 => Err(Refusal::NoBytes),
        1..=32 => Ok(()),
        _ => Err(Refusal::TooMany),
    }
}

// Is a look declined: by 1, or 2?
fn of_look(call: &Call) -> Result<(), Refusal>
    ensures { told result ≡ number_of (sample_lines (firsts call.now.count call.now.values)) }
{
    if call.count != 8 {
        return Err(Refusal::NotEight);
    }
    judge::of_samples(&call.values[0..8])
}

// Is a call declined: by 1, 2, 3 or 4?
pub(crate) fn of_call(call: &Call) -> Result<(), Refusal>
    ensures { told result ≡ number_of (own_lines (carried call.now)) }
{
    match call.kind() {
        Kind::Look => of_look(call),
        Kind::Write | Kind::Read => of_count(call.count),
        Kind::Reset => Ok(()),
    }
}

// How many bits a call's record has.
pub(crate) fn bits_of(call: &Call) -> usize
    requires { number_of (own_lines (carried call.now)) ≡ 0 }
    ensures { (result ≡ size (carried call.now)) × (2 ≤ result) × (result ≤ 271) }
{
    match call.kind() {
        Kind::Look => 106,
        Kind::Write => usize::from(call.count) * 8 + 15,
        Kind::Read => 15,
        Kind::Reset => 2,
    }
}

// The kind, the address and the count of an access are laid into bits, at a place of the first byte.
fn put_access(out: &mut [u8], bit: usize, kind: Kind, call: &Call)
    requires { (bit ≤ 7) × (1 ≤ call.now.count) × (bit + 15 ≤ length out.old * 8) }
    ensures { out.new ≡ laid out.old bit (header call.now (code kind)) }
{
    bits::put(out, bit, u16::from(kind), 2);
    bits::put(out, bit + 2, call.first, 8);
    bits::put(out, bit + 10, call.count - 1, 5);
}

// The record of a call is laid into bits, at a place of the first byte.
pub(crate) fn put_call(out: &mut [u8], bit: usize, call: &Call)
    requires { (number_of (own_lines (carried call.now)) ≡ 0) × (bit ≤ 7) × (bit + size (carried call.now) ≤ length out.old * 8) }
    ensures { out.new ≡ laid out.old bit (packed (carried call.now)) }
{
    match call.kind() {
        Kind::Look => {
            bits::put(out, bit, u16::from(Kind::Look), 2);
            bits::put_all(out, bit + 2, &call.values[0..8], 13);
        }
        Kind::Write => {
            put_access(out, bit, Kind::Write, call);
            bits::put_all(out, bit + 15, &call.values[0..usize::from(call.count)], 8);
        }
        Kind::Read => put_access(out, bit, Kind::Read, call),
        Kind::Reset => bits::put(out, bit, u16::from(Kind::Reset), 2),
    }
}
