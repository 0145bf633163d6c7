// The reader: a packed list seen through, and the call at a place of it.
ghost use Rattle.std.specs.Prelude.{◌≡◌, suc, ◌+◌, ◌*◌, ◌≤◌, length};
ghost use Rattle.numbers.specs.Refusals as refusals;
ghost use Rattle.bits.specs.Bits.{number, bits_from};
ghost use Rattle.carry.specs.Carried.{size, told, ended};
ghost use Rattle.carry.specs.Calls.{code, call_of};
ghost use Rattle.carry.specs.Places.{bits_to};
ghost use Rattle.carry.specs.Next.{Comes, as_record};
ghost use Rattle.carry.specs.Reader.{check_number, record_at};

use crate::call::{Call, Kind, Place};
use numbers::Refusal;

// The record at a place: its call, and the place behind it, in bytes and bits more; or the list's end; or a number.
// kept: the C interface has all of them side by side.
#[repr(C)]
#[derive(Clone, Copy)]
pub struct Record {
    pub call: Call,
    pub byte: usize,
    pub bit: u8,
    pub number: u8,
    pub end: bool,
}

// A call that isn't there is a look of no samples.
const NO_CALL: Call = Call {
    kind: 0,
    first: 0,
    count: 0,
    values: [0; 32],
};

// A record that isn't there.
const NO_RECORD: Record = Record {
    call: NO_CALL,
    byte: 0,
    bit: 0,
    number: numbers::DONE,
    end: false,
};

// The rest of a list from a place on: its bytes from the one that the place lies in, of which so many bits are before it.
#[derive(Clone, Copy)]
pub(crate) struct Rest<'a> {
    bytes: &'a [u8],
    bit: usize,
    ghost low: { bit ≤ 7 },
}

impl<'a> Rest<'a> {
    // The rest of a list from a place on that lies in it.
    pub(crate) fn from_place(bytes: &'a [u8], place: Place) -> Rest<'a>
        requires { (place.bit ≤ 7) × (bits_to place ≤ length bytes.now * 8) }
        ensures { bits_from result.bytes.now result.bit ≡ bits_from bytes.now (bits_to place) }
    {
        Rest {
            bytes: &bytes[place.byte..],
            bit: usize::from(place.bit),
        }
    }

    // Is this the end: fewer than eight bits, all 0?
    pub(crate) fn is_end(self) -> bool
        ensures { result ≡ ended (bits_from self.entry.bytes.now self.entry.bit) }
    {
        !bits::is_room(self.bytes.len(), self.bit, 8)
            && bits::number_at(self.bytes, self.bit, 8) == 0
    }

    // The kind of the next record.
    fn kind(self) -> Kind
        ensures { code result ≡ number 2 (bits_from self.entry.bytes.now self.entry.bit) }
    {
        Kind::told_by(bits::number_at(self.bytes, self.bit, 2))
    }

    // The count of the next record, an access's.
    fn count(self) -> u16
        ensures { (result ≡ suc (number 5 (bits_from self.entry.bytes.now (self.entry.bit + 10)))) × (result ≤ 32) }
    {
        bits::number_at(self.bytes, self.bit + 10, 5) + 1
    }

    // How many bits the next record has.
    // kept: `bits_of` tells the same of a call; one function of both would be given the count as a closure, since it is read for a write alone, and be no plainer.
    pub(crate) fn size(self) -> usize
        ensures { (result ≡ size (told (bits_from self.entry.bytes.now self.entry.bit))) × (2 ≤ result) × (result ≤ 271) }
    {
        match self.kind() {
            Kind::Look => 106,
            Kind::Write => usize::from(self.count()) * 8 + 15,
            Kind::Read => 15,
            Kind::Reset => 2,
        }
    }

    // The call that the next record tells.
    pub(crate) fn told(self) -> Call
        ensures { result ≡ call_of (told (bits_from self.entry.bytes.now self.entry.bit)) }
    {
        let kind = self.kind();
        let number = u16::from(kind);
        match kind {
            Kind::Look => Call {
                kind: number,
                count: 8,
                values: bits::numbers_at(self.bytes, self.bit + 2, 8, 13),
                ..NO_CALL
            },
            Kind::Write => {
                let count = self.count();
                Call {
                    kind: number,
                    first: bits::number_at(self.bytes, self.bit + 2, 8),
                    count,
                    values: bits::numbers_at(self.bytes, self.bit + 15, usize::from(count), 8),
                }
            }
            Kind::Read => Call {
                kind: number,
                first: bits::number_at(self.bytes, self.bit + 2, 8),
                count: self.count(),
                ..NO_CALL
            },
            Kind::Reset => Call {
                kind: number,
                ..NO_CALL
            },
        }
    }

    // How many bits the next record has, if it is all there; none at the end.
    fn next_size(self) -> Result<Option<usize>, Refusal>
        ensures { Comes (bits_from self.entry.bytes.now self.entry.bit) result }
    {
        if self.is_end() {
            return Ok(None);
        }
        let size = self.size();
        if !bits::is_room(self.bytes.len(), self.bit, size) {
            return Err(Refusal::CutShort);
        }
        Ok(Some(size))
    }
}

// Is this a packed list, or declined by 20?
pub fn check(bytes: &[u8]) -> Result<(), Refusal>
    ensures { refusals.told result ≡ check_number bytes.now }
{
    let mut place = Place::FRONT;
    // kept: it goes from record to record, and counts no index.
    while let Some(size) = Rest::from_place(bytes, place).next_size()? {
        place = place.behind(size);
    }
    Ok(())
}

// The record at a place: its call, and the place behind it; none at the list's end.
fn found_at(bytes: &[u8], place: Place) -> Result<Option<(Call, Place)>, Refusal>
    ensures { as_record result ≡ record_at bytes.now place.byte place.bit }
{
    if !place.is_room(bytes.len(), 0) {
        return Err(Refusal::CutShort);
    }
    let rest = Rest::from_place(bytes, place);
    let Some(size) = rest.next_size()? else {
        return Ok(None);
    };
    Ok(Some((rest.told(), place.behind(size))))
}

// What the bits from a place on begin with: a record that is all there, the end, or neither.
pub fn record_at(bytes: &[u8], byte: usize, bit: u8) -> Record
    ensures { result ≡ record_at bytes.now byte bit }
{
    match found_at(bytes, Place { byte, bit }) {
        Ok(Some((call, Place { byte, bit }))) => Record {
            call,
            byte,
            bit,
            ..NO_RECORD
        },
        Ok(None) => Record {
            end: true,
            ..NO_RECORD
        },
        Err(refusal) => Record {
            number: refusal.number(),
            ..NO_RECORD
        },
    }
}
