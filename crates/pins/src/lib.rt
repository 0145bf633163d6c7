// The spare pins: what a pin is and does, over the bytes of its registers, its pending edge and its newest sample.
#![tactic(auto)]

ghost use Rattle.std.specs.Prelude.{◌+◌, ◌*◌, ◌/◌, ◌%◌, ◌^◌, ◌<◌, ◌≤◌, ◌≡◌, Bool, true, false, ◌&&◌, ◌||◌, get_or, set, length, take, drop};
ghost use Rattle.words.specs.Words.{◌if◌, ◌else◌, within, bit};
ghost use Rattle.pins.specs.Rules as rule;
ghost use Rattle.pins.specs.Pins as part;

// How many pins there are: Genio0 to Genio18.
pub const PINS: usize = 19;

// How many register bytes are kept.
pub const KEPT: usize = 33;

// The pins' numbers end here.
const END: u8 = PINS as u8;

// The place among the kept bytes of the first register of a bank.
const DATA: usize = 6;

const MASK: usize = 7;

pub const DIR: usize = 12;

const IS: usize = 15;

const IBE: usize = 18;

const IEV: usize = 21;

pub const IE: usize = 24;

const OME: usize = 27;

const OMS: usize = 28;

// How many places lie from a register of a bank to its next, where those of another bank lie in between.
const PAIRED: usize = 2;

// The pins' part of the module state.
#[repr(C)]
#[derive(Clone, Copy)]
pub struct Pins {
    // the bytes written to the registers at 0xAA to 0xAF, 0xC0 to 0xD4 and 0xE0 to 0xE5, in this order
    pub kept: [u8; KEPT],
    // is the pin's edge pending?
    pub edge: [bool; PINS],
    // the pin's newest sample
    pub level: [bool; PINS],
    // were the pins sampled since reset?
    pub sampled: bool,
}

// What a word of bits tells of each pin.
// kept: closures would be chosen by the same match, and read no plainer.
#[derive(Clone, Copy, Debug, PartialEq, Eq)]
pub enum What {
    Data,
    Raw,
    Masked,
    Driven,
    High,
}

// The pins after reset.
pub fn fresh() -> Pins
    ensures { result ≡ part.fresh }
{
    Pins {
        kept: [
            0xAA, 0xAA, 0x55, 0x55, 0x15, 0x5A, 0, 0, 0, 0, 0, 0, 0, 0, 0x08, 0, 0, 0, 0, 0, 0,
            0xFF, 0xFF, 0xFF, 0, 0, 0, 0, 0, 0, 0, 0x08, 0,
        ],
        edge: [false; PINS],
        level: [false; PINS],
        sampled: false,
    }
}

// Is the address one of these, the last included?
pub fn is_within(first: u16, last: u16, address: u16) -> bool
    ensures { result ≡ within first last address }
{
    (first..=last).contains(&address)
}

// The place of a register's byte among those that are kept; KEPT if it keeps none.
#[tactic(auto, unfolding(crate::specs::Pins::place))]
pub fn place(address: u16) -> usize
    ensures { result ≡ part.place address }
{
    match address {
        0xAA..=0xAF => usize::from(address - 0xAA),
        0xC0..=0xD4 => usize::from(address - 0xBA),
        0xE0..=0xE5 => usize::from(address - 0xC5),
        _ => KEPT,
    }
}

// Does the keypad use the pin?
#[tactic(auto, unfolding(crate::specs::Rules::used))]
pub fn is_used(size: u8, pin: u8) -> bool
    ensures { result ≡ rule.used size pin }
{
    if pin < 8 {
        pin < size / 16
    } else {
        pin - 8 < size % 16
    }
}

// The byte of a group of eight pins in a word.
fn group(word: u32, g: u16) -> u8
    requires { g < 3 }
    ensures { result ≡ word / 2 ^ (8 * g) % 256 }
{
    ((word >> (8 * g)) % 256) as u8
}

impl Pins {
    // The byte kept at an address; 0 if none is.
    #[tactic(auto, unfolding(crate::specs::Pins::kept_in))]
    fn kept_at(&self, address: u16) -> u8
        ensures { result ≡ part.kept_in self.now.kept address }
    {
        let at = place(address);
        if at < KEPT { self.kept[at] } else { 0 }
    }

    // A pin's bit in a bank of three registers, so many places from one to the next.
    // kept: `pin < 19` stands in ten contracts: `bank` is public with a number, and each loop's range shows it; a type for it would be made anew at each turn and be no plainer
    #[tactic(auto, unfolding(words::specs::Words::bit))]
    fn bit(&self, at: usize, stride: usize, pin: u8) -> bool
        requires { (stride ≤ 2) × (at + 2 * stride < 33) × (pin < 19) }
        ensures { result ≡ bit (pin % 8) (get_or self.now.kept (at + stride * (pin / 8)) 0) }
    {
        (self.kept[at + stride * usize::from(pin / 8)] >> (pin % 8)) % 2 == 1
    }

    // A pin's bit in a bank of three registers, one behind the other.
    pub fn bank(&self, at: usize, pin: u8) -> bool
        requires { (at + 2 < 33) × (pin < 19) }
        ensures { result ≡ bit (pin % 8) (get_or self.now.kept (at + pin / 8) 0) }
    {
        self.bit(at, 1, pin)
    }

    // Is the pin driven?
    #[tactic(auto, using(crate::proofs::Laws::banks), unfolding(crate::specs::Rules::drives))]
    fn drives(&self, size: u8, pin: u8) -> bool
        requires { pin < 19 }
        ensures { result ≡ rule.drives (part.kept_in self.now.kept) size pin }
    {
        !is_used(size, pin)
            && self.bank(DIR, pin)
            && self.bit(MASK, PAIRED, pin)
            && (!self.bit(OME, PAIRED, pin)
                || self.bit(OMS, PAIRED, pin) == self.bit(DATA, PAIRED, pin))
    }

    // Is the pin driven to 1?
    #[tactic(auto, using(crate::proofs::Laws::banks))]
    fn is_high(&self, size: u8, pin: u8) -> bool
        requires { pin < 19 }
        ensures { result ≡ (rule.drives (part.kept_in self.now.kept) size pin && rule.DATA (part.kept_in self.now.kept) pin) }
    {
        self.drives(size, pin) && self.bit(DATA, PAIRED, pin)
    }

    // The pin's bit in a read of GPIODATA.
    #[tactic(auto, using(crate::proofs::Laws::banks), unfolding(crate::specs::Rules::shows))]
    fn shows(&self, size: u8, pin: u8) -> bool
        requires { pin < 19 }
        ensures { result ≡ rule.shows (part.kept_in self.now.kept) size (part.flag_in self.now.level) pin }
    {
        if is_used(size, pin) || !self.bit(MASK, PAIRED, pin) {
            false
        } else if self.bank(DIR, pin) {
            self.bit(DATA, PAIRED, pin)
        } else {
            self.level[usize::from(pin)]
        }
    }

    // Does the pin make an edge, its sample having been old and being new?
    #[tactic(auto, using(crate::proofs::Laws::banks), unfolding(crate::specs::Rules::edge))]
    fn makes_edge(&self, size: u8, pin: u8, old: bool, new: bool) -> bool
        requires { pin < 19 }
        ensures { result ≡ rule.edge (part.kept_in self.now.kept) size pin old new }
    {
        old != new
            && !is_used(size, pin)
            && !self.bank(DIR, pin)
            && !self.bank(IS, pin)
            && (self.bank(IBE, pin) || self.bank(IEV, pin) == new)
    }

    // One pin is sampled.
    fn sample_pin(&mut self, size: u8, pin: u8, new: bool)
        requires { pin < 19 }
        ensures { self.new ≡ part.pins self.old.kept
            (set self.old.edge pin true
            if (self.old.sampled && rule.edge (part.kept_in self.old.kept) size pin (get_or self.old.level pin false) new)
            else self.old.edge)
            (set self.old.level pin new) self.old.sampled }
    {
        let at = usize::from(pin);
        let old = self.level[at];
        self.level[at] = new;
        if self.sampled && self.makes_edge(size, pin, old, new) {
            self.edge[at] = true;
        }
    }

    // The pins are sampled, bit i for pin i.
    pub fn sample(&mut self, size: u8, x: u32)
        ensures { self.new ≡ part.sampled self.old size x }
    {
        for pin in 0..END {
            self.sample_pin(size, pin, (x >> pin) % 2 == 1);
        }
        self.sampled = true;
    }

    // A pin's edge is cleared if the byte for its GPIOIC register has a 1 for it.
    #[tactic(auto, unfolding(crate::specs::Rules::clears, words::specs::Words::bit))]
    fn clear_pin(&mut self, address: u16, b: u8, pin: u8)
        requires { pin < 19 }
        ensures { self.new ≡ part.pins self.old.kept
            (set self.old.edge pin false if rule.clears address b pin else self.old.edge)
            self.old.level self.old.sampled }
    {
        if address == 0xDC + u16::from(pin / 8) && (b >> (pin % 8)) % 2 == 1 {
            self.edge[usize::from(pin)] = false;
        }
    }

    // Pending edges are cleared, as a byte written to a GPIOIC register says.
    fn clear(&mut self, address: u16, b: u8)
        ensures { self.new ≡ part.pins self.old.kept (part.cleared self.old.edge address b) self.old.level self.old.sampled }
    {
        for pin in 0..END {
            self.clear_pin(address, b, pin);
        }
    }

    // A byte is written to the register at an address.
    #[tactic(auto, unfolding(crate::specs::Pins::written))]
    pub fn write(&mut self, address: u16, b: u8)
        ensures { self.new ≡ part.written self.old address b }
    {
        let at = place(address);
        if at < KEPT {
            self.kept[at] = b;
        } else {
            self.clear(address, b);
        }
    }

    // Is the pin's edge pending and enabled?
    #[tactic(auto, using(crate::proofs::Laws::banks))]
    fn is_masked(&self, pin: u8) -> bool
        requires { pin < 19 }
        ensures { result ≡ (part.flag_in self.now.edge pin && rule.IE (part.kept_in self.now.kept) pin) }
    {
        self.edge[usize::from(pin)] && self.bank(IE, pin)
    }

    // Is an enabled edge pending?
    pub fn is_raised(&self) -> bool
        ensures { result ≡ part.raised self.now.kept self.now.edge }
    {
        (0..END).any(|pin| self.is_masked(pin))
    }

    // The pins' newest samples; all 0 before the first.
    #[tactic(auto, unfolding(crate::specs::Pins::newest_of))]
    pub fn newest(&self) -> [bool; PINS]
        ensures { result ≡ part.newest_of self.now }
    {
        if self.sampled {
            self.level
        } else {
            [false; PINS]
        }
    }

    // What a word tells of one pin.
    #[tactic(auto, unfolding(crate::specs::Pins::bit_of))]
    fn bit_of(&self, what: What, size: u8, pin: u8) -> bool
        requires { pin < 19 }
        ensures { result ≡ part.bit_of what self.now.kept self.now.edge self.now.level size pin }
    {
        match what {
            What::Data => self.shows(size, pin),
            What::Raw => self.edge[usize::from(pin)],
            What::Masked => self.is_masked(pin),
            What::Driven => self.drives(size, pin),
            What::High => self.is_high(size, pin),
        }
    }

    // A word that tells something of every pin, bit i for pin i.
    pub fn word(&self, what: What, size: u8) -> u32
        ensures { result ≡ rule.word (part.bit_of what self.now.kept self.now.edge self.now.level size) }
    {
        let mut word: u32 = 0;
        for pin in (0..END).rev() {
            word = u32::from(self.bit_of(what, size, pin)) + 2 * word;
        }
        word
    }

    // The byte that a read of the register at an address gives.
    #[tactic(auto, unfolding(crate::specs::Rules::reads, crate::specs::Rules::is_data, crate::specs::Rules::byte_by, crate::specs::Pins::bit_of))]
    pub fn byte(&self, size: u8, address: u16) -> u8
        ensures { result ≡ rule.reads (part.kept_in self.now.kept) (part.flag_in self.now.edge) (part.flag_in self.now.level) size address }
    {
        match address {
            0xC0 | 0xC2 | 0xC4 => group(self.word(What::Data, size), (address - 0xC0) / 2),
            0xD6..=0xD8 => group(self.word(What::Raw, size), address - 0xD6),
            0xD9..=0xDB => group(self.word(What::Masked, size), address - 0xD9),
            _ => self.kept_at(address),
        }
    }

    // GPIORIS and GPIOMIS, byte for byte, in front of a list as long as the kept bytes.
    #[tactic(auto, unfolding(crate::specs::Pins::edges, crate::specs::Rules::byte_by, crate::specs::Pins::bit_of))]
    pub fn edges(&self, size: u8) -> [u8; KEPT]
        ensures { result ≡ part.edges self.now.kept self.now.edge }
    {
        let raw = self.word(What::Raw, size);
        let masked = self.word(What::Masked, size);
        let mut bytes = [0; KEPT];
        bytes[0] = group(raw, 0);
        bytes[1] = group(raw, 1);
        bytes[2] = group(raw, 2);
        bytes[3] = group(masked, 0);
        bytes[4] = group(masked, 1);
        bytes[5] = group(masked, 2);
        bytes
    }
}
