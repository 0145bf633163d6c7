// The module state: what the panel remembers.
#![tactic(auto)]

pub mod queue;
pub mod sleep;

ghost use Rattle.std.specs.Prelude.{◌≡◌};
ghost use Rattle.state.specs.Module.{fresh, restarted};

use keys::{KEYS, NO_CODE};
use pins::Pins;

// How many codes can wait.
pub const PLACES: usize = 15;

// The count of a full queue.
pub const FULL: u8 = PLACES as u8;

// Key k is 13 × row + column. REVTINT, KBDMIS and the interrupt line are worked out, never stored.
// kept: the C interface, and document 01: one struct by value, the queue's places with their count beside
#[repr(C)]
#[derive(Clone, Copy)]
pub struct Module {
    // is the key held?
    pub held: [bool; KEYS],
    // the key's run: how many of its newest samples in a row are the opposite of how it is held
    pub run: [u8; KEYS],
    // the codes that wait, oldest first from the first place; unused places hold NO_CODE
    pub queue: [u8; PLACES],
    // how many wait
    pub count: u8,
    // KBDBOUNCE
    pub bounce: u8,
    // KBDSIZE
    pub size: u8,
    // KBDMSK
    pub mask: u8,
    pub rsint: bool,
    pub rklint: bool,
    pub relint: bool,
    pub porirq: bool,
    // which of the four picture registers were read
    pub seen: [bool; 4],
    // how many quiet looks there were in a row, ASLEEP at most
    pub quiet: u8,
    // is the panel asleep?
    pub asleep: bool,
    // the spare pins
    pub pins: Pins,
}

// The state after reset.
pub fn fresh() -> Module
    ensures { result ≡ fresh }
{
    let pins = pins::fresh();
    Module {
        held: [false; KEYS],
        run: [0; KEYS],
        queue: [NO_CODE; PLACES],
        count: 0,
        bounce: 0x03,
        size: 0x22,
        mask: 0x03,
        rsint: false,
        rklint: false,
        relint: false,
        porirq: true,
        seen: [false; 4],
        quiet: 0,
        asleep: false,
        pins: pins,
    }
}

impl Module {
    // The state after an accepted write of KBDSIZE: all is as after reset but KBDBOUNCE, KBDMSK, PORIRQ and the pins.
    pub fn restart(&mut self, size: u8)
        ensures { self.new ≡ restarted self.old size }
    {
        let bounce = self.bounce;
        let mask = self.mask;
        let porirq = self.porirq;
        let pins = self.pins;
        *self = Module {
            bounce,
            size,
            mask,
            porirq,
            pins,
            ..fresh()
        };
    }
}
