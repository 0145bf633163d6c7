// The queue of 15 codes.
ghost use Rattle.std.specs.Prelude.{◌≡◌};
ghost use Rattle.state.specs.Module.{queue_of, with_queue};
ghost use Rattle.state.specs.Queue.{oldest, put, shifted, taken};

use crate::{FULL, Module, PLACES};
use keys::NO_CODE;

impl Module {
    // A code goes behind those that wait, or is dropped if 15 do.
    pub fn put(&mut self, code: u8)
        ensures { self.new ≡ with_queue self.old (put (queue_of self.old) code) }
    {
        if self.count < FULL {
            self.queue[self.count as usize] = code;
            self.count += 1;
        } else {
            self.relint = true;
        }
    }

    // The oldest code is taken out and given; NO_CODE if none waits.
    pub fn take_oldest(&mut self) -> u8
        ensures { (result ≡ oldest (queue_of self.old)) × (self.new ≡ with_queue self.old (taken (queue_of self.old))) }
    {
        if self.count < 1 {
            return NO_CODE;
        }
        let code = self.queue[0];
        self.queue = shifted(self.queue);
        self.count -= 1;
        code
    }
}

// The places with the first code gone and each other one place down.
fn shifted(places: [u8; PLACES]) -> [u8; PLACES]
    ensures { result ≡ shifted places }
{
    [
        places[1], places[2], places[3], places[4], places[5], places[6], places[7], places[8],
        places[9], places[10], places[11], places[12], places[13], places[14], NO_CODE,
    ]
}
