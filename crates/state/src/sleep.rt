// The count of quiet looks, and the sleep.
ghost use Rattle.std.specs.Prelude.{◌≡◌, not};
ghost use Rattle.state.specs.Module.{sleep_of, with_sleep, woken};
ghost use Rattle.state.specs.Sleep.{counted};

use crate::Module;

// The count at which the panel sleeps.
pub const ASLEEP: u8 = 255;

impl Module {
    // The panel is awake, with nothing counted.
    pub fn wake(&mut self)
        ensures { self.new ≡ woken self.old }
    {
        self.asleep = false;
        self.quiet = 0;
    }

    // One look more is counted. It stirred the panel if it had a change, or if a contact is settling after it.
    pub fn count_look(&mut self, stirred: bool)
        ensures { self.new ≡ with_sleep self.old (counted (sleep_of self.old) (not stirred)) }
    {
        if stirred {
            self.wake();
        } else if self.quiet < ASLEEP - 1 {
            self.quiet += 1;
            self.asleep = false;
        } else {
            self.quiet = ASLEEP;
            self.asleep = true;
        }
    }
}
