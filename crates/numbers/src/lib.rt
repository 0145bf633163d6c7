// The numbers that a call can give: 0 if it was done, and that of a refusal if it was declined.
#![tactic(auto)]

ghost use Rattle.std.specs.Prelude.{◌≡◌};
ghost use Rattle.numbers.specs.Refusals.{number, told};

// The number of a call that was done.
pub const DONE: u8 = 0;

// Why a call is declined.
#[derive(Clone, Copy, Debug, PartialEq, Eq)]
pub enum Refusal {
    // Look: the list isn't eight samples.
    NotEight = 1,
    // Look: some sample has bit 13, 14 or 15 set.
    HighBits = 2,
    // Access: no bytes.
    NoBytes = 3,
    // Access: more than 32 bytes.
    TooMany = 4,
    // Access: some address of the run is unknown, or can't be read or written as asked.
    NotAllowed = 5,
    // Write: a byte for KBDSIZE isn't acceptable.
    BadSize = 6,
    // Held question: row above 7 or column above 12.
    NoKey = 7,
    // Look, access, question: module state unsound.
    Unsound = 8,
    // Packed list: cut short or padded wrongly.
    CutShort = 20,
    // Packed list: no room for it.
    NoRoom = 21,
    // Undo groups: the place is beyond the end.
    BeyondEnd = 22,
    // Undo groups: the trim key's code is no press of a key, or some code no press or release of one.
    BadCode = 23,
    // Undo groups: a press of a key that is down, or a release of one that is up.
    BadChange = 24,
    // Undo groups: the place is inside a group, or past the start of an open one.
    InsideGroup = 25,
    // Pin samples: some bit above 18 is set.
    BadPins = 26,
    // Access: the panel slept. This access woke it, and the next is judged as usual.
    Asleep = 27,
}

impl Refusal {
    // The number of a call that is declined for this.
    pub fn number(self) -> u8
        ensures { result ≡ number self }
    {
        self as u8
    }
}

// The number of a call, by how it went.
pub fn told<T: Copy>(outcome: Result<T, Refusal>) -> u8
    ensures { result ≡ told outcome }
{
    match outcome {
        Ok(_) => DONE,
        Err(refusal) => refusal.number(),
    }
}
