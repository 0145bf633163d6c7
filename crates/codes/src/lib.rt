// Lists of codes, oldest first, and the keys that are down along them.
#![tactic(auto)]

ghost use Rattle.std.specs.Prelude.{◌≡◌, ◌≤◌, length};
ghost use Rattle.keys.specs.Keys.{is_code};
ghost use Rattle.codes.specs.Codes.{none_down, agrees, after, leading, agreeing, opposite};

use keys::KEYS;

// The first release code: every press code is below it.
const RELEASES: u8 = 128;

// Is a code a press of a key that is up, or a release of one that is down?
pub fn agrees(down: &[bool; KEYS], code: u8) -> bool
    ensures { result ≡ agrees down.now code }
{
    keys::is_code(code) && (code < RELEASES) != down[keys::key_of(code)]
}

// A code is followed: its key is down after a press, and up after a release.
pub fn follow(down: &mut [bool; KEYS], code: u8)
    ensures { down.new ≡ after down.old code }
{
    let key = keys::key_of(code);
    // what is no code speaks of a place past the table's end
    if key < KEYS {
        down[key] = code < RELEASES;
    }
}

// How many codes, from the first on, are press or release codes of keys.
pub fn good(codes: &[u8]) -> usize
    ensures { (result ≡ leading is_code codes.now) × (result ≤ length codes.now) }
{
    codes
        .iter()
        .take_while(|code| keys::is_code(**code))
        .count()
}

// How many codes, from the first on, agree when their turn comes, no key being down at first.
pub fn agreeing(codes: &[u8]) -> usize
    ensures { (result ≡ agreeing none_down codes.now) × (result ≤ length codes.now) }
{
    let mut down = [false; KEYS];
    for (i, code) in codes.iter().enumerate() {
        if !agrees(&down, *code) {
            return i;
        }
        follow(&mut down, *code);
    }
    codes.len()
}

// The other code of the same key.
pub fn opposite(code: u8) -> u8
    ensures { result ≡ opposite code }
{
    if code < RELEASES {
        code + RELEASES
    } else {
        code - RELEASES
    }
}
