// Soundness, as document 01 lists it.
#![tactic(auto)]

ghost use Rattle.std.specs.Prelude.{◌≡◌, true, not, ◌&&◌, ◌<◌, eqb};
ghost use Rattle.words.specs.Words.{all, all_below};
ghost use Rattle.keys.specs.Keys.{acceptable, in_size, key_in, key_of};
ghost use Rattle.sound.specs.Sound.{contact_sound, keys_sound, place_sound, sound};

use keys::{COLS, Col, ROW_KEYS, ROWS, Row};
use state::Module;

// The most that KBDMSK can be: a bit for each flag.
const MASK: u8 = 0x0F;

// Is a key open, with no run?
fn at_rest(held: bool, run: u8) -> bool
    ensures { result ≡ (not held && eqb run 0) }
{
    !held && run == 0
}

// What is asked of one key. Most are at rest, and need no look at the size.
fn key_sound(size: u8, row: Row, col: Col, held: bool, run: u8) -> bool
    ensures { result ≡ contact_sound (in_size size row.0 col.0) held run }
{
    run <= 254 && (at_rest(held, run) || keys::is_in_size(size, row, col))
}

// What is asked of the keys of a row.
fn row_sound(m: &Module, row: u8) -> bool
    requires { row < 8 }
    ensures { result ≡ all_below (place_sound m.now.size row m.now.held m.now.run) 13 }
{
    for col in 0..COLS {
        let key = ROW_KEYS * (row as usize) + (col as usize);
        if !key_sound(m.size, Row(row), Col(col), m.held[key], m.run[key]) {
            return false;
        }
    }
    true
}

// What is asked of all keys.
fn keys_sound(m: &Module) -> bool
    ensures { result ≡ keys_sound m.now.size m.now.held m.now.run }
{
    for row in 0..ROWS {
        if !row_sound(m, row) {
            return false;
        }
    }
    true
}

// What is asked of the codes that wait.
fn codes_sound(size: u8, codes: &[u8]) -> bool
    requires { acceptable size ≡ true }
    ensures { result ≡ all (λ c. key_in size (key_of c)) codes.now }
{
    codes.iter().all(|code| keys::is_code_in(size, *code))
}

// What is asked of the places after them.
fn rest_unused(places: &[u8]) -> bool
    ensures { result ≡ all (λ c. eqb c 0x7F) places.now }
{
    places.iter().all(|place| *place == keys::NO_CODE)
}

// Is the state sound?
pub fn is_sound(m: &Module) -> bool
    ensures { result ≡ sound m.now }
{
    if !keys::is_acceptable(m.size) || state::FULL < m.count {
        return false;
    }
    let (codes, rest) = m.queue.split_at(m.count as usize);
    keys_sound(m)
        && codes_sound(m.size, codes)
        && rest_unused(rest)
        && m.mask <= MASK
        && !picture::all_read(m.seen)
        && m.asleep == (m.quiet == state::sleep::ASLEEP)
}
