// The picture, and which of its registers were read.
#![tactic(auto)]

ghost use Rattle.std.specs.Prelude.{◌≡◌, true, length, get_or, set, drop, ◌+◌, ◌*◌, ◌≤◌, ◌<◌};
ghost use Rattle.picture.specs.Picture.{all_read, held_codes, marked, more, nth, picture};
ghost use Rattle.picture.specs.Masks.{mask_at, masks, first_of, but_first, by_masks, codes_from};

use keys::{KEYS, ROW_KEYS};
use state::Module;

// A mask for each row.
pub const MASKS: usize = keys::ROWS as usize;

// Are all four registers marked as read?
pub fn all_read(seen: [bool; 4]) -> bool
    ensures { result ≡ all_read seen }
{
    seen[0] && seen[1] && seen[2] && seen[3]
}

// The marks with register n's set.
fn with_mark(mut seen: [bool; 4], n: u8) -> [bool; 4]
    ensures { result ≡ set seen n true }
{
    if n < 4 {
        seen[n as usize] = true;
    }
    seen
}

// Picture register n has been read: it is marked; once all four are, RSINT is cleared and they are forgotten.
pub fn mark(m: &mut Module, n: u8)
    ensures { m.new ≡ marked m.old n }
{
    let marks = with_mark(m.seen, n);
    if all_read(marks) {
        m.rsint = false;
        m.seen = [false; 4];
    } else {
        m.seen = marks;
    }
}

// A row's keys that are held, as a number: bit c is 1 if the key in column c is.
fn mask_of_row(table: &[bool], row: usize) -> u16
    requires { (length table.now ≡ 104) × (row < 8) }
    ensures { result ≡ mask_at table.now row }
{
    let first = ROW_KEYS * row;
    let mut mask: u16 = 0;
    for held in table[first..first + ROW_KEYS].iter().rev() {
        mask = u16::from(*held) + 2 * mask;
    }
    mask
}

// The masks of the eight rows. They give the held keys' codes, in order.
pub fn masks(held: &[bool; KEYS]) -> [u16; MASKS]
    ensures { (result ≡ masks held.now) × (by_masks 0 result ≡ held_codes 0 held.now) }
{
    // a slice's length is known
    let table: &[bool] = held;
    // kept: filled by a loop, the compiler makes vector code of it, larger and slower
    [
        mask_of_row(table, 0),
        mask_of_row(table, 1),
        mask_of_row(table, 2),
        mask_of_row(table, 3),
        mask_of_row(table, 4),
        mask_of_row(table, 5),
        mask_of_row(table, 6),
        mask_of_row(table, 7),
    ]
}

// The mask of a row; 0 past the last.
fn mask_at(rows: &[u16], row: usize) -> u16
    ensures { result ≡ get_or rows.now row 0 }
{
    rows.get(row).copied().unwrap_or(0)
}

// A mask without its first key.
fn but_first(mask: u16) -> u16
    requires { 1 ≤ mask }
    ensures { result ≡ but_first mask }
{
    mask - (1 << mask.trailing_zeros())
}

// Is a key of the rows from this one on held? 128 if one is, else 0.
fn more(rows: &[u16], from: usize) -> u8
    ensures { (result ≡ more (by_masks from (drop from rows.now))) × (result ≤ 128) }
{
    for row in from..rows.len() {
        if 0 < rows[row] {
            return 128;
        }
    }
    0
}

// The code of the first key of a row's mask, with 128 added when another key is held there or in a later row.
fn first_code(rows: &[u16], row: usize, mask: u16) -> u8
    requires { (row < 8) × (1 ≤ mask) }
    ensures { result ≡ 16 * row + first_of mask + more (codes_from rows.now row (but_first mask)) }
{
    let code = 16 * (row as u8) + (mask.trailing_zeros() as u8);
    if 0 < but_first(mask) {
        code + 128
    } else {
        code + more(rows, row + 1)
    }
}

// What picture register n shows of rows with these masks. A row where no key is left is passed over.
fn shown_of(rows: &[u16], n: u8) -> u8
    requires { length rows.now ≡ 8 }
    ensures { result ≡ nth n (by_masks 0 rows.now) }
{
    let mut row: usize = 0;
    let mut mask = mask_at(rows, 0);
    let mut rest = n;
    // kept: a walk with jumps, which passes over a key or over what is left of a row
    while row < MASKS {
        if mask < 1 {
            row += 1;
            mask = mask_at(rows, row);
        } else if rest < 1 {
            return first_code(rows, row, mask);
        } else {
            mask = but_first(mask);
            rest -= 1;
        }
    }
    keys::NO_CODE
}

// What picture register n shows, by the rows' masks.
pub fn shown(masks: &[u16; MASKS], n: u8) -> u8
    ensures { result ≡ nth n (by_masks 0 masks.now) }
{
    // a slice's length is known
    let rows: &[u16] = masks;
    shown_of(rows, n)
}

// What picture register n shows.
pub fn picture(held: &[bool; KEYS], n: u8) -> u8
    ensures { result ≡ picture n held.now }
{
    let rows = masks(held);
    shown(&rows, n)
}
