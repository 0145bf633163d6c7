// Keys: rows and columns numbered apart, key numbers, codes, and the keypad size.
#![tactic(auto)]

ghost use Rattle.std.specs.Prelude.{◌≡◌, true};
ghost use Rattle.keys.specs.Keys.{is_key, key_at, row_of, col_of, press_code, release_code, code_at, code, is_code, key_of, acceptable, in_size, key_in};

// A row, 0 to 7: the data sheet's KEYROW.
#[repr(C)]
#[derive(Clone, Copy, Debug, PartialEq, Eq)]
pub struct Row(pub u8);

// A column, 0 to 11, or 12 for the row's special function key: the data sheet's KEYCOL.
#[repr(C)]
#[derive(Clone, Copy, Debug, PartialEq, Eq)]
pub struct Col(pub u8);

pub const ROWS: u8 = 8;

// A row's columns, its special function key among them.
pub const COLS: u8 = 13;

// The column of a row's special function key.
pub const SPECIAL: u8 = COLS - 1;

// How many keys a row has.
pub const ROW_KEYS: usize = COLS as usize;

pub const KEYS: usize = 104;

// The number that stands for no key.
// kept: a number and no Option: the contracts are equalities with key_at and key_of, of which C and the theorems know 104.
pub const NO_KEY: usize = KEYS;

// The code that stands for no key.
// kept: a code and no Option: the data sheet's 7F, which C reads, in the equalities with press_code, release_code and code.
pub const NO_CODE: u8 = 0x7F;

// Is there such a key?
#[tactic(auto, unfolding(crate::specs::Keys::is_key))]
pub fn is_key(row: Row, col: Col) -> bool
    ensures { result ≡ is_key row.0 col.0 }
{
    row.0 < ROWS && col.0 < COLS
}

// The number of a key, by row, then column; NO_KEY if there is none.
#[tactic(auto, unfolding(crate::specs::Keys::key_at))]
pub fn key_at(row: Row, col: Col) -> usize
    ensures { result ≡ key_at row.0 col.0 }
{
    if is_key(row, col) {
        ROW_KEYS * usize::from(row.0) + usize::from(col.0)
    } else {
        NO_KEY
    }
}

// The row of a key; ROWS if there is no such key.
#[tactic(auto, unfolding(crate::specs::Keys::row_of))]
pub fn row_of(key: usize) -> Row
    ensures { result.0 ≡ row_of key }
{
    if key < NO_KEY {
        Row((key / ROW_KEYS) as u8)
    } else {
        Row(ROWS)
    }
}

// The column of a key; COLS if there is no such key.
#[tactic(auto, unfolding(crate::specs::Keys::col_of))]
pub fn col_of(key: usize) -> Col
    ensures { result.0 ≡ col_of key }
{
    if key < NO_KEY {
        Col((key % ROW_KEYS) as u8)
    } else {
        Col(COLS)
    }
}

// A key's press code; NO_CODE if there is no such key.
#[tactic(auto, unfolding(crate::specs::Keys::press_code, crate::specs::Keys::is_key))]
pub fn press_code(row: Row, col: Col) -> u8
    ensures { result ≡ press_code row.0 col.0 }
{
    if is_key(row, col) {
        16 * row.0 + col.0
    } else {
        NO_CODE
    }
}

// A key's release code; NO_CODE if there is no such key.
#[tactic(auto, unfolding(crate::specs::Keys::release_code, crate::specs::Keys::press_code, crate::specs::Keys::is_key))]
pub fn release_code(row: Row, col: Col) -> u8
    ensures { result ≡ release_code row.0 col.0 }
{
    if is_key(row, col) {
        press_code(row, col) + 128
    } else {
        NO_CODE
    }
}

// The code of a change of the key there: its contact closed, or it opened. NO_CODE if there is no such key.
pub fn code_at(row: Row, col: Col, closed: bool) -> u8
    ensures { result ≡ code_at row.0 col.0 closed }
{
    if closed {
        press_code(row, col)
    } else {
        release_code(row, col)
    }
}

// The code of a key's change.
#[tactic(auto, unfolding(crate::specs::Keys::code))]
pub fn change_code(key: usize, closed: bool) -> u8
    ensures { result ≡ code key closed }
{
    code_at(row_of(key), col_of(key), closed)
}

// Is a byte the press or release code of a key?
#[tactic(auto, unfolding(crate::specs::Keys::is_code, crate::specs::Keys::is_key))]
pub fn is_code(byte: u8) -> bool
    ensures { result ≡ is_code byte }
{
    byte % 16 < COLS
}

// The key that a press or release code speaks of; NO_KEY if it is no code.
#[tactic(auto, unfolding(crate::specs::Keys::key_of))]
pub fn key_of(byte: u8) -> usize
    ensures { result ≡ key_of byte }
{
    key_at(Row(byte % 128 / 16), Col(byte % 16))
}

// May KBDSIZE hold this byte?
#[tactic(auto, unfolding(crate::specs::Keys::acceptable))]
pub fn is_acceptable(size: u8) -> bool
    ensures { result ≡ acceptable size }
{
    matches!(size / 16, 2..=8) && matches!(size % 16, 2..=12)
}

// Is a key in the size?
#[tactic(auto, unfolding(crate::specs::Keys::in_size))]
pub fn is_in_size(size: u8, row: Row, col: Col) -> bool
    ensures { result ≡ in_size size row.0 col.0 }
{
    row.0 < size / 16 && (col.0 < size % 16 || col.0 == SPECIAL)
}

// Is the key with this number in the size?
#[tactic(auto, unfolding(crate::specs::Keys::key_in))]
pub fn is_key_in(size: u8, key: usize) -> bool
    ensures { result ≡ key_in size key }
{
    is_in_size(size, row_of(key), col_of(key))
}

// Is a byte a press or release code of a key in the size? Its low four bits are the column, the next three the row.
#[tactic(auto, using(crate::proofs::Laws::code_in))]
pub fn is_code_in(size: u8, byte: u8) -> bool
    requires { acceptable size ≡ true }
    ensures { result ≡ key_in size (key_of byte) }
{
    is_in_size(size, Row(byte % 128 / 16), Col(byte % 16))
}
