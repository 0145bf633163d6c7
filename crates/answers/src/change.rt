// What a code tells, taken apart.
use keys::{Col, Row};

// A press or a release of the key there.
#[derive(Clone, Copy)]
pub(crate) struct Change {
    pub pressed: bool,
    pub row: Row,
    pub col: Col,
}

// What a code tells: its low four bits are the column, the next three the row.
pub(crate) fn change_of(code: u8) -> Change {
    Change {
        pressed: code < 128,
        row: Row(code % 128 / 16),
        col: Col(code % 16),
    }
}
