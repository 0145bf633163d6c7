// What is kept from one line to the next.
use crate::made::Fetched;
use crate::recorder::Tape;
use answers::out::Output;
use state::Module;
use std::rt::Stdout;

// Room for the numbers of the longest line.
pub(crate) const NUMBERS: usize = 8192;

#[derive(Drop)]
pub(crate) struct Session {
    pub panel: Module,
    // the contacts, as fingers hold them: a sample for each row
    pub contacts: [u16; 8],
    // the codes that were fetched since the last restart
    pub fetched: Fetched,
    // the numbers of a line
    pub list: [u16; NUMBERS],
    // the answers, of which some are not written out yet
    pub out: Output,
    // the recording
    pub tape: Tape,
    // is there more to come, and could every answer be written?
    pub on: bool,
}

impl Session {
    // A session that begins: the panel is as after reset, no contact is closed, and nothing is recorded.
    pub(crate) fn new(to: Stdout) -> Session {
        Session {
            panel: state::fresh(),
            contacts: [0; 8],
            fetched: Fetched::new(),
            list: [0; NUMBERS],
            out: Output::new(to),
            tape: Tape::new(),
            on: true,
        }
    }
}
