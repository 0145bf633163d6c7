// The recorder: the calls of a session go as a packed list to a file. Samples of the pins are left out: no list has them.
ghost use Rattle.std.specs.Prelude.{◌≤◌};

use crate::session::Session;
use crate::typed::plain;
use answers::files;
use answers::files::Trouble;
use carry::call::{Call, Kind, Place};
use carry::writer;
use numbers::Refusal;
use std::fs::File;
use std::io::Write;

// The bytes of the tape.
const LENGTH: usize = 256;

// From here on the tape is nearly full: a record is shorter than what is behind.
const FULL: usize = 192;

// Where the tape goes.
#[derive(Drop)]
pub(crate) enum Recording {
    // nowhere: the session is not recorded
    Off,
    // to this file
    To(File),
    // to no file any more: something could not be written, and that is not told yet
    Failed,
}

// What is recorded and not written out yet: whole bytes, and bits of one that is begun.
#[derive(Drop)]
pub(crate) struct Tape {
    bytes: [u8; LENGTH],
    // the place behind the last record
    place: Place,
    recording: Recording,
}

impl Tape {
    // No recording.
    pub(crate) fn new() -> Tape {
        Tape {
            bytes: [0; LENGTH],
            place: Place { byte: 0, bit: 0 },
            recording: Recording::Off,
        }
    }

    // A recording begins, to a file.
    pub(crate) fn begin(&mut self, file: File) {
        self.recording = Recording::To(file);
    }

    // Writes the first bytes to the file, if there is one.
    fn send(&mut self, n: usize)
        requires { n ≤ 256 }
    {
        let Recording::To(file) = &self.recording else {
            return;
        };
        let mut to = file;
        if to.write_all(&self.bytes[..n]).is_err() {
            self.recording = Recording::Failed;
        }
    }

    // Writes out the whole bytes; the one that is begun moves to the front.
    fn rewind(&mut self) {
        let n = self.place.byte.min(LENGTH - 1);
        self.send(n);
        let begun = self.bytes[n];
        self.bytes = [0; LENGTH];
        self.bytes[0] = begun;
        self.place.byte = 0;
    }

    // Records one call more, if it fits in a list.
    pub(crate) fn record(&mut self, call: Call) {
        if !matches!(self.recording, Recording::To(_)) {
            return;
        }
        let Ok(place) = writer::add(call, &mut self.bytes, self.place) else {
            return;
        };
        self.place = place;
        if FULL <= place.byte {
            self.rewind();
        }
    }

    // Records one call more, which went so.
    pub(crate) fn note(&mut self, call: Call, outcome: Result<(), Refusal>) {
        self.record(carried_as(call, outcome));
    }

    // The session's end: the byte that is begun is written out too, and padded with 0.
    fn finish(&mut self) {
        let begun = (usize::from(self.place.bit) + 7) / 8;
        let n = (self.place.byte.min(LENGTH - 1) + begun).min(LENGTH);
        self.send(n);
    }
}

// The call that a list has for one that went so: itself, or a read of one byte for an access that woke the panel and has no record, being of 0 or more than 32 bytes.
fn carried_as(call: Call, outcome: Result<(), Refusal>) -> Call {
    if matches!(outcome, Err(Refusal::Asleep)) && !matches!(call.count, 1..=32) {
        return plain(Kind::Read, u32::from(call.first), 1);
    }
    call
}

// A recording that could not be written is told of, once, and ends the session.
pub(crate) fn heed(s: &mut Session) {
    if !matches!(s.tape.recording, Recording::Failed) {
        return;
    }
    s.tape.recording = Recording::Off;
    files::told(&mut s.out, Trouble::Unwritable);
    s.on = false;
}

// The end of the session: all that is recorded and answered is written out.
pub(crate) fn end(s: &mut Session) {
    s.tape.finish();
    heed(s);
    s.out.flush();
}
