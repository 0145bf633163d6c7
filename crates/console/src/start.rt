// What comes before the first line, by the words behind the program's name: `record FILE`, `play FILE`, or both.
ghost use Rattle.std.specs.Prelude.{◌≡◌, ◌≤◌, length, IfOk, IfSome};

use crate::carried::played;
use crate::session::Session;
use answers::files;
use answers::files::Trouble;
use carry::reader;
use std::env::{Env, FillError};
use std::fs::File;
use std::io;
use std::io::Read;
use std::rt::Files;
use std::str::from_utf8;
use text::word::is_same;

// The bytes of the longest file that is played.
const LONGEST: usize = 1048576;

// The places of the two files among the program's words.
#[derive(Clone, Copy)]
struct Named {
    record: Option<usize>,
    play: Option<usize>,
}

// Is the word at a place behind the program's name this one?
fn is_word(rt: &impl Env, place: usize, name: &[u8]) -> bool {
    // kept: no heap
    let mut word = [0; 16];
    let n = rt.arg(place, &mut word).unwrap_or(0);
    is_same(&word[..n], name)
}

// Is there a word at a place?
fn is_there(rt: &impl Env, place: usize) -> bool {
    // kept: no heap
    let mut word = [0; 16];
    !matches!(rt.arg(place, &mut word), Err(FillError::NotPresent))
}

// How many words there are, the program's name among them; six if there are more.
fn word_count(rt: &impl Env) -> usize {
    for place in 0..6 {
        if !is_there(rt, place) {
            return place;
        }
    }
    6
}

// The files of two words.
fn of_one(rt: &impl Env) -> Option<Named> {
    if is_word(rt, 1, b"record") {
        Some(Named {
            record: Some(2),
            play: None,
        })
    } else if is_word(rt, 1, b"play") {
        Some(Named {
            record: None,
            play: Some(2),
        })
    } else {
        None
    }
}

// The files of four words.
fn of_two(rt: &impl Env) -> Option<Named> {
    if is_word(rt, 1, b"record") && is_word(rt, 3, b"play") {
        Some(Named {
            record: Some(2),
            play: Some(4),
        })
    } else if is_word(rt, 1, b"play") && is_word(rt, 3, b"record") {
        Some(Named {
            record: Some(4),
            play: Some(2),
        })
    } else {
        None
    }
}

// The files that the words behind the program's name name; none if the words are unknown.
fn files_named(rt: &impl Env) -> Option<Named> {
    match word_count(rt) {
        0 | 1 => Some(Named {
            record: None,
            play: None,
        }),
        3 => of_one(rt),
        5 => of_two(rt),
        _ => None,
    }
}

// The name at a place of the words; none if it is too long, or no UTF-8.
fn name_at<'a>(rt: &impl Env, place: usize, name: &'a mut [u8; 4096]) -> Option<&'a str> {
    let n = rt.arg(place, name).ok()?;
    from_utf8(&name[..n]).ok()
}

// kept: `opened_at` is its like; they differ in the call of std alone, which a closure would only wrap
// The file at a place of the words, made anew.
fn made_at<R: Env + Files>(rt: &R, place: usize) -> Option<R::File> {
    // kept: no heap
    let mut name = [0; 4096];
    File::create(rt, name_at(rt, place, &mut name)?).ok()
}

// The file at a place of the words, to be read.
fn opened_at<R: Env + Files>(rt: &R, place: usize) -> Option<R::File> {
    // kept: no heap
    let mut name = [0; 4096];
    File::open(rt, name_at(rt, place, &mut name)?).ok()
}

// The session is recorded to the file at a place of the words, if there is one.
fn record_to<R: Env + Files<File = File>>(
    rt: &R,
    s: &mut Session,
    place: Option<usize>,
) -> Result<(), Trouble> {
    if let Some(place) = place {
        let file = made_at(rt, place).ok_or(Trouble::Unwritable)?;
        s.tape.begin(file);
    }
    Ok(())
}

// Reads a file to its end, or as much of it as there is room for: how many bytes.
fn read_to_end(file: &mut impl Read, bytes: &mut [u8]) -> io::Result<usize>
    ensures { IfOk result (λ count. count ≤ length bytes.new) }
{
    let mut at = 0;
    // kept: each turn reads as many bytes as come: no index counts
    while at < bytes.len() {
        let more = file.read(&mut bytes[at..])?;
        if more < 1 {
            break;
        }
        at += more;
    }
    Ok(at)
}

// Reads the file at a place of the words.
fn read_named<R: Env + Files>(rt: &R, place: usize, bytes: &mut [u8]) -> Option<usize>
    ensures { IfSome result (λ count. count ≤ length bytes.new) }
{
    let mut file = opened_at(rt, place)?;
    read_to_end(&mut file, bytes).ok()
}

// Space for the longest file that is played, and for one byte more.
fn space() -> [u8; 1048577]
    ensures { 1048577 ≡ length result }
{
    [0; 1048577]
}

// Plays the file at a place of the words, and records it first if there is a file to record to.
fn play_from<R: Env + Files<File = File>>(
    rt: &R,
    s: &mut Session,
    play: usize,
    record: Option<usize>,
) -> Result<(), Trouble> {
    let mut bytes = space();
    let count = read_named(rt, play, &mut bytes).ok_or(Trouble::Unreadable)?;
    if LONGEST < count {
        return Err(Trouble::TooLong);
    }
    if reader::check(&bytes[..count]).is_err() {
        return Err(Trouble::NoList);
    }
    record_to(rt, s, record)?;
    let _ = played(s, &bytes[..count]);
    Ok(())
}

// Does what the words behind the program's name ask for.
fn begun<R: Env + Files<File = File>>(rt: &R, s: &mut Session) -> Result<(), Trouble> {
    let Named { record, play } = files_named(rt).ok_or(Trouble::Unknown)?;
    match play {
        Some(play) => play_from(rt, s, play, record),
        None => record_to(rt, s, record),
    }
}

// The session before its first line is read. If none begins, that is answered and nothing is done.
pub(crate) fn begin<R: Env + Files<File = File>>(rt: &R, s: &mut Session) {
    if let Err(trouble) = begun(rt, s) {
        files::told(&mut s.out, trouble);
        s.on = false;
    }
}
