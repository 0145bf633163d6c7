// The words of a line: what stands between blanks and tabs.
ghost use Rattle.std.specs.Prelude.{◌≡◌, ◌≤◌, ◌+◌, position, length, drop, eqb};
ghost use Rattle.std.specs.Bool.{beq};
ghost use Rattle.text.specs.Line.{blank, same, up_to, word_from};

// A word's first place and the place after its last; the same if there is no word.
#[derive(Clone, Copy, Debug, PartialEq, Eq)]
pub struct Word {
    pub start: usize,
    pub end: usize,
}

// Does a byte part words?
pub fn is_blank(byte: u8) -> bool
    ensures { result ≡ blank byte }
{
    byte == b' ' || byte == b'\t'
}

// The place of the first byte of a line that is a blank, or of the first that is none.
fn place(line: &[u8], wanted: bool) -> Option<usize>
    ensures { result ≡ position (λ byte. beq (blank byte) wanted) line.now }
{
    line.iter().position(|byte| is_blank(*byte) == wanted)
}

// The first place, from one on, that holds a blank or none; the line's end if there is no such place.
fn first(line: &[u8], from: usize, blank: bool) -> usize
    requires { from ≤ length line.now }
    ensures { (result ≡ from + up_to blank (drop from line.now)) × (from ≤ result) × (result ≤ length line.now) }
{
    match place(&line[from..], blank) {
        Some(i) => from + i,
        None => line.len(),
    }
}

// The next word of a line, from a place on.
pub fn word_from(line: &[u8], from: usize) -> Word
    requires { from ≤ length line.now }
    ensures { (result ≡ word_from line.now from) × (from ≤ result.start) × (result.start ≤ result.end) × (result.end ≤ length line.now) }
{
    let start = first(line, from, false);
    let end = first(line, start, true);
    Word { start, end }
}

// Is a word this one?
pub fn is_same(word: &[u8], name: &[u8]) -> bool
    ensures { result ≡ same word.now name.now }
{
    word == name
}

// Is there no word, from a place on?
pub fn is_end(line: &[u8], from: usize) -> bool
    requires { from ≤ length line.now }
    ensures { result ≡ eqb (word_from line.now from).start (word_from line.now from).end }
{
    let word = word_from(line, from);
    word.start == word.end
}
