// Lines: what stands between newlines.
ghost use Rattle.std.specs.Prelude.{◌≤◌, length};

pub const NEWLINE: u8 = b'\n';

const RETURN: u8 = b'\r';

// The place of the next byte of this kind, from one on; the input's end if there is none.
pub fn next_from(input: &[u8], from: usize, wanted: u8) -> usize
    requires { from ≤ length input.now }
    ensures { (from ≤ result) × (result ≤ length input.now) }
{
    match input[from..].iter().position(|byte| *byte == wanted) {
        Some(i) => from + i,
        None => input.len(),
    }
}

// The place of the next newline, from one on; the input's end if there is none.
pub fn newline_from(input: &[u8], from: usize) -> usize
    requires { from ≤ length input.now }
    ensures { (from ≤ result) × (result ≤ length input.now) }
{
    next_from(input, from, NEWLINE)
}

// The end of a line without the one carriage return that may end it.
pub fn without_return(line: &[u8]) -> usize
    ensures { result ≤ length line.now }
{
    match line {
        [.., RETURN] => line.len() - 1,
        _ => line.len(),
    }
}
