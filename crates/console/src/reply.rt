// The lines that answer a command.
use answers::out::Output;
use answers::spare;
use calls::lent::Levels;
use numbers::Refusal;

// A call's number, by how it went.
fn number<T: Copy>(out: &mut Output, outcome: Result<T, Refusal>) {
    out.decimal(u32::from(numbers::told(outcome)));
}

// A call's number alone.
pub(crate) fn told(out: &mut Output, outcome: Result<(), Refusal>) {
    number(out, outcome);
    out.end();
}

// A block's number, and how many of its looks were done.
pub(crate) fn counted(out: &mut Output, outcome: Result<(), Refusal>, done: usize) {
    number(out, outcome);
    out.put(b' ');
    out.decimal(done.min(65535) as u32);
    out.end();
}

// A question's number, yes or no.
pub(crate) fn question(out: &mut Output, answer: Result<bool, Refusal>) {
    number(out, answer);
    match answer {
        Ok(true) => out.text(b" yes\n"),
        _ => out.text(b" no\n"),
    }
}

// The number of a read or of a packed list, and the bytes if there are any.
pub(crate) fn listed(out: &mut Output, bytes: Result<&[u8], Refusal>) {
    number(out, bytes);
    if let Ok(bytes) = bytes {
        out.listed(bytes);
    }
    out.end();
}

// The number of the question what is driven, and the pins' levels if it was answered.
pub(crate) fn levels(out: &mut Output, levels: Result<Levels, Refusal>) {
    number(out, levels);
    if let Ok(Levels { driven, level }) = levels {
        spare::levels(out, driven, level);
    }
    out.end();
}
