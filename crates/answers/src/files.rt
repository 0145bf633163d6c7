// What is wrong with the files of a session, the one to play and the one to record to.
ghost use Rattle.answers.specs.Outputs.{Kept};

use crate::out::Output;

// The file to play can't be read; it is too long; it is no packed list. The file to record to can't be written. The program's words name no files.
#[derive(Clone, Copy, Debug, PartialEq, Eq)]
pub enum Trouble {
    Unreadable,
    TooLong,
    NoList,
    Unwritable,
    Unknown,
}

// What is wrong.
pub fn told(out: &mut Output, trouble: Trouble)
    ensures { Kept out.old out.new }
{
    out.text(match trouble {
        Trouble::Unreadable => b"? the file to play can't be read\n".as_slice(),
        Trouble::TooLong => b"? the file to play is too long (1048576 bytes at most)\n",
        Trouble::NoList => {
            b"? 20 the file to play is no packed list: cut short or padded wrongly\n"
        }
        Trouble::Unwritable => b"? the file to record to can't be written\n",
        Trouble::Unknown => {
            b"? unknown words behind the program's name (record FILE, play FILE, or both)\n"
        }
    });
}
