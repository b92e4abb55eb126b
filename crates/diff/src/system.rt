// The program's two ends. What a file gives and what becomes of what is written no contract can say: neither the bytes of a file nor those of standard
// output are known.
ghost use Rattle.std.specs.Prelude.{◌≤◌, length, IfOk, IfSome};

use std::env::FillError;
use std::fs::File;
use std::io;
use std::io::{Error, ErrorKind};
use std::process::ExitCode;
use std::rt::{Env, Files};

// No path of the system is longer.
const LONGEST_PATH: usize = 4096;

// The file of a name, or as much of it as the buffer holds: of a file without an end no more is read.
fn read_named<H: Files>(rt: &H, path: &str, buf: &mut [u8]) -> io::Result<usize>
    ensures { IfOk result (λ n. n ≤ length buf.old) }
{
    let mut file = File::open(rt, path)?;
    ends::take_all(&mut file, buf)
}

// What the system's calls answer of an argument that is not there, of a name that is too long, and of one that is no text.
const INVALID_ARGUMENT: i32 = 22;

const NAME_TOO_LONG: i32 = 36;

const NO_TEXT: i32 = 84;

fn refused(rt: &impl Eprint, code: i32) {
    system_error::tell(rt, "diff: argument", &Error::from_raw_os_error(code));
}

// The file that an argument names. The system's names are any bytes; std opens those that are UTF-8 text. Of a file that cannot be read it is told why.
pub(crate) fn take_file<H: Env + Files + Eprint>(rt: &H, i: usize, buf: &mut [u8]) -> Option<usize>
    ensures { IfSome result (λ n. n ≤ length buf.old) }
{
    let mut path = [0u8; LONGEST_PATH];
    match rt.arg(i, &mut path) {
        Err(FillError::NotPresent) => refused(rt, INVALID_ARGUMENT),
        Err(FillError::TooLong) => refused(rt, NAME_TOO_LONG),
        Ok(n) => match std::str::from_utf8(&path[..n]) {
            Err(_) => refused(rt, NO_TEXT),
            Ok(name) => match read_named(rt, name, buf) {
                Err(why) => system_error::tell(rt, name, &why),
                Ok(n) => return Some(n),
            },
        },
    }
    None
}

// The status with which a shell sees a program that the signal of a broken pipe ended.
const BROKEN_PIPE: u8 = 141;

// Writes a text, and answers the status that the program ends with. Of a reader that ended first nothing is said.
pub(crate) fn give<H: Print + Eprint>(rt: &H, text: &[u8]) -> ExitCode {
    match rt.write_all(text) {
        Ok(()) => ExitCode::SUCCESS,
        Err(why) => {
            if why.kind() == ErrorKind::BrokenPipe {
                return ExitCode::from(BROKEN_PIPE);
            }
            system_error::tell(rt, "diff: standard output", &why);
            ExitCode::SUCCESS
        }
    }
}
