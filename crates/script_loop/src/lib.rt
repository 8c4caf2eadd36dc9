// A script read and answered: one call a line, from the file that the first argument names or from standard input, and one line of answer for each.
#![tactic(auto)]

use std::env::{Env, FillError};
use std::io::{Input, Read};
use std::rt::Files;
use std::{fs, io};

// The system's number of the error at a name too long.
const ENAMETOOLONG: i32 = 36;

// What a script is read from.
#[derive(Drop)]
pub enum Script<I, F> {
    Input(I),
    File(F),
}

pub fn tell_lost(rt: &impl Eprint) {
    let _ = rt.eprintln("bench: not all answers could be written");
}

// Says on standard error what failed, and why in the system's words, without the error's number.
fn tell_failure<R: Eprint + Alloc>(rt: &R, what: &str, error: io::Error) {
    let _ = match format!(in rt.alloc(); "{error}") {
        Ok(text) => {
            let words = text.as_str();
            let (reason, _) = words.split_once(" (os error ").unwrap_or((words, ""));
            eprintln!(rt; "{what}: {reason}")
        }
        Err(_) => eprintln!(rt; "{what}: {error}"),
    };
}

// The answers of each part are written together, before the next part is read.
// A proved loop has to end, and nothing says that a file does. So the loop counts its turns, up to a number that no run uses up.
fn run<R: Print + Eprint + Alloc, S: Read>(rt: &R, script: &mut S) {
    let mut w = [0u64; 6912];
    let mut waiting = [0u64; 16];
    let mut list = [0u64; 2048];
    let mut line = [0u8; 4097];
    let mut text = [0u8; 409600];
    let mut at = script_bytes::start();
    for _ in 0..u64::MAX {
        let mut part = [0u8; 1024];
        let n = match script.read(&mut part) {
            Ok(n) => n,
            Err(error) => {
                tell_failure(rt, "bench: reading", error);
                break;
            }
        };
        if n == 0 {
            break;
        }
        at = script_bytes::take(
            &mut w,
            &mut waiting,
            &mut list,
            &mut line,
            &mut text,
            &part[..n],
            at,
        );
        let written = at.written;
        if rt.write_all(&text[..written]).is_err() {
            tell_lost(rt);
            return;
        }
    }
    let last = script_bytes::end(&mut w, &mut waiting, &mut list, &line, &mut text, at);
    let written = last.written;
    if rt.write_all(&text[..written]).is_err() {
        tell_lost(rt);
    }
}

// The file that the first argument names, or standard input; `None` where it cannot be opened, which is told.
pub fn open_script<R: Files + Env + Input + Eprint + Alloc>(
    rt: &R,
) -> Option<Script<R::Reader, R::File>> {
    let mut path = [0u8; 4096];
    let n = match rt.arg(1, &mut path) {
        Ok(n) => n,
        Err(FillError::NotPresent) => return Some(Script::Input(rt.reader())),
        Err(FillError::TooLong) => {
            tell_failure(rt, "path", io::Error::from_raw_os_error(ENAMETOOLONG));
            return None;
        }
    };
    let Ok(name) = std::str::from_utf8(&path[..n]) else {
        tell_failure(
            rt,
            "path",
            io::Error::new(io::ErrorKind::InvalidFilename, "not UTF-8"),
        );
        return None;
    };
    match fs::open(rt, name) {
        Ok(file) => Some(Script::File(file)),
        Err(error) => {
            tell_failure(rt, name, error);
            None
        }
    }
}

pub fn answer_script<R: Files + Env + Input + Print + Eprint + Alloc>(rt: &R) {
    match open_script(rt) {
        Some(Script::Input(mut input)) => run(rt, &mut input),
        Some(Script::File(mut file)) => run(rt, &mut file),
        None => {}
    }
}
