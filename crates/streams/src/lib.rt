// What the programs over files of records share: how they read and write in blocks, open the file that an argument names, and say what fails.
#![tactic(auto)]

ghost use Rattle.std.specs.Prelude.{◌≡◌, ◌+◌, ◌<◌, ◌≤◌, length, take, IfOk, IfErr, IsOkAnd, IsSome, IsUtf8};
ghost use Rattle.streams.specs.Streams.{is_given, Holds};

use std::env::FillError;
use std::io::Read;
use std::rt::Files;
use std::{fs, io, str};

// The slots of a program's arena. Its tables have 8 and 11 words and 5 cells a slot, 60,416 bytes.
pub const SLOTS: usize = 512;

pub const KIDS: usize = 4096;

pub const FACTS: usize = 5632;

pub const CELLS: usize = 2560;

// An argument has at most so many bytes.
pub const ARGUMENT: usize = 4096;

// A read that failed after so many bytes of a block.
struct Broken {
    len: usize,
    error: io::Error,
}

// What comes after a block: maybe more, or the end of the input, or nothing, since a read failed.
#[derive(Clone, Copy)]
pub enum After {
    More,
    End,
    Failure,
}

// Reads until the block is full or the input ends: a record may come in two reads. Answers how many bytes that is.
fn fill(input: &mut impl Read, block: &mut [u8]) -> Result<usize, Broken>
    ensures whole { IfOk result (λ n. n ≤ length block.old) }
    ensures broken { IfErr result (λ b. b.len ≤ length block.old) }
{
    let mut len: usize = 0;
    // Kept: a turn goes on by as much as was read, which no `for` counts.
    while len < block.len() {
        match input.read(&mut block[len..]) {
            Ok(0) => return Ok(len),
            Ok(n) => len += n,
            Err(error) => return Err(Broken { len, error }),
        }
    }
    Ok(len)
}

// The reason of an error in the system's words, without the number that std writes after them.
fn reason(text: &str) -> &str {
    match text.split_once(" (os error ") {
        Some((words, _)) => words,
        None => text,
    }
}

// Says on standard error who failed, at what, and for what reason.
fn fail(rt: &(impl Eprint + Alloc), who: &str, at: &str, error: io::Error) {
    let _ = match format!(in rt.alloc(); "{error}") {
        Ok(text) => eprintln!(rt; "{who}{at}: {}", reason(text.as_str())),
        Err(_) => eprintln!(rt; "{who}{at}: {error}"),
    };
}

// Whether an argument was given, by what came of reading it.
pub fn is_given(argument: Result<usize, FillError>) -> bool
    ensures { result ≡ is_given argument }
{
    !matches!(argument, Err(FillError::NotPresent))
}

// Opens the file that an argument names: the argument's bytes are the first ones of `name`, and have to be UTF-8. Says what fails on standard error.
pub fn open<R: Files + Eprint + Alloc>(
    rt: &R,
    program: &str,
    argument: Result<usize, FillError>,
    name: &[u8],
) -> Option<R::File>
    ensures { IsSome result → IsOkAnd argument (λ n. (n ≤ length name.now) × IsUtf8 (take n name.now)) }
{
    let given = match argument {
        Ok(len) => name.get(..len),
        Err(_) => None,
    };
    let Some(bytes) = given else {
        let _ = eprintln!(rt; "{program}: the file's name: File name too long");
        return None;
    };
    let Ok(path) = str::from_utf8(bytes) else {
        let _ = eprintln!(rt; "{program}: the file's name: not UTF-8");
        return None;
    };
    match fs::open(rt, path) {
        Ok(file) => Some(file),
        Err(error) => {
            fail(rt, path, "", error);
            None
        }
    }
}

// Writes the first bytes of a text. Says what fails on standard error.
pub fn say(rt: &(impl Print + Eprint + Alloc), program: &str, text: &[u8], len: usize) -> Option<()>
    ensures { IsSome result → len ≤ length text.now }
{
    match rt.write_all(text.get(..len)?) {
        Ok(()) => Some(()),
        Err(error) => {
            fail(rt, program, ": can't write", error);
            None
        }
    }
}

// Reads a block of the input; answers how many bytes were read and what comes after them. Where a read fails it says so on standard error, and what is whole in
// records of `width` bytes counts.
pub fn read_block(
    rt: &(impl Eprint + Alloc),
    program: &str,
    input: &mut impl Read,
    width: usize,
    block: &mut [u8],
) -> (usize, After)
    ensures within { result.0 ≤ length block.old }
    ensures holds { Holds result.1 width (length block.old) result.0 }
{
    match fill(input, block) {
        Ok(len) if len < block.len() => (len, After::End),
        Ok(len) => (len, After::More),
        Err(Broken { len, error }) => {
            fail(rt, program, ": can't read", error);
            (len - len.checked_rem(width).unwrap_or(0), After::Failure)
        }
    }
}
