// The whole of an input, read into a buffer. Every program reads by this: what was cut by an error is never taken for what the input has.
// A contract can say how many bytes came, not which (they are the world's); that its end, more behind the buffer and an error are told apart is tested from outside.
// Beside it what programs need that open their inputs themselves: how many arguments there are, a file by its name, and the line for one that cannot be read.
#![tactic(auto)]

ghost use Rattle.std.specs.Prelude.{◌≤◌, length, IfOk, IfErr};
ghost use Rattle.io.specs.Counts.{IsPrefixLen};

use std::env::FillError;
use std::io::{ErrorKind, Read, Write};
use std::rt::{Env, Files};
use std::{fs, io};

// How many bytes at the buffer's start are the input's, and whether it goes on behind the buffer's last byte.
#[derive(Clone, Copy)]
pub struct Input {
    pub length: usize,
    pub longer: bool,
}

// A read failed: how many bytes at the buffer's start had come before it, and why it failed.
#[derive(Clone, Copy)]
pub struct Cut {
    pub length: usize,
    pub error: io::Error,
}

// Reads until the buffer is full, the input ends or a read fails; then what came is not the input.
pub fn read_whole<R: Read>(from: &mut R, buffer: &mut [u8]) -> Result<Input, Cut>
    ensures whole { IfOk result (λ i. IsPrefixLen i.length buffer.new) }
    ensures cut { IfErr result (λ e. IsPrefixLen e.length buffer.new) }
{
    let mut done: usize = 0;
    while done < buffer.len() {
        match from.read(&mut buffer[done..]) {
            Ok(0) => {
                return Ok(Input {
                    length: done,
                    longer: false,
                });
            }
            Ok(count) => done += count,
            Err(error) => {
                return Err(Cut {
                    length: done,
                    error,
                });
            }
        }
    }
    let mut next = [0u8; 1];
    match from.read(&mut next) {
        Ok(more) => Ok(Input {
            length: done,
            longer: more != 0,
        }),
        Err(error) => Err(Cut {
            length: done,
            error,
        }),
    }
}

// How many arguments there are, the program's name among them.
pub fn argument_count<E: Env>(rt: &E) -> usize {
    let mut nothing = [0u8; 0];
    for i in 0..usize::MAX {
        if let Err(FillError::NotPresent) = rt.arg(i, &mut nothing) {
            return i;
        }
    }
    usize::MAX
}

// Argument i into the buffer: how many bytes it has; 0 where it is not there, or longer than the buffer.
pub fn argument<E: Env>(rt: &E, i: usize, buffer: &mut [u8]) -> usize
    ensures { IsPrefixLen result buffer.new }
{
    match rt.arg(i, buffer) {
        Ok(n) => n,
        Err(_) => 0,
    }
}

// The file of this name, open for reading. No file has a name that is no text in UTF-8.
pub fn open<R: Files>(rt: &R, path: &[u8]) -> io::Result<R::File> {
    match str::from_utf8(path) {
        Ok(text) => fs::open(rt, text),
        Err(_) => Err(io::Error::new(ErrorKind::InvalidInput, "the name is no text in UTF-8")),
    }
}

// Where the system's words end: before ` (os error N)`, or before a 0.
fn end_of_words(text: &[u8]) -> usize
    ensures { result ≤ length text.now }
{
    for (i, b) in text.iter().enumerate() {
        if *b == 0 {
            return i;
        }
        if *b == b'(' {
            return i.saturating_sub(1);
        }
    }
    text.len()
}

// The line for a file that cannot be read: its name, a colon and the system's words.
pub fn tell_unread<P: Print>(to: &P, path: &[u8], error: io::Error) -> io::Result<()> {
    let mut text = [0u8; 256];
    let mut room: &mut [u8] = &mut text;
    write!(room, "{error}")?;
    let n = end_of_words(&text);
    to.write_all(path)?;
    to.write_all(b": ")?;
    to.write_all(&text[..n])?;
    to.write_all(b"\n")
}
