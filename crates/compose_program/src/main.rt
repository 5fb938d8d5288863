// The plan file of the outline on standard input, written into the file that the one argument names, whole or not at all; without an argument to standard output, with one write.
// A refusal, or the line that is not understood and what to do about it, goes to standard error, and then nothing is written.
// The longest outline has 257 lines of 256 bytes; one byte more is read, so that a longer text is faulty.
#![tactic(auto)]

use compose::ComposeError;
use compose_fault::put_fault;
use plan::limits::MOST_FILE;
use saving::SaveError;
use std::process::Process;
use std::rt::{Env, Files};

fn trouble(err: &impl Print, text: &[u8]) {
    err.write_all(text).is_ok();
}

// The file under the name that the argument gives.
fn save<R: Env + Files>(rt: &R, process: Process, err: &impl Print, bytes: &[u8]) {
    let mut name = [0u8; 4096];
    let n = input::argument(rt, 1, &mut name);
    if n == 0 {
        trouble(err, b"compose: no file can have that name\n");
        return;
    }
    match saving::save(rt, process, &name[..n], bytes) {
        Ok(()) => {}
        Err(SaveError::NotRegular) => trouble(
            err,
            b"compose: OUT is no regular file, and is not replaced\n",
        ),
        Err(SaveError::Failed) => trouble(err, b"compose: the file could not be written\n"),
    }
}

fn hand_over<R: Env + Files>(
    rt: &R,
    process: Process,
    out: &impl Print,
    err: &impl Print,
    bytes: &[u8],
) {
    if input::argument_count(rt) == 2 {
        save(rt, process, err, bytes);
        return;
    }
    if out.write_all(bytes).is_err() {
        trouble(err, b"compose: the plan could not be written whole\n");
    }
}

fn write_plan<R: Env + Files>(
    rt: &R,
    process: Process,
    out: &impl Print,
    err: &impl Print,
    text: &[u8],
) {
    let mut file = [0u8; MOST_FILE];
    match compose::compose(text, &mut file) {
        Ok(length) => hand_over(rt, process, out, err, &file[..length]),
        Err(ComposeError::Refused(refusal)) => {
            let line = listing::refused_line(u32::from(refusal.number), u32::from(refusal.cell));
            trouble(err, &line.bytes[..line.length]);
        }
        Err(ComposeError::Wrong { line, fault }) => {
            let mut told = [0u8; 192];
            let length = put_fault(line, fault, &mut told);
            trouble(err, &told[..length]);
        }
    }
}

fn main(rt: HostRuntime) {
    let err = rt.stderr();
    if input::argument_count(&rt) > 2 {
        trouble(&err, b"compose: one argument, the file to write, or none\n");
        return;
    }
    let mut from = rt.stdin();
    let mut text = [0u8; 65793];
    let Ok(input) = input::read_whole(&mut from, &mut text) else {
        trouble(&err, b"compose: the text cannot be read\n");
        return;
    };
    let n = input.length;
    write_plan(&rt, rt.process(), &rt.stdout(), &err, &text[..n]);
}
