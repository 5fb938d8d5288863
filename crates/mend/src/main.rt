// Mends the plan file on standard input: the mended file goes to the second file, named by the one argument, and the lines to standard output; or the refusal.
// One byte more than a plan file may have is read, so that a longer one is refused.
#![tactic(auto)]

use listing::refused_line;
use plan::Refusal;
use plan::limits::{LINES_SIZE, MOST_FILE};
use saving::SaveError;
use std::io::Read;
use std::process::Process;
use std::rt::Files;

fn trouble(err: &impl Print, text: &[u8]) {
    err.write_all(text).is_ok();
}

fn print(out: &impl Print, err: &impl Print, text: &[u8]) {
    if out.write_all(text).is_err() {
        trouble(err, b"mend: the lines could not be written whole\n");
    }
}

// The line of a refusal.
fn refuse(out: &impl Print, err: &impl Print, refusal: Refusal) {
    let line = refused_line(u32::from(refusal.number), u32::from(refusal.cell));
    print(out, err, &line.bytes[..line.length]);
}

// The file, and then the lines.
fn hand_over<R: Files>(
    rt: &R,
    process: Process,
    out: &impl Print,
    err: &impl Print,
    name: &[u8],
    file: &[u8],
    lines: &[u8],
) {
    match saving::save(rt, process, name, file) {
        Ok(()) => print(out, err, lines),
        Err(SaveError::NotRegular) => trouble(
            err,
            b"mend: the second file is no regular file, and is not replaced\n",
        ),
        Err(SaveError::Failed) => trouble(err, b"mend: the file could not be written\n"),
    }
}

fn mend_file<R: Files>(
    rt: &R,
    process: Process,
    out: &impl Print,
    err: &impl Print,
    name: &[u8],
    file: &[u8],
) {
    let mut mended = [0u8; MOST_FILE];
    let mut lines = [0u8; LINES_SIZE];
    match mending::mend(file, &mut mended, &mut lines) {
        Err(refusal) => refuse(out, err, refusal),
        Ok(sizes) => {
            let file = &mended[..sizes.file];
            hand_over(rt, process, out, err, name, file, &lines[..sizes.lines]);
        }
    }
}

fn mend_into<R: Files, F: Read>(
    rt: &R,
    process: Process,
    out: &impl Print,
    err: &impl Print,
    from: &mut F,
    name: &[u8],
) {
    let mut file = [0u8; MOST_FILE + 1];
    let Ok(input) = input::read_whole(from, &mut file) else {
        trouble(err, b"mend: the plan cannot be read\n");
        return;
    };
    mend_file(rt, process, out, err, name, &file[..input.length]);
}

fn main(rt: HostRuntime) {
    let err = rt.stderr();
    if input::argument_count(&rt) != 2 {
        trouble(&err, b"mend: one argument, the file to write\n");
        return;
    }
    let mut argument = [0u8; 4096];
    let n = input::argument(&rt, 1, &mut argument);
    if n == 0 {
        trouble(&err, b"mend: no file can have that name\n");
        return;
    }
    let mut from = rt.stdin();
    mend_into(
        &rt,
        rt.process(),
        &rt.stdout(),
        &err,
        &mut from,
        &argument[..n],
    );
}
