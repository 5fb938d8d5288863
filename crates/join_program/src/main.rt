// join_program FIRST CELL SECOND OUT: the plan in the file SECOND, hung under a cell of the plan in the file FIRST, is written into the file OUT, whole or not at all.
// A refusal is told in one line on standard output, and then no file is written; trouble in one line on standard error.
// One byte more than a plan file may have is read, so that a longer one is refused.
#![tactic(auto)]

use argument_number::number_in;
use join_file::join_files;
use join_file_spec::JoinError;
use join_text::{JOIN_SIZE, write_join};
use plan::limits::MOST_FILE;
use saving::SaveError;
use std::process::Process;
use std::rt::{Env, Files};

fn trouble(err: &impl Print, text: &[u8]) {
    err.write_all(text).is_ok();
}

// The bytes of the file that argument i names; nothing where it cannot be opened or read.
fn read_argument<'a, R: Env + Files>(rt: &R, i: usize, file: &'a mut [u8]) -> Option<&'a [u8]> {
    let mut path = [0u8; 4096];
    let length = rt.arg(i, &mut path).ok()?;
    let mut from = input::open(rt, &path[..length]).ok()?;
    let n = input::read_whole(&mut from, file).ok()?.length;
    Some(&file[..n])
}

// The line of a refusal.
fn print_error(out: &impl Print, err: &impl Print, error: JoinError) {
    let mut text = [0u8; JOIN_SIZE];
    let n = write_join(Err(error), &mut text);
    if out.write_all(&text[..n]).is_err() {
        trouble(err, b"join: the refusal could not be written whole\n");
    }
}

// The joined file under the name that the last argument gives.
fn hand_over<R: Env + Files>(rt: &R, process: Process, err: &impl Print, bytes: &[u8]) {
    let mut name = [0u8; 4096];
    let n = input::argument(rt, 4, &mut name);
    if n == 0 {
        trouble(err, b"join: no file can have that name\n");
        return;
    }
    match saving::save(rt, process, &name[..n], bytes) {
        Ok(()) => {}
        Err(SaveError::NotRegular) => trouble(
            err,
            b"join: OUT is no regular file, and is not replaced\n",
        ),
        Err(SaveError::Failed) => trouble(err, b"join: the file could not be written\n"),
    }
}

fn join_plans<R: Env + Files>(
    rt: &R,
    process: Process,
    out: &impl Print,
    err: &impl Print,
    first_plan: &[u8],
    cell: usize,
    second_plan: &[u8],
) {
    let mut joined = [0u8; MOST_FILE];
    match join_files(first_plan, cell, second_plan, &mut joined) {
        Ok(length) => hand_over(rt, process, err, joined.get(..length).unwrap_or(&joined)),
        Err(error) => print_error(out, err, error),
    }
}

// Reads both plans, and stops where that fails.
fn read_plans<R: Env + Files>(
    rt: &R,
    process: Process,
    out: &impl Print,
    err: &impl Print,
    cell: usize,
) {
    let mut a = [0u8; MOST_FILE + 1];
    let Some(first_plan) = read_argument(rt, 1, &mut a) else {
        trouble(err, b"join: the first plan's file cannot be read\n");
        return;
    };
    let mut b = [0u8; MOST_FILE + 1];
    let Some(second_plan) = read_argument(rt, 3, &mut b) else {
        trouble(err, b"join: the second plan's file cannot be read\n");
        return;
    };
    join_plans(rt, process, out, err, first_plan, cell, second_plan);
}

fn main(rt: HostRuntime) {
    let err = rt.stderr();
    if input::argument_count(&rt) != 5 {
        trouble(
            &err,
            b"join: four arguments: the first plan's file, a cell of it, the second plan's file, the file to write\n",
        );
        return;
    }
    let mut text = [0u8; 4096];
    let n = input::argument(&rt, 2, &mut text);
    let Some(cell) = number_in(&text[..n]) else {
        trouble(&err, b"join: the cell is a number\n");
        return;
    };
    read_plans(&rt, rt.process(), &rt.stdout(), &err, cell as usize);
}
