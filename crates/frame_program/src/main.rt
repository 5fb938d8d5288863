// frame_program SQUARES: the least allowance with which the plan on standard input fits a frame of so many squares, on one line of standard output; or `none`; or its refusal.
// Trouble is told in one line on standard error. One byte more than a plan file may have is read, so that a longer one is refused.
#![tactic(auto)]

use argument_number::number_in;
use frame_text::{FRAME_SIZE, write_frame};
use plan::limits::MOST_FILE;
use std::io::Read;
use std::rt::Env;

fn trouble(err: &impl Print, line: &[u8]) {
    err.write_all(line).is_ok();
}

// The number that the one argument tells.
fn squares<R: Env>(rt: &R) -> Option<u32> {
    if input::argument_count(rt) != 2 {
        return None;
    }
    let mut text = [0u8; 4096];
    let n = input::argument(rt, 1, &mut text);
    number_in(&text[..n])
}

fn print_frame(out: &impl Print, err: &impl Print, file: &[u8], squares: u32) {
    let mut text = [0u8; FRAME_SIZE];
    let length = write_frame(file, squares, &mut text);
    if out.write_all(&text[..length]).is_err() {
        trouble(err, b"frame: the line could not be written whole\n");
    }
}

// Reads the plan, and stops where that fails.
fn frame_plan<F: Read>(out: &impl Print, err: &impl Print, from: &mut F, squares: u32) {
    let mut file = [0u8; MOST_FILE + 1];
    let Ok(input) = input::read_whole(from, &mut file) else {
        trouble(err, b"frame: the plan cannot be read\n");
        return;
    };
    let n = input.length;
    print_frame(out, err, &file[..n], squares);
}

fn main(rt: HostRuntime) {
    let err = rt.stderr();
    let Some(squares) = squares(&rt) else {
        trouble(&err, b"frame: the frame is a number of squares\n");
        return;
    };
    let mut from = rt.stdin();
    frame_plan(&rt.stdout(), &err, &mut from, squares);
}
