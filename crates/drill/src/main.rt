// Follows the plan file that the one argument names with the answer bytes on standard input, and prints the transcript with one write. Trouble is told in one line on standard error.
// One byte more than a plan file or an answer list may have is read, so that a longer one is refused.
#![tactic(auto)]

use plan::limits::{MOST_ANSWERS, MOST_FILE};
use std::io::Read;
use std::rt::{Env, Files};
use transcript::{TRANSCRIPT_SIZE, write_transcript};

// What a step of the program gives, or what the trouble is.
type Told<T> = Result<T, &'static str>;

// The plan's file, opened.
fn open_plan<R: Env + Files>(rt: &R) -> Told<R::File> {
    if input::argument_count(rt) != 2 {
        return Err("it takes one argument, the plan's file; the answers are on standard input");
    }
    let mut path = [0u8; 4096];
    let length = rt
        .arg(1, &mut path)
        .map_err(|_| "the name of the plan's file is too long")?;
    input::open(rt, &path[..length]).map_err(|_| "the plan's file cannot be opened")
}

fn print_drill(out: &impl Print, file: &[u8], answers: &[u8]) -> Told<()> {
    let mut text = [0u8; TRANSCRIPT_SIZE];
    let length = write_transcript(file, answers, &mut text);
    out.write_all(&text[..length])
        .map_err(|_| "the transcript could not be written whole")
}

// Reads the plan, and stops where that fails: a folder can be opened, and not read.
fn drill_plan<F: Read>(out: &impl Print, from: &mut F, answers: &[u8]) -> Told<()> {
    let mut file = [0u8; MOST_FILE + 1];
    let input = input::read_whole(from, &mut file).map_err(|_| "the plan's file cannot be read")?;
    print_drill(out, &file[..input.length], answers)
}

// The answers are read before the plan is opened: were standard input closed, the plan would take its number. A list that was cut by
// an error is not drilled.
fn drill<R: Env + Files, F: Read>(rt: &R, out: &impl Print, from: &mut F) -> Told<()> {
    let mut answers = [0u8; MOST_ANSWERS + 1];
    let input = input::read_whole(from, &mut answers).map_err(|_| "the answers cannot be read")?;
    let mut plan = open_plan(rt)?;
    drill_plan(out, &mut plan, &answers[..input.length])
}

fn main(rt: HostRuntime) {
    if let Err(trouble) = drill(&rt, &rt.stdout(), &mut rt.stdin()) {
        eprintln!(rt; "drill: {trouble}").is_ok();
    }
}
