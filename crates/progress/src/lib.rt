// How far a program with many files has come, every hundred files, where standard error is a terminal: `folder: 300 of 1024 files`.
#![tactic(auto)]

use std::io::IsTerminal;

// Files after which it is told.
const MANY: usize = 100;

// Told to `to`, standard error. What a terminal does not take is let go.
pub fn tell_progress<E: Print + IsTerminal>(to: &E, program: &[u8], done: usize, all: usize) {
    if done % MANY != 0 {
        return;
    }
    if !to.is_terminal() {
        return;
    }
    if to.write_all(program).is_ok() {
        to.print(format_args!(": {done} of {all} files\n")).is_ok();
    }
}
