// Prints the reason for the width of the sheet of the plan file on standard input, with one write. One byte more than a plan file may have is read, so that a longer one is refused.
#![tactic(auto)]

use plan::limits::MOST_FILE;
use why_text::REASON_SIZE;

fn print_reason(out: &impl Print, err: &impl Print, file: &[u8]) {
    let mut text = [0u8; REASON_SIZE];
    let length = why_text::write_reason(file, &mut text);
    if out.write_all(&text[..length]).is_err() {
        err.write_all(b"why: the reason could not be written whole\n")
            .is_ok();
    }
}

fn main(rt: HostRuntime) {
    let mut from = rt.stdin();
    let mut file = [0u8; MOST_FILE + 1];
    let Ok(input) = input::read_whole(&mut from, &mut file) else {
        rt.stderr()
            .write_all(b"why: the plan cannot be read\n")
            .is_ok();
        return;
    };
    let n = input.length;
    print_reason(&rt.stdout(), &rt.stderr(), &file[..n]);
}
