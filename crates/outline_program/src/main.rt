// Writes the outline of the plan file on standard input to standard output, with one write; a refusal to standard error. One byte more than a plan file may have is read, so that a longer one is refused.
#![tactic(auto)]

use plan::limits::MOST_FILE;

fn write_outline(out: &impl Print, err: &impl Print, file: &[u8]) {
    let mut text = [0u8; 66560];
    match outline::outline(file, &mut text) {
        Ok(length) => {
            if out.write_all(&text[..length]).is_err() {
                err.write_all(b"outline: the outline could not be written whole\n")
                    .is_ok();
            }
        }
        Err(refusal) => {
            let line = listing::refused_line(u32::from(refusal.number), u32::from(refusal.cell));
            err.write_all(&line.bytes[..line.length]).is_ok();
        }
    }
}

fn main(rt: HostRuntime) {
    let mut from = rt.stdin();
    let mut file = [0u8; MOST_FILE + 1];
    let Ok(input) = input::read_whole(&mut from, &mut file) else {
        rt.stderr()
            .write_all(b"outline: the plan cannot be read\n")
            .is_ok();
        return;
    };
    let n = input.length;
    write_outline(&rt.stdout(), &rt.stderr(), &file[..n]);
}
