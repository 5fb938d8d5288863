// Writes the clean copy of the plan file on standard input to standard output, with one write; a refusal to standard error. One byte more than a plan file may have is read, so that a longer one is refused.
#![tactic(auto)]

use plan::limits::MOST_FILE;

fn write_copy(out: &impl Print, err: &impl Print, file: &[u8]) {
    let mut copy = [0u8; MOST_FILE];
    match copying::clean(file, &mut copy) {
        Ok(length) => {
            if out.write_all(&copy[..length]).is_err() {
                err.write_all(b"clean: the copy could not be written whole\n")
                    .is_ok();
            }
        }
        Err(refusal) => {
            let line = listing::refused_line(u32::from(refusal.number), u32::from(refusal.cell));
            let length = line.length;
            let bytes = line.bytes;
            err.write_all(&bytes[..length]).is_ok();
        }
    }
}

fn main(rt: HostRuntime) {
    let mut from = rt.stdin();
    let mut file = [0u8; MOST_FILE + 1];
    let Ok(input) = input::read_whole(&mut from, &mut file) else {
        rt.stderr()
            .write_all(b"clean: the plan cannot be read\n")
            .is_ok();
        return;
    };
    let n = input.length;
    write_copy(&rt.stdout(), &rt.stderr(), &file[..n]);
}
