// Prints the listing of the plan file on standard input, with one write. One byte more than a plan file may have is read, so that a longer one is refused.
#![tactic(auto)]

use plan::limits::{LISTING_SIZE, MOST_FILE};

fn print_sheet(out: &impl Print, err: &impl Print, file: &[u8]) {
    let mut text = [0u8; LISTING_SIZE];
    let length = printing::write_listing(file, &mut text);
    if out.write_all(&text[..length]).is_err() {
        err.write_all(b"sheet: the listing could not be written whole\n")
            .is_ok();
    }
}

fn main(rt: HostRuntime) {
    let mut from = rt.stdin();
    let mut file = [0u8; MOST_FILE + 1];
    let Ok(input) = input::read_whole(&mut from, &mut file) else {
        rt.stderr()
            .write_all(b"sheet: the plan cannot be read\n")
            .is_ok();
        return;
    };
    print_sheet(&rt.stdout(), &rt.stderr(), &file[..input.length]);
}
