// Prints the sheet of each plan file on standard input. A file comes after its length, a number of two bytes, low byte first.
#![tactic(auto)]

use plan::limits::LISTING_SIZE;
use std::io;
use std::io::Read;

fn print_file(rt: &impl Print, file: &[u8]) -> io::Result<()> {
    let mut out = [0u8; LISTING_SIZE];
    let length = printing::write_listing(file, &mut out);
    rt.write_all(&out[..length])
}

// The next file; false where the input has ended.
fn print_next<F: Read>(rt: &impl Print, from: &mut F, space: &mut [u8]) -> io::Result<bool> {
    let mut length = [0u8; 2];
    if from.read_exact(&mut length).is_err() {
        return Ok(false);
    }
    let size = usize::from(u16::from_le_bytes(length));
    if space.len() < size {
        return Ok(false);
    }
    if from.read_exact(&mut space[..size]).is_err() {
        return Ok(false);
    }
    print_file(rt, &space[..size])?;
    Ok(true)
}

fn main(rt: HostRuntime) -> io::Result<()> {
    let mut from = rt.stdin();
    let mut space = [0u8; 16400];
    for _ in 0..500 {
        if !print_next(&rt, &mut from, &mut space)? {
            return Ok(());
        }
    }
    Ok(())
}
