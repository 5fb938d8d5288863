// Places of a text, and the number at a place.

// The byte at a place; 0 past the end.
pub fn byte_at(text: &[u8], i: usize) -> u8 {
    if i < text.len() { text[i] } else { 0 }
}

// The first place from `from` on with this byte; the end where there is none.
pub fn find(text: &[u8], from: usize, b: u8) -> usize {
    for i in from..text.len() {
        if text[i] == b {
            return i;
        }
    }
    text.len()
}

// The place after that.
pub fn after(text: &[u8], from: usize, b: u8) -> usize {
    let i = find(text, from, b);
    if i < text.len() { i + 1 } else { i }
}

// One digit more, of a number of up to six.
fn with_digit(n: u32, b: u8) -> u32 {
    if n < 100000 && 48 <= b {
        10 * n + ((b - 48) as u32)
    } else {
        n
    }
}

// The number whose digits begin at a place.
pub fn number_at(text: &[u8], at: usize) -> u32 {
    let mut n: u32 = 0;
    for i in at..text.len() {
        let b = text[i];
        if !b.is_ascii_digit() {
            return n;
        }
        n = with_digit(n, b);
    }
    n
}
