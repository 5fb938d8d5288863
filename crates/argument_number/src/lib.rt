// A NUMBER THAT AN ARGUMENT OF A PROGRAM TELLS: decimal digits, and nothing else.
#![tactic(auto)]

ghost use Rattle.std.specs.Prelude.{◌≡◌, Some};
ghost use Rattle.argument_number.specs.Number.{with_digit, number_in};

// The number with one digit more.
fn with_digit(n: u32, b: u8) -> Option<u32>
    ensures { result ≡ with_digit (Some n) b }
{
    if b < b'0' {
        return None;
    }
    if b'9' < b {
        return None;
    }
    n.checked_mul(10)?.checked_add(u32::from(b - b'0'))
}

// The number that a text tells.
pub fn number_in(text: &[u8]) -> Option<u32>
    ensures { result ≡ number_in text.now }
{
    if text.len() == 0 {
        return None;
    }
    let mut n: u32 = 0;
    for &b in text {
        n = with_digit(n, b)?;
    }
    Some(n)
}
