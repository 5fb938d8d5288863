// A length that an argument of `plot` says, in thousandths of a millimetre: digits with at most one point, one digit at least, three behind the point at most.
#![tactic(auto)]

ghost use Rattle.std.specs.Prelude.{◌≡◌, ◌+◌, ◌*◌, ◌-◌, ◌≤◌};
ghost use Rattle.plot_arguments.specs.Lengths.{most, «next_place», with_point, with_digit, broken, step, thousandths, finish, length_of};

const POINT: u8 = 46;

const ZERO: u8 = 48;

const NINE: u8 = 57;

// A number of so many units of its last digit or more counts as so many, which question 17 refuses in any unit.
const MOST: u32 = 1000000;

// What is read so far: the digits as one number; where the last of them stands, 0 before the point, else one more than the digits behind it;
// whether there was a digit; whether it is no number.
#[derive(Drop)]
pub struct Digits {
    pub value: u32,
    pub place: u8,
    pub seen: bool,
    pub fault: bool,
}

fn broken() -> Digits
    ensures { result ≡ broken }
{
    Digits {
        value: 0,
        place: 0,
        seen: false,
        fault: true,
    }
}

fn next_place(place: u8) -> u8
    requires { place ≤ 3 }
    ensures { result ≡ next_place place }
{
    if place == 0 {
        return 0;
    }
    place + 1
}

fn with_point(d: Digits) -> Digits
    ensures { result ≡ with_point d }
{
    if d.place == 0 {
        return Digits {
            value: d.value,
            place: 1,
            seen: d.seen,
            fault: false,
        };
    }
    broken()
}

fn with_digit(d: Digits, b: u8) -> Digits
    requires { (d.value ≤ most) × (48 ≤ b) }
    ensures { result ≡ with_digit d b }
{
    if 3 < d.place {
        return broken();
    }
    let value = (10 * d.value + u32::from(b - ZERO)).min(MOST);
    let place = next_place(d.place);
    Digits {
        value,
        place,
        seen: true,
        fault: false,
    }
}

fn read_byte(d: Digits, b: u8) -> Digits
    requires { d.value ≤ most }
    ensures { result ≡ step d b }
{
    if d.fault {
        return broken();
    }
    if b == POINT {
        return with_point(d);
    }
    if b < ZERO {
        return broken();
    }
    if NINE < b {
        return broken();
    }
    with_digit(d, b)
}

fn thousandths(value: u32, place: u8) -> u32
    requires { value ≤ most }
    ensures { result ≡ thousandths value place }
{
    if place <= 1 {
        return value * 1000;
    }
    if place == 2 {
        return value * 100;
    }
    if place == 3 {
        return value * 10;
    }
    value
}

// The length, if there is a number.
fn finish(d: Digits) -> Option<u32>
    requires { d.value ≤ most }
    ensures { result ≡ finish d }
{
    if d.fault {
        return None;
    }
    if d.seen {
        return Some(thousandths(d.value, d.place));
    }
    None
}

pub fn read_length(text: &[u8]) -> Option<u32>
    ensures { result ≡ length_of text.now }
{
    let mut d = Digits {
        value: 0,
        place: 0,
        seen: false,
        fault: false,
    };
    for b in text {
        d = read_byte(d, *b);
    }
    finish(d)
}
