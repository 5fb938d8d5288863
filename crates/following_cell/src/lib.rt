// A CELL OF THE DRILL (document 02, E12): what it does when it is opened, by its kind and its byte, and after each child.
#![tactic(auto)]

ghost use Rattle.std.specs.Prelude.{◌≡◌, ◌+◌, ◌*◌, ◌≤◌, ◌<◌, length, get_or};
ghost use Rattle.links.specs.Links.{link};
ghost use Rattle.following_cell.specs.Opening.{nothing, once, after, later, hops, repeated, picked, waiting, answered, opened, Row, Cell};

// What is still to do of an open cell: the next child, 0 where there is none, and how often.
#[derive(Drop)]
pub struct Todo {
    pub next: u16,
    pub times: u8,
}

// Whether the drill goes on, and how it ended where it does not.
#[derive(Clone, Copy, PartialEq, Eq)]
pub enum Halt {
    Going,
    Spent,
    Wrong,
    Full,
}

// What a cell does when it is opened: its next child and how often; whether the drill goes on; bytes used.
#[derive(Drop)]
pub struct Opened {
    pub next: u16,
    pub times: u8,
    pub halt: Halt,
    pub used: usize,
}

// Link k of the cell c.
fn link(links: &[u16], c: u16, k: usize) -> u16
    requires { (4 * c + 4 ≤ length links.now) × (k < 4) }
    ensures { result ≡ link links.now c k }
{
    links[4 * usize::from(c) + k]
}

// What an open cell of this kind does after its child n, which was to be done so often.
pub fn after(links: &[u16], kind: u8, n: u16, times: u8) -> Todo
    requires { 4 * n + 4 ≤ length links.now }
    ensures { result ≡ after links.now kind n times }
{
    if 1 < times {
        return Todo {
            next: n,
            times: times - 1,
        };
    }
    if kind == 2 {
        return Todo {
            next: link(links, n, 1),
            times: 1,
        };
    }
    Todo { next: 0, times: 0 }
}

// The next sibling, 0 where there is none.
fn later(links: &[u16], n: u16) -> u16
    requires { 4 * n + 4 ≤ length links.now }
    ensures { result ≡ later links.now n }
{
    if n == 0 {
        return 0;
    }
    link(links, n, 1)
}

// The sibling a places after n, 0 where there is none.
fn sibling(links: &[u16], n: u16, a: u8) -> u16
    requires { Row links.now n }
    ensures { result ≡ hops links.now n a }
{
    let mut s = n;
    for _i in 0..a {
        s = later(links, s);
    }
    s
}

// Nothing is to do.
fn nothing(halt: Halt, used: usize) -> Opened
    ensures { result ≡ nothing halt used }
{
    Opened {
        next: 0,
        times: 0,
        halt,
        used,
    }
}

// The child n is to be done once.
fn once(n: u16, used: usize) -> Opened
    ensures { result ≡ once n used }
{
    Opened {
        next: n,
        times: 1,
        halt: Halt::Going,
        used,
    }
}

// A repeat, whose byte is a.
fn repeated(first: u16, a: u8, used: usize) -> Opened
    ensures { result ≡ repeated first a used }
{
    if a == 0 {
        return nothing(Halt::Going, used);
    }
    Opened {
        next: first,
        times: a,
        halt: Halt::Going,
        used,
    }
}

// A choice, whose byte names the child n, 0 where there is none.
fn picked(n: u16, used: usize) -> Opened
    ensures { result ≡ picked n used }
{
    if n == 0 {
        return nothing(Halt::Wrong, used);
    }
    once(n, used)
}

// A wait, whose byte is a.
fn waiting(first: u16, a: u8, used: usize) -> Opened
    ensures { result ≡ waiting first a used }
{
    if a == 0 {
        return nothing(Halt::Going, used);
    }
    if a == 1 {
        return once(first, used);
    }
    nothing(Halt::Wrong, used)
}

// A repeat, a choice or a wait s, whose byte is a.
fn answered(links: &[u16], s: u16, kind: u8, a: u8, used: usize) -> Opened
    requires { Cell links.now s }
    ensures { result ≡ answered links.now s kind a used }
{
    let first = link(links, s, 0);
    if kind == 3 {
        return repeated(first, a, used);
    }
    if kind == 4 {
        return picked(sibling(links, first, a), used);
    }
    waiting(first, a, used)
}

fn byte_at(answers: &[u8], i: usize) -> u8
    requires { i < length answers.now }
    ensures { result ≡ get_or answers.now i 0 }
{
    answers[i]
}

// A cell s that is no step is opened: a run does all its children, any other takes a byte.
pub fn open_cell(links: &[u16], answers: &[u8], s: u16, kind: u8, used: usize) -> Opened
    requires { Cell links.now s }
    ensures { result ≡ opened links.now answers.now s kind used }
{
    if kind == 2 {
        return once(link(links, s, 0), used);
    }
    if used < answers.len() {
        return answered(links, s, kind, byte_at(answers, used), used + 1);
    }
    nothing(Halt::Spent, used)
}
