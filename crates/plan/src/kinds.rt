// The kinds: 1 step, 2 run, 3 repeat, 4 choice, 5 wait.
ghost use Rattle.std.specs.Prelude.{◌≡◌, ◌^◌, ◌<◌, Some};
ghost use Rattle.plan.specs.Plan.{appointed};
ghost use Rattle.plan.specs.Kinds.{about, known, allows, bordered};

use crate::limits::{MOST_CHILDREN, between};

// What a kind allows: from how many children to how many; and its border.
#[derive(Clone, Copy, Drop)]
pub struct Kind {
    pub fewest: u8,
    pub most: u8,
    pub border: u8,
}

fn entry(fewest: u8, most: u8, border: u8) -> Option<Kind>
    ensures { result ≡ Some (record { fewest = fewest; most = most; border = border }) }
{
    Some(Kind {
        fewest,
        most,
        border,
    })
}

pub fn about(kind: u8) -> Option<Kind>
    ensures { result ≡ about kind }
{
    match kind {
        1 => entry(0, 0, 2),
        2 => entry(1, MOST_CHILDREN, 2),
        3 => entry(1, 1, 4),
        4 => entry(2, MOST_CHILDREN, 4),
        5 => entry(0, 1, 2),
        _ => None,
    }
}

// Question 7.
pub fn known(kind: u8) -> bool
    ensures { result ≡ known kind }
{
    about(kind).is_some()
}

// Question 11: whether the kind allows so many children.
pub fn allows(kind: u8, children: u16) -> bool
    ensures { result ≡ allows kind children }
{
    match about(kind) {
        Some(k) => between(k.fewest as u16, k.most as u16, children),
        None => false,
    }
}

// Question 10: whether a box of the kind holds a label of so many bytes and its border, the least units that the width must exceed the label by.
pub fn bordered(kind: u8, size: u8, width: u16) -> bool
    ensures { result ≡ bordered kind size width }
{
    match about(kind) {
        Some(k) => (size as u16) + (k.border as u16) <= width,
        None => false,
    }
}

// THE appointed child of a parent of this kind with k children, counted from 1: the first of a choice.
pub fn appointed(kind: u8, k: u32) -> u32
    requires { k < 2 ^ 31 }
    ensures { result ≡ appointed kind k }
{
    match kind {
        4 => 1,
        _ => (k + 1 + 1) / 2,
    }
}
