//! By what a node is looked for.

ghost use Rattle.std.specs.Prelude.{◌≡◌, ◌<◌, bytes_eq};
ghost use Rattle.tree_types.specs.Places.{sels_eq};
ghost use Rattle.tree_state.specs.Finding.{fits};

use crate::NodeTest;
use base_types::Text;
use tree_types::{Node, Sel};

/// By what a node is looked for: its path, or its name.
#[derive(Clone, Copy)]
pub enum Clue<'a> {
    Path(&'a [Sel]),
    Name(&'a Text),
}

impl NodeTest for Clue<'_> {
    ghost accepts = { fits };

    fn accepts(&self, node: &Node) -> bool {
        match self {
            Clue::Path(path) => same_sels(node.path.sels.as_slice(), path),
            Clue::Name(name) => same_text(&node.name, name),
        }
    }
}

pub(crate) fn same_sels(a: &[Sel], b: &[Sel]) -> bool
    ensures { result ≡ sels_eq a.now b.now }
{
    a == b
}

fn same_text(a: &Text, b: &Text) -> bool
    ensures { result ≡ bytes_eq a.now b.now }
{
    a == b
}

// What a clue says of the way to its node is a guess: it is tried first, and nothing is wrong where it is.
impl Clue<'_> {
    // No way to the node is longer.
    pub(crate) fn longest_way(&self) -> usize {
        match self {
            Clue::Path(path) => path.len(),
            Clue::Name(name) => name.len(),
        }
    }

    // Whether a node is likely to be the one that is looked for, or to stand above it.
    pub(crate) fn leads_through(&self, node: &Node) -> bool {
        match self {
            Clue::Path(path) => leads_by(node.path.sels.as_slice(), path),
            Clue::Name(name) => match name.as_str().strip_prefix(node.name.as_str()) {
                None => false,
                Some(behind) => is_suffix(behind.as_bytes()),
            },
        }
    }

    // At which position below a node the next one on the way is likely to stand.
    pub(crate) fn position_below(&self, node: &Node) -> usize {
        match self {
            Clue::Path(path) => match path.get(node.path.sels.len()) {
                None => 0,
                Some(sel) => position_of(*sel),
            },
            Clue::Name(name) => match name.as_str().strip_prefix(node.name.as_str()) {
                None => 0,
                Some(behind) => number_in(behind.as_bytes()),
            },
        }
    }
}

// Whether a path ends as another goes on there. What stands beside it differs from it in its last selector alone.
fn leads_by(sels: &[Sel], path: &[Sel]) -> bool {
    match (sels.last(), path.get(sels.len().saturating_sub(1))) {
        (Some(last), Some(sel)) => *last == *sel,
        _ => false,
    }
}

// Whether a name may end here, and another begin with it.
fn is_suffix(behind: &[u8]) -> bool {
    match behind.first() {
        None => true,
        Some(byte) => matches!(byte, b'.' | b'[' | b'('),
    }
}

// An exit hook stands behind all else.
fn position_of(sel: Sel) -> usize {
    match sel {
        Sel::Main => 0,
        Sel::Exit => usize::MAX,
        Sel::Group(i) => i as usize,
        Sel::Step(i) => i as usize,
        Sel::Task(i) => i as usize,
        Sel::Item(i) => i as usize,
        Sel::Attempt(i) => i as usize,
    }
}

// The number whose digits stand behind the first byte; 0, if there are none.
fn number_in(suffix: &[u8]) -> usize {
    let mut number: usize = 0;
    for byte in suffix.iter().skip(1) {
        if !byte.is_ascii_digit() {
            return number;
        }
        number = number
            .saturating_mul(10)
            .saturating_add((byte - b'0') as usize);
    }
    number
}

/// The position to look at in this step: from one down to the first, then from it up to the last.
pub(crate) fn position_at(step: usize, near: usize, count: usize) -> usize
    requires { step < count }
    ensures { result < count }
{
    let near = near.min(count - 1);
    if step <= near { near - step } else { step }
}
