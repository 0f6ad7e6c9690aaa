//! The ways that the names of nodes lead (`node_names`).

use base_types::{Memory, Text};
use node_names::{Seg, Segs, segs_of};
use std::alloc::Global;

/// The longest name of a call, below the root `w`, and its way.
const LONGEST: &str =
    "w.nnnnnnnnnnnnnnnnnnnnnnnnnnnnnnnnnnnnnnnnnnnnnnnnnnnnnnnnnnnnnnnnnnnnnnnnnnnnnnnnnnnnnnnnnnnnnnnnnnnnnnnnnnnnnnnnnnnnnnnnnnnnnnnn";

const LONGEST_WAY: &str =
    "|call nnnnnnnnnnnnnnnnnnnnnnnnnnnnnnnnnnnnnnnnnnnnnnnnnnnnnnnnnnnnnnnnnnnnnnnnnnnnnnnnnnnnnnnnnnnnnnnnnnnnnnnnnnnnnnnnnnnnnnnnnnnnnnnn";

const TOO_LONG: &str =
    "w.nnnnnnnnnnnnnnnnnnnnnnnnnnnnnnnnnnnnnnnnnnnnnnnnnnnnnnnnnnnnnnnnnnnnnnnnnnnnnnnnnnnnnnnnnnnnnnnnnnnnnnnnnnnnnnnnnnnnnnnnnnnnnnnnn";

/// A segment of a way, behind a bar.
fn segment(alloc: Global, seg: &Seg) -> Result<String, Memory> {
    Ok(match seg {
        Seg::Exit => format!(in alloc; "|exit")?,
        Seg::Group(i) => format!(in alloc; "|group {i}")?,
        Seg::Call(name) => format!(in alloc; "|call {name}")?,
        Seg::Item(i, text) => format!(in alloc; "|item {i} {text}")?,
        Seg::Attempt(k) => format!(in alloc; "|attempt {k}")?,
    })
}

fn shown(alloc: Global, way: &Segs) -> Result<String, Memory> {
    let mut shown = String::new(alloc);
    for seg in way.iter() {
        shown.push_str(segment(alloc, seg)?.as_str())?;
    }
    Ok(shown)
}

/// The way that a name leads below a root, `none` where it leads to no node.
fn way_of(alloc: Global, root: &str, name: &str) -> Result<String, Memory> {
    let root = Text::from_text(alloc, root)?;
    let name = Text::from_text(alloc, name)?;
    match segs_of(alloc, &root, &name)? {
        Some(way) => shown(alloc, &way),
        None => Ok(String::from_str(alloc, "none")?),
    }
}

fn leads(alloc: Global, root: &str, name: &str, way: &str) -> Result<bool, Memory> {
    let found = way_of(alloc, root, name)?;
    Ok(found.as_str() == way)
}

#[test]
fn finds_ways(rt: HostRuntime) {
    for (root, name, way) in [
        ("w", "w", ""),
        ("w", "w[1]", "|group 1"),
        ("w", "w[4294967295]", "|group 4294967295"),
        ("w", "w(4294967295)", "|attempt 4294967295"),
        (
            "a.b",
            "a.b[0].s(1:x]:y)(2).onExit",
            "|group 0|call s|item 1 x]:y|attempt 2|exit",
        ),
        ("w", "w.onExit2(0:)", "|call onExit2|item 0 "),
        ("w", "v", "none"),
        ("w", "", "none"),
        ("w", "wx", "none"),
        ("w", "w.", "none"),
        ("w", "w.a:b", "none"),
        ("w", "w[01]", "none"),
        ("w", "w[]", "none"),
        ("w", "w[1", "none"),
        ("w", "w[4294967296]", "none"),
        ("w", "w(+1)", "none"),
        ("w", "w(x:y)", "none"),
        ("w", "w(1:a(b)", "none"),
        ("w", "w[1]x", "none"),
        ("w", LONGEST, LONGEST_WAY),
        ("w", TOO_LONG, "none"),
    ] {
        assert!(rt; leads(rt.alloc(), root, name, way) == Ok(true), "{name}");
    }
}
