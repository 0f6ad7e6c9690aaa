//! Texts that no run writes (`tree_print`, `generator`).

use base_types::{Bytes, Memory, Text};
use generator::print_bundle;
use std::alloc::Global;
use tree_print::print_tree;
use tree_types::{Kind, Node, Nodes, Note, Outputs, Params, Path, Phase, Sels, Tree};

/// A node of a cache that is asked.
fn node(alloc: Global) -> Result<Node, Memory> {
    let note = Note::Looking(Text::from_text(alloc, "c")?);
    Ok(Node {
        path: Path {
            sels: Sels::new(alloc)?,
        },
        name: Text::from_text(alloc, "n\u{1f}~")?,
        kind: Kind::TaskGroup,
        phase: Phase::Skipped,
        note,
        outputs: Outputs {
            result: None,
            params: Params::new(alloc),
        },
        depth: 0,
    })
}

fn printed(alloc: Global) -> Result<Bytes, Memory> {
    let workflow = Text::from_text(alloc, "w\n\\\u{7f}é")?;
    let mut nodes = Nodes::new(alloc);
    nodes.push(node(alloc)?)?;
    print_tree(alloc, &workflow, Phase::Omitted, &Tree { nodes })
}

const TREE: &str = r"workflow w\x0a\x5c\x7fé Omitted
Skipped TaskGroup n\x1f~ -- looking in c
";

#[test]
fn prints_a_look_up_that_is_not_answered(rt: HostRuntime) {
    match printed(rt.alloc()) {
        Ok(text) => assert!(rt; text.as_slice() == TREE.as_bytes()),
        Err(_) => assert!(rt; false),
    }
}

/// The bytes of the largest document of the greatest seed.
const LARGEST: usize = 147_212;

#[test]
fn makes_the_largest_document(rt: HostRuntime) {
    match print_bundle(rt.alloc(), u64::MAX, 500) {
        Ok(text) => assert!(rt; text.len() == LARGEST),
        Err(_) => assert!(rt; false),
    }
}
