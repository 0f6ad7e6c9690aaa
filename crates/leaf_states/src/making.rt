//! States of nodes with nothing below them.

ghost use Rattle.std.specs.Prelude.{◌≡◌, [], ◌∷◌, IfOk};
ghost use Rattle.meaning.specs.Lines as lines;
ghost use Rattle.tree_state.specs.Counting.{Gives};

use base_types::Memory;
use call_nodes::bare;
use meaning::Place;
use tree_state::{Below, Room, State, TreeRefused};
use tree_types::{Kind, Node, Note, Phase, Want, Wants};

/// A node that asks for nothing and has no outputs.
pub fn lone(
    place: Place,
    kind: Kind,
    phase: Phase,
    note: Note,
    room: &mut Room,
) -> Result<State, TreeRefused>
    ensures { Gives room.old room.new result (lines.alone place kind phase note) }
{
    room.take()?;
    Ok(silent(bare(place, kind, phase, note)))
}

/// A node that asks for nothing.
pub(crate) fn silent(node: Node) -> State
    ensures { result ≡ lines.made node [] lines.nothing }
{
    let alloc = node.name.allocator();
    State::new(node, Wants::new(alloc), Below::new(alloc))
}

/// A node that asks for this alone.
pub(crate) fn asking(node: Node, want: Want) -> Result<State, Memory>
    ensures { IfOk result (λ state. state ≡ lines.made node (want ∷ []) lines.nothing) }
{
    let alloc = node.name.allocator();
    let mut wants = Wants::with_capacity(alloc, 1)?;
    wants.push(want)?;
    Ok(State::new(node, wants, Below::new(alloc)))
}
