//! What is drawn for each workflow.

ghost use Rattle.std.specs.Prelude.{◌≡◌, ◌+◌, ◌≤◌, IfOk};
ghost use Rattle.base_types.specs.Limits.{most_size};
ghost use Rattle.generator.specs.Draws as draws;

use base_types::{List, Memory};
use std::alloc::Global;

/// What the entrypoint of a workflow is.
#[derive(Clone, Copy, Debug, PartialEq, Eq)]
pub enum Shape {
    Pod,
    /// Two groups, of one step and of two.
    Steps,
    /// Four tasks, of which the middle two wait for the first and the last for both.
    Dag,
    /// One step over so many items.
    Loop(u64),
}

/// A workflow as it is drawn.
#[derive(Clone, Copy, Debug, PartialEq, Eq)]
pub struct Drawn {
    /// The position of the workflow in the document.
    pub position: u32,
    pub shape: Shape,
    /// Whether one of the workflow's pods fails.
    pub fails: bool,
}

// The factor and the summand are Knuth's.
const FACTOR: u64 = 6_364_136_223_846_793_005;

const SUMMAND: u64 = 1_442_695_040_888_963_407;

// The low 33 bits are not drawn.
const LOW: u64 = 8_589_934_592;

#[tactic(auto, unfolding(crate::specs::Draws::next))]
fn next(state: u64) -> u64
    ensures { result ≡ draws.next state }
{
    state.wrapping_mul(FACTOR).wrapping_add(SUMMAND)
}

fn shape_of(number: u64) -> Shape
    ensures { result ≡ draws.shape_of number }
{
    match number % 4 {
        0 => Shape::Pod,
        1 => Shape::Steps,
        2 => Shape::Dag,
        _ => Shape::Loop(1 + number / 32 % 20),
    }
}

#[tactic(auto, unfolding(crate::specs::Draws::drawn_by))]
fn drawn_by(position: u32, number: u64) -> Drawn
    ensures { result ≡ draws.drawn_by position number }
{
    Drawn {
        position,
        shape: shape_of(number),
        fails: number / 4 % 8 == 0,
    }
}

/// So many workflows, by a seed.
pub(crate) fn draw(alloc: Global, seed: u64, size: u32) -> Result<List<Drawn>, Memory>
    requires { size ≤ most_size }
    ensures { IfOk result (λ drawn. drawn ≡ draws.drawn seed 0 size) }
{
    let mut drawn = List::new(alloc);
    let mut state = seed;
    for position in 0..size {
        state = next(state);
        drawn.push(drawn_by(position, state / LOW))?;
    }
    Ok(drawn)
}
