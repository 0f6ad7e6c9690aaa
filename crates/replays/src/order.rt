//! Orders of facts.

use base_types::{Memory, TryCopy};
use std::alloc::Global;
use tree_types::Facts;

// A linear congruential generator of 64 bits with Knuth's numbers (MMIX), of which the upper half counts.
fn draw(seed: &mut u64) -> usize {
    *seed = seed
        .wrapping_mul(6_364_136_223_846_793_005)
        .wrapping_add(1_442_695_040_888_963_407);
    (*seed >> 32) as usize
}

/// The facts in the order that a number means; 0 means the order in which they are.
pub(crate) fn in_order(alloc: Global, facts: &Facts, number: u64) -> Result<Facts, Memory> {
    if number == 0 {
        return facts.copy();
    }
    let mut seed = number;
    let mut left = facts.copy()?.into_vec();
    let mut drawn = Facts::with_capacity(alloc, facts.len())?;
    for _ in 0..facts.len() {
        if !left.is_empty() {
            let place = draw(&mut seed) % left.len();
            drawn.push(left.swap_remove(place))?;
        }
    }
    Ok(drawn)
}
