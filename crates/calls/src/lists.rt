//! Lists whose copies share (`sharing`).

use base_types::{Memory, TryCopy};
use sharing::SharedList;
use std::alloc::Global;

/// What stands at a position that was changed.
const CHANGED: u32 = 77_777;

/// The numbers below a count, in order.
fn numbers(alloc: Global, count: u32) -> Result<SharedList<u32>, Memory> {
    let mut list = SharedList::new(alloc)?;
    for number in 0..count {
        list.push(number)?;
    }
    Ok(list)
}

/// Whether a list has the numbers below a count, but for the position that was changed, and these numbers behind them.
fn is_numbered(list: &SharedList<u32>, count: u32, changed: u32, behind: usize) -> bool {
    for number in 0..count {
        let wanted = if number == changed { CHANGED } else { number };
        if list.get(number as usize).copied() != Some(wanted) {
            return false;
        }
    }
    list.len() == (count as usize).saturating_add(behind)
}

/// The list with a number more, changed at a position where it has that.
fn grown(list: &SharedList<u32>, changed: usize) -> Result<SharedList<u32>, Memory> {
    let mut grown = list.share()?;
    grown.push(CHANGED)?;
    if changed < grown.len() {
        grown.set(changed, CHANGED)?;
    }
    Ok(grown)
}

/// The front of a list, with a number more.
fn cut(list: &SharedList<u32>, front: usize) -> Result<SharedList<u32>, Memory> {
    let mut cut = list.copy()?;
    cut.truncate(front)?;
    cut.push(CHANGED)?;
    Ok(cut)
}

/// Whether a list of so many numbers stays as it is while copies of it grow, are changed and are cut.
fn stays(alloc: Global, count: u32, changed: u32, front: u32) -> Result<bool, Memory> {
    let kept = numbers(alloc, count)?;
    let grown = grown(&kept, changed as usize)?;
    let cut = cut(&kept, front as usize)?;
    Ok(
        is_numbered(&kept, count, u32::MAX, 0)
            && is_numbered(&grown, count, changed, 1)
            && is_numbered(&cut, front, u32::MAX, 1),
    )
}

#[test]
fn keeps_a_list_while_copies_change(rt: HostRuntime) {
    for (count, changed, front) in [
        (0u32, 0u32, 0u32),
        (1, 0, 0),
        (63, 62, 62),
        (64, 0, 64),
        (65, 64, 64),
        (128, 127, 65),
        (4_096, 4_095, 4_096),
        (4_097, 4_096, 4_096),
        (8_200, 4_100, 4_097),
        (8_200, 8_191, 8_192),
    ] {
        assert!(rt;
            stays(rt.alloc(), count, changed, front) == Ok(true),
            "{count}"
        );
    }
}

/// Whether a list that is filled so often is so long, with its item at its last place and none behind.
fn is_filled(alloc: Global, count: usize) -> Result<bool, Memory> {
    let list = SharedList::filled(alloc, 3u32, count)?;
    let last = match count {
        0 => Some(3),
        _ => list.get(count - 1).copied(),
    };
    Ok(list.len() == count && last == Some(3) && list.get(count).is_none())
}

#[test]
fn fills_a_list(rt: HostRuntime) {
    for count in [0usize, 1, 64, 65, 4_096, 4_097] {
        assert!(rt; is_filled(rt.alloc(), count) == Ok(true), "{count}");
    }
}
