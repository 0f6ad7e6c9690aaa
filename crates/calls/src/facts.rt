//! Facts in order and by their paths (`shared_facts`).

use base_types::{Memory, Text, TryCopy};
use history_text::{HistoryRefused, read_history};
use meaning::Place;
use recorded::Recorded;
use shared_facts::SharedFacts;
use std::alloc::Global;
use tree_types::{Entries, Entry, Fact, Facts, Path, Sel, Sels};

/// Several facts of one kind and path, each told from the others, and a fact of each kind that says no more than its path.
const LINES: &str =
    r#"["write","w",2,[["carried","main/g0/s0",["Failed",null,[],false,1,3]],["settled","main/g0/s0",["Failed",null,[],false,1,4]],["settled","main/g0/s0",["Failed",null,[],false,1,5]],["carried","main/g0/s1",["Failed",null,[],false,1,6]]]]
["write","w",3,[["memo","main/g0/s0","miss"],["memo","main/g0/s0","hit",[null,[]]],["armed","main/g0/s0",7],["armed","main/g0/s0",8]]]
["write","w",4,[["started"],["granted",""],["due","main/g0/s0"],["resumed","main/g0/s1"],["begun","main/g0"]]]
"#;

fn add_all(shared: &mut SharedFacts, facts: &Facts) -> Result<(), Memory> {
    for fact in facts.iter() {
        shared.add(fact.copy()?)?;
    }
    Ok(())
}

fn add_written(shared: &mut SharedFacts, entries: &Entries) -> Result<(), Memory> {
    for entry in entries.iter() {
        if let Entry::Write { facts, .. } = entry {
            add_all(shared, facts)?;
        }
    }
    Ok(())
}

fn facts_of(alloc: Global, lines: &str) -> Result<SharedFacts, HistoryRefused> {
    let entries = read_history(alloc, lines.as_bytes())?;
    let mut shared = SharedFacts::new(alloc)?;
    add_written(&mut shared, &entries)?;
    Ok(shared)
}

/// The last tick of the pod of a path, if it ended, and whether it ended so in an older workflow.
fn end_of(alloc: Global, facts: &SharedFacts, sels: &Sels) -> Result<Option<(u64, bool)>, Memory> {
    let place = Place {
        sels: sels.copy()?,
        name: Text::new(alloc)?,
        depth: 1,
    };
    Ok(match facts.outcome(&place) {
        Some(end) => Some((end.finish, end.carried)),
        None => None,
    })
}

/// Whether a cache answered a path, and with outputs.
fn memo_of(facts: &SharedFacts, sels: &Sels) -> Option<bool> {
    match facts.memo(sels) {
        Some(answer) => Some(answer.is_some()),
        None => None,
    }
}

/// Whether a path is granted, due, resumed and begun.
fn marks_of(facts: &SharedFacts, sels: &Sels) -> [bool; 4] {
    [
        facts.granted(sels),
        facts.due(sels),
        facts.resumed(sels),
        facts.begun(sels),
    ]
}

fn path_of(alloc: Global, sels: &[Sel]) -> Result<Sels, Memory> {
    Ok(Sels::from_slice(alloc, sels)?)
}

type Answers = (Option<(u64, bool)>, Option<bool>, Option<u64>, [bool; 4]);

/// Whether these are the answers of a path.
fn answers(alloc: Global, sels: &[Sel], expected: Answers) -> Result<bool, HistoryRefused> {
    let facts = facts_of(alloc, LINES)?;
    let sels = path_of(alloc, sels)?;
    let (end, memo, armed, marks) = expected;
    Ok(
        end_of(alloc, &facts, &sels)? == end
            && memo_of(&facts, &sels) == memo
            && facts.armed(&sels) == armed
            && marks_of(&facts, &sels) == marks
            && facts.len() == 13
            && facts.started(),
    )
}

const POD: [Sel; 3] = [Sel::Main, Sel::Group(0), Sel::Step(0)];

const NEXT: [Sel; 3] = [Sel::Main, Sel::Group(0), Sel::Step(1)];

/// The first fact of a kind answers, and one that is settled before one that is carried over.
#[test]
fn answers_by_the_first_fact_of_a_kind(rt: HostRuntime) {
    let no = [false; 4];
    let pod: &[Sel] = &POD;
    let next: &[Sel] = &NEXT;
    for (sels, end, memo, armed, marks) in [
        (
            pod,
            Some((4, false)),
            Some(false),
            Some(7),
            [false, true, false, false],
        ),
        (
            next,
            Some((6, true)),
            None,
            None,
            [false, false, true, false],
        ),
        (&pod[..2], None, None, None, [false, false, false, true]),
        (&[], None, None, None, [true, false, false, false]),
        (&pod[..1], None, None, None, no),
    ] {
        assert!(rt; answers(rt.alloc(), sels, (end, memo, armed, marks)) == Ok(true));
    }
}

/// That the timer of an item is due.
fn due(alloc: Global, item: u32) -> Result<Fact, Memory> {
    let sels = Sels::from_slice(alloc, &[Sel::Main, Sel::Item(item)])?;
    Ok(Fact::Due(Path { sels }))
}

/// Adds that the timers of the items from one number up to another are due.
fn add_due(facts: &mut SharedFacts, alloc: Global, from: u32, to: u32) -> Result<(), Memory> {
    for item in from..to {
        facts.add(due(alloc, item)?)?;
    }
    Ok(())
}

/// Whether an item is known to be due to a copy of 2,500 facts, and to what grew to 5,000 from it.
fn known(alloc: Global, item: u32) -> Result<(bool, bool), Memory> {
    let mut facts = SharedFacts::new(alloc)?;
    add_due(&mut facts, alloc, 0, 2_500)?;
    let kept = facts.share()?;
    add_due(&mut facts, alloc, 2_500, 5_000)?;
    let fact = due(alloc, item)?;
    Ok((kept.knows(&fact), facts.knows(&fact)))
}

#[test]
fn keeps_facts_while_a_copy_grows(rt: HostRuntime) {
    for (item, early, late) in [
        (0, true, true),
        (2_499, true, true),
        (2_500, false, true),
        (4_096, false, true),
        (4_999, false, true),
        (5_000, false, false),
        (u32::MAX, false, false),
    ] {
        assert!(rt; known(rt.alloc(), item) == Ok((early, late)), "{item}");
    }
}
