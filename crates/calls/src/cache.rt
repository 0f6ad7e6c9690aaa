//! The cache (`memo_cache`), played from the lines of histories.

use base_types::{Memory, Shared, Text, TryCopy};
use history_text::{HistoryRefused, read_history};
use memo_cache::Cache;
use std::alloc::Global;
use tree_types::{Entry, Outputs};

const SAVES: &str = r#"["save","mc","k","a","main",["one",[]],3]
["save","mc","k","b","main",["two",[]],7]
["save","mc","l","c","main",["three",[]],8]
["save","nc","k","d","main",["four",[]],9]
"#;

const FIRST: &str = r#"["save","mc","k","a","main",["one",[]],3]
"#;

/// A writer's second saves, in its cache and in another one, and the first of another writer.
const AGAIN: &str = r#"["save","mc","k","a","main",["two",[]],4]
["save","nc","l","a","main",["two",[]],4]
["save","mc","k","b","main",["three",[]],5]
"#;

const OTHER: &str = r#"["save","mc","k","b","main",["four",[]],5]
"#;

/// Saves what an entry says, and answers whether it was taken.
fn take(saves: &mut Cache, entry: &Entry) -> Result<bool, Memory> {
    match entry {
        Entry::Save {
            cache,
            key,
            writer,
            outputs,
            tick,
        } => {
            let saved = saves.save(
                cache.copy()?,
                key.copy()?,
                writer.copy()?,
                outputs.copy()?,
                *tick,
            );
            Ok(saved.is_ok())
        }
        _ => Ok(false),
    }
}

/// Saves what some lines say, and counts how many were taken.
fn play(alloc: Global, saves: &mut Cache, lines: &str) -> Result<u32, HistoryRefused> {
    let entries = read_history(alloc, lines.as_bytes())?;
    let mut count = 0u32;
    for entry in entries.iter() {
        if take(saves, entry)? {
            count = count.saturating_add(1);
        }
    }
    Ok(count)
}

/// The result of outputs, `none` without them.
fn result_of(outputs: Option<&Shared<Outputs>>) -> &str {
    match outputs {
        None => "none",
        Some(outputs) => match &outputs.value().result {
            None => "no result",
            Some(text) => text.as_str(),
        },
    }
}

/// Whether this result is found at a key in a cache.
fn finds(
    alloc: Global,
    saves: &Cache,
    place: (&str, &str),
    now: u64,
    max_age: Option<u64>,
    found: &str,
) -> Result<bool, Memory> {
    let cache = Text::from_text(alloc, place.0)?;
    let key = Text::from_text(alloc, place.1)?;
    Ok(result_of(saves.look(&cache, &key, now, max_age)) == found)
}

fn finds_behind(
    alloc: Global,
    lines: &str,
    place: (&str, &str),
    now: u64,
    max_age: Option<u64>,
    found: &str,
) -> Result<bool, HistoryRefused> {
    let mut saves = Cache::new(alloc);
    let _ = play(alloc, &mut saves, lines)?;
    Ok(finds(alloc, &saves, place, now, max_age, found)?)
}

/// The last save of a key in its cache is found, unless it is too old.
#[test]
fn finds_the_last_save(rt: HostRuntime) {
    for (lines, place, now, max_age, found) in [
        ("", ("mc", "k"), 9u64, None, "none"),
        (SAVES, ("mc", "k"), 17, Some(10u64), "two"),
        (SAVES, ("mc", "k"), 18, Some(10), "none"),
        (SAVES, ("mc", "k"), u64::MAX, None, "two"),
        (SAVES, ("mc", "k"), 7, Some(0), "two"),
        (SAVES, ("mc", "k"), 8, Some(0), "none"),
        (SAVES, ("mc", "k"), 0, Some(0), "two"),
        (SAVES, ("mc", "l"), 18, Some(10), "three"),
        (SAVES, ("nc", "k"), 18, Some(10), "four"),
        (SAVES, ("nc", "l"), 9, None, "none"),
        (SAVES, ("k", "mc"), 9, None, "none"),
    ] {
        assert!(rt;
            finds_behind(rt.alloc(), lines, place, now, max_age, found) == Ok(true),
            "{now}"
        );
    }
}

/// Whether of a writer's saves the first alone is taken, and two copies go their own ways.
fn saves_once(alloc: Global) -> Result<bool, HistoryRefused> {
    let mut saves = Cache::new(alloc);
    let first = play(alloc, &mut saves, FIRST)?;
    let mut copy = saves.copy()?;
    let again = play(alloc, &mut saves, AGAIN)?;
    let other = play(alloc, &mut copy, OTHER)?;
    Ok(
        (first, again, other) == (1, 1, 1)
            && finds(alloc, &saves, ("mc", "k"), 5, None, "three")?
            && finds(alloc, &copy, ("mc", "k"), 5, None, "four")?
            && finds(alloc, &saves, ("nc", "l"), 5, None, "none")?,
    )
}

#[test]
fn saves_once_for_a_writer(rt: HostRuntime) {
    assert!(rt; saves_once(rt.alloc()) == Ok(true));
}
