//! The lock book (`sync_locks`), played from the lines of histories.

use base_types::{Memory, Text, TryCopy};
use books::LockState;
use history_text::{HistoryRefused, read_history};
use std::alloc::Global;
use sync_locks::{LockBook, ReleaseRefused};
use tree_types::{Entries, Entry, HolderKey, Limit, Limits, LockId};

const LOCK: &str = "semaphore/cm/k";

/// Waiters are ranked by priority, age and name.
const RANKED: &str = r#"["file","semaphore/cm/k","a","",[0,50,"a"]]
["file","semaphore/cm/k","b","",[5,30,"b"]]
["file","semaphore/cm/k","d","",[5,20,"d"]]
["file","semaphore/cm/k","c","",[5,20,"c"]]
["file","semaphore/cm/k","e","",[1,10,"e"]]
["release","semaphore/cm/k","a",""]
["release","semaphore/cm/k","b",""]
["release","semaphore/cm/k","c",""]
["release","semaphore/cm/k","e",""]
["release","semaphore/cm/k","d",""]
"#;

const RANKED_STAND: &str = "----- h---- hh--- hhw-- hhww- hhwww rhwhw rrhhw rrhrh rrhrr rrrrr";

/// Who has a request files no other, however it stands, and only who holds releases. Another path is another key.
const REFUSED: &str = r#"["file","semaphore/cm/k","a","",[0,1,"a"]]
["file","semaphore/cm/k","b","",[0,2,"b"]]
["file","mutex/m","a","",[0,1,"a"]]
["file","mutex/m","b","",[0,1,"b"]]
["release","semaphore/cm/k","x",""]
["release","semaphore/cm/k","b",""]
["release","semaphore/cm/k","a",""]
["file","mutex/m","a","",[0,1,"a"]]
["file","mutex/m","b","",[0,1,"b"]]
["release","semaphore/cm/k","a",""]
["file","semaphore/cm/k","a","main",[0,3,"a"]]
"#;

const REFUSED_STAND: &str =
    "------- h-h-h-- hwhwhw-! hwhwhw-! hwhwhw-! hwhwhw-! hwhwhw- rhrhrh-! rhrhrh-! rhrhrh-! rhrhrh- rhrhrhw";

const THREE: &str = r#"["file","semaphore/cm/k","a","",[0,1,"a"]]
["file","semaphore/cm/k","b","",[0,1,"b"]]
["file","semaphore/cm/k","c","",[0,1,"c"]]
"#;

const THREE_OF_A_MUTEX: &str = r#"["file","mutex/m","a","",[0,1,"a"]]
["file","mutex/m","b","",[0,1,"b"]]
["file","mutex/m","c","",[0,1,"c"]]
"#;

/// A release of one lock grants no other.
const APART: &str = r#"["file","semaphore/cm/other","a","",[0,1,"a"]]
["file","mutex/m","b","",[0,1,"b"]]
["file","mutex/n","c","",[0,1,"c"]]
["release","mutex/m","b",""]
"#;

/// The empty book, with a number for one lock.
fn book_of(alloc: Global, lock: &str, limit: u64) -> Result<LockBook, Memory> {
    let mut limits = Limits::new(alloc);
    let text = Text::from_text(alloc, lock)?;
    let lock = LockId { text };
    limits.push(Limit { lock, limit })?;
    LockBook::new(limits)
}

/// Does what an entry says, and answers whether it was taken.
fn take(book: &mut LockBook, entry: &Entry) -> Result<bool, Memory> {
    match entry {
        Entry::File { lock, key, rank } => Ok(
            book.file(lock.copy()?, key.copy()?, rank.copy()?).is_ok(),
        ),
        Entry::Release { key, .. } => match book.release(key) {
            Ok(()) => Ok(true),
            Err(ReleaseRefused::NotHolding) => Ok(false),
            Err(ReleaseRefused::Memory) => Err(Memory),
        },
        _ => Ok(false),
    }
}

/// How the request of a key stands. That one holds its lock is asked of the holders, too.
fn letter(book: &LockBook, key: &HolderKey) -> &'static str {
    let holds = book.holds(&key.workflow, &key.path);
    match book.state(key) {
        Some(LockState::Waiting) if !holds => "w",
        Some(LockState::Holding) if holds => "h",
        Some(LockState::Released) if !holds => "r",
        None if !holds => "-",
        _ => "?",
    }
}

/// Adds how the requests that are filed sooner or later stand, a letter each.
fn add_standing(shown: &mut String, book: &LockBook, entries: &Entries) -> Result<(), Memory> {
    for entry in entries.iter() {
        if let Entry::File { key, .. } = entry {
            shown.push_str(letter(book, key))?;
        }
    }
    Ok(())
}

/// Adds how the requests stood before an entry, by a copy that is asked behind it, and a sign where it is not taken.
fn play(
    shown: &mut String,
    book: &mut LockBook,
    entry: &Entry,
    entries: &Entries,
) -> Result<(), Memory> {
    let before = book.copy()?;
    let is_taken = take(book, entry)?;
    add_standing(shown, &before, entries)?;
    shown.push_str(if is_taken { " " } else { "! " })?;
    Ok(())
}

fn played(alloc: Global, lock: &str, limit: u64, lines: &str) -> Result<String, HistoryRefused> {
    let entries = read_history(alloc, lines.as_bytes())?;
    let mut book = book_of(alloc, lock, limit)?;
    let mut shown = String::new(alloc);
    for entry in entries.iter() {
        play(&mut shown, &mut book, entry, &entries)?;
    }
    add_standing(&mut shown, &book, &entries)?;
    Ok(shown)
}

/// Whether requests stand so before each of some lines, and in the end.
fn stand(
    alloc: Global,
    lock: &str,
    limit: u64,
    lines: &str,
    standing: &str,
) -> Result<bool, HistoryRefused> {
    let shown = played(alloc, lock, limit, lines)?;
    Ok(shown.as_str() == standing)
}

/// A mutex has the limit 1, whatever number is given for it; a lock without a number has none.
#[test]
fn keeps_books(rt: HostRuntime) {
    for (lock, limit, lines, standing) in [
        (LOCK, 2u64, RANKED, RANKED_STAND),
        (LOCK, 1, REFUSED, REFUSED_STAND),
        (LOCK, 1, THREE, "--- h-- hw- hww"),
        (LOCK, 9, THREE, "--- h-- hh- hhh"),
        (LOCK, 0, THREE, "--- w-- ww- www"),
        ("mutex/m", 9, THREE_OF_A_MUTEX, "--- h-- hw- hww"),
        ("mutex/m", 0, THREE_OF_A_MUTEX, "--- h-- hw- hww"),
        (LOCK, 9, APART, "--- w-- wh- whh wrh"),
    ] {
        assert!(rt;
            stand(rt.alloc(), lock, limit, lines, standing) == Ok(true),
            "{lines}"
        );
    }
}

/// The filings of so many workflows, one each.
fn crowd(alloc: Global, count: u32) -> Result<String, Memory> {
    let mut lines = String::new(alloc);
    for i in 0..count {
        let line = format!(in alloc;
            "[\"file\",\"semaphore/cm/k\",\"w{i}\",\"\",[0,{i},\"w{i}\"]]\n"
        )?;
        lines.push_str(line.as_str())?;
    }
    Ok(lines)
}

fn sign(may_hold: bool) -> &'static str {
    if may_hold { "+" } else { "." }
}

/// How each of some requests stands, with a sign for what is told of its workflow; and the sign of a workflow without one.
fn shown(alloc: Global, book: &LockBook, entries: &Entries) -> Result<String, Memory> {
    let mut shown = String::new(alloc);
    for entry in entries.iter() {
        if let Entry::File { key, .. } = entry {
            shown.push_str(letter(book, key))?;
            shown.push_str(sign(book.may_hold(&key.workflow)))?;
        }
    }
    let stranger = Text::from_text(alloc, "x")?;
    shown.push_str(sign(book.may_hold(&stranger)))?;
    Ok(shown)
}

/// The same of so many requests under a limit.
fn holders(alloc: Global, count: u32, limit: u64) -> Result<String, HistoryRefused> {
    let lines = crowd(alloc, count)?;
    let entries = read_history(alloc, lines.as_bytes())?;
    let mut book = book_of(alloc, LOCK, limit)?;
    for entry in entries.iter() {
        take(&mut book, entry)?;
    }
    Ok(shown(alloc, &book, &entries)?)
}

/// A workflow may hold a lock where a request of it does, or where more than 32 hold.
#[test]
fn tells_holders(rt: HostRuntime) {
    for (count, limit, told) in [
        (0u32, 9u64, "."),
        (3, 2, "h+h+w.."),
        (
            34,
            32,
            "h+h+h+h+h+h+h+h+h+h+h+h+h+h+h+h+h+h+h+h+h+h+h+h+h+h+h+h+h+h+h+h+w.w..",
        ),
        (
            34,
            33,
            "h+h+h+h+h+h+h+h+h+h+h+h+h+h+h+h+h+h+h+h+h+h+h+h+h+h+h+h+h+h+h+h+h+w++",
        ),
    ] {
        assert!(rt;
            matches!(holders(rt.alloc(), count, limit), Ok(shown) if shown.as_str() == told),
            "{told}"
        );
    }
}

/// The filings of two waiters behind that of a holder, which releases the lock then.
fn waiting(alloc: Global, first: &str, second: &str) -> Result<String, Memory> {
    let lock = "\"semaphore/cm/k\"";
    Ok(format!(in alloc;
        "[\"file\",{lock},\"h\",\"\",[0,0,\"h\"]]\n[\"file\",{lock},{first}]\n[\"file\",{lock},{second}]\n[\"release\",{lock},\"h\",\"\"]\n"
    )?)
}

/// Whether of two waiters the one that was filed first holds once the lock is free, or else the second.
fn holds(alloc: Global, first: &str, second: &str, is_first: bool) -> Result<bool, HistoryRefused> {
    let lines = waiting(alloc, first, second)?;
    let standing = if is_first {
        "--- h-- hw- hww rhw"
    } else {
        "--- h-- hw- hww rwh"
    };
    stand(alloc, LOCK, 1, lines.as_str(), standing)
}

/// Of two waiters the one that goes first, by what tells them apart; of equal ranks the one that was filed first.
#[test]
fn ranks_waiters(rt: HostRuntime) {
    let (one, other) = (
        r#""w","main/g0/s0",[0,1,"n"]"#,
        r#""w","main/g0/s1",[0,1,"n"]"#,
    );
    for (first, second, is_equal) in [
        (r#""z","main",[1,9,"z"]"#, r#""a","",[0,1,"a"]"#, false),
        (r#""z","main",[-1,9,"z"]"#, r#""a","",[-2,1,"a"]"#, false),
        (r#""z","main",[0,1,"z"]"#, r#""a","",[0,2,"a"]"#, false),
        (r#""z","main",[0,-2,"z"]"#, r#""a","",[0,-1,"a"]"#, false),
        (r#""a-1","main",[0,1,"z"]"#, r#""a.","",[0,1,"a"]"#, false),
        (r#""w","",[0,1,"z"]"#, r#""w","main",[0,1,"a"]"#, false),
        (
            r#""w","main/g0/s1",[0,1,"a"]"#,
            r#""w","main/g0/s0",[0,1,"aa"]"#,
            false,
        ),
        (one, other, true),
        (other, one, true),
    ] {
        assert!(rt;
            holds(rt.alloc(), first, second, true) == Ok(true),
            "{first}"
        );
        assert!(rt;
            holds(rt.alloc(), second, first, is_equal) == Ok(true),
            "{first}"
        );
    }
}
