//! The text of histories (`history_text`).

use base_types::{Bytes, Memory};
use history_text::{HistoryRefused, print_history, read_history};
use std::alloc::Global;
use tree_types::{Entries, Entry};

/// One pod under a mutex, from its submission to its end.
const WHOLE: &str = r#"["submit","w",null,[]]
["write","w",2,[["started"]]]
["file","mutex/m","w","main",[0,0,"w"]]
["write","w",3,[["granted","main"]]]
["create","w","w","main",0]
["finish","w","w",["Succeeded",null,[],false,0,0]]
["write","w",4,[["settled","main",["Succeeded",null,[],false,0,0]]]]
["release","mutex/m","w","main"]
"#;

/// A fact of each kind, with a selector of each kind.
const FACTS: &str = r#"["write","w",2,[["started"]]]
["write","w",2,[["settled","main",["Error","r",[["q",""],["p","v"]],true,3,4]]]]
["write","w",2,[["carried","main",["Succeeded",null,[],false,0,0]]]]
["write","w",2,[["granted",""]]]
["write","w",2,[["memo","main","hit",["r",[["q",""],["p","v"]]]]]]
["write","w",2,[["memo","main","hit",[null,[]]]]]
["write","w",2,[["memo","main","miss"]]]
["write","w",2,[["armed","main",18446744073709551615]]]
["write","w",2,[["due","main/g0/s10/t3/i999/a4294967295"]]]
["write","w",2,[["resumed","exit/a1"]]]
["write","w",2,[["begun","exit"]]]
"#;

/// An entry of each kind, with the least and the greatest numbers, and with texts that JSON escapes.
const ENTRIES: &str = r#"["submit","w",null,[]]
["submit","a\"\\/\n\t\u001fé😀","",[["started"],["granted","main"]]]
["create","w","w[0].a","main/g0/s0",7]
["finish","w","n",["Failed",null,[],false,0,0]]
["file","mutex/m","w","main",[-2147483648,-9223372036854775808,"n"]]
["file","mutex/m","w","",[2147483647,9223372036854775807,"w"]]
["release","mutex/m","w","main"]
["save","c","k","w","main",["r",[["q",""],["p","v"]]],5]
["tick",0]
"#;

fn printed(alloc: Global, lines: &str) -> Result<Bytes, HistoryRefused> {
    let entries = read_history(alloc, lines.as_bytes())?;
    Ok(print_history(alloc, &entries)?)
}

/// Lines that are read are printed as they were.
#[test]
fn prints_what_is_read(rt: HostRuntime) {
    for lines in [WHOLE, FACTS, ENTRIES, "", "[\"tick\",1]\n[\"tick\",1]\n"] {
        match printed(rt.alloc(), lines) {
            Ok(text) => assert!(rt; text.as_slice() == lines.as_bytes(), "{lines}"),
            Err(refused) => assert!(rt; false, "{refused}"),
        }
    }
}

/// The first line that is no entry's.
fn bad_line(alloc: Global, bytes: &[u8]) -> Option<u64> {
    match read_history(alloc, bytes) {
        Err(HistoryRefused::Bad { line }) => Some(line),
        _ => None,
    }
}

#[test]
fn tells_the_first_bad_line(rt: HostRuntime) {
    for (text, line) in [
        ("x", 1),
        ("\n", 1),
        ("[\"tick\",1]", 1),
        ("[\"tick\",1]\n\n", 2),
        ("[\"tick\",1]\n[\"tick\",2]\n[\"tick\",3]", 3),
        ("[\"tick\",1]\n[\"tick\",02]\n[\"tack\",3]\n", 2),
        ("[\"tick\",1]\r\n", 1),
        ("[\"tick\",1][\"tick\",1]\n", 1),
        (" [\"tick\",1]\n", 1),
        ("[\"tick\", 1]\n", 1),
        ("{\"tick\":1}\n", 1),
        ("\"tick\"\n", 1),
    ] {
        assert!(rt;
            bad_line(rt.alloc(), text.as_bytes()) == Some(line),
            "{text}"
        );
    }
    let no_text = b"[\"tick\",1]\n[\"submit\",\"\xff\",null,[]]\n";
    assert!(rt; bad_line(rt.alloc(), no_text) == Some(2));
}

/// Whether a line of these three texts is no entry's.
fn is_bad(alloc: Global, front: &str, middle: &str, back: &str) -> Result<bool, Memory> {
    let line = format!(in alloc; "{front}{middle}{back}\n")?;
    Ok(bad_line(alloc, line.as_bytes()) == Some(1))
}

#[test]
fn refuses_parts(rt: HostRuntime) {
    for part in [
        r#"[]"#,
        r#"["tock",1]"#,
        r#"["TICK",1]"#,
        r#"["tick"]"#,
        r#"["tick",1,2]"#,
        r#"["tick",-1]"#,
        r#"["tick",1.0]"#,
        r#"["tick","1"]"#,
        r#"["tick",18446744073709551616]"#,
        r#"["submit","w",[]]"#,
        r#"["submit","w",null,null]"#,
        r#"["submit","w",0,[]]"#,
        r#"["submit","\u0041",null,[]]"#,
        r#"["submit","\u001F",null,[]]"#,
        r#"["submit","w",null,[["started","main"]]]"#,
        r#"["write","w",2,[["stopped","main"]]]"#,
        r#"["write","w",2,[["memo","main","hit"]]]"#,
        r#"["write","w",2,[["memo","main","kept"]]]"#,
        r#"["write","w",2,[["memo","main","miss",[null,[]]]]]"#,
        r#"["finish","w","w",["Running",null,[],false,0,0]]"#,
        r#"["finish","w","w",["Succeeded",null,[["p"]],false,0,0]]"#,
        r#"["finish","w","w",["Succeeded",null,[],0,0,0]]"#,
        r#"["file","mutex/m","w","main",[2147483648,0,"w"]]"#,
        r#"["file","mutex/m","w","main",[0,9223372036854775808,"w"]]"#,
        r#"["file","mutex/m","w","main",[0,0]]"#,
        r#"["save","c","k","w","main",[null],5]"#,
    ] {
        assert!(rt; is_bad(rt.alloc(), part, "", "") == Ok(true), "{part}");
    }
}

/// Texts that are no path's.
#[test]
fn refuses_places(rt: HostRuntime) {
    for place in [
        "/",
        "main/",
        "/main",
        "main//g0",
        "Main",
        "mains",
        "g",
        "g01",
        "g+1",
        "g-1",
        "g4294967296",
        "main/g1x",
        "x1",
        "1",
    ] {
        let (front, back) = ("[\"create\",\"w\",\"w\",\"", "\",0]");
        assert!(rt;
            is_bad(rt.alloc(), front, place, back) == Ok(true),
            "{place}"
        );
    }
}

/// Whether the first of some entries files the own request of the workflow `w`.
fn is_own_filing(entries: &Entries) -> bool {
    match entries.as_slice().first() {
        Some(Entry::File { rank, .. }) => {
            let rank = rank.value();
            rank.own && rank.workflow.as_str() == "w"
        }
        _ => false,
    }
}

fn reads_own(alloc: Global, line: &str) -> Result<bool, HistoryRefused> {
    let entries = read_history(alloc, line.as_bytes())?;
    Ok(is_own_filing(&entries))
}

#[test]
fn ranks_by_keys(rt: HostRuntime) {
    for (line, is_own) in [
        ("[\"file\",\"mutex/m\",\"w\",\"\",[1,2,\"w\"]]\n", true),
        ("[\"file\",\"mutex/m\",\"w\",\"main\",[1,2,\"n\"]]\n", false),
    ] {
        assert!(rt; reads_own(rt.alloc(), line) == Ok(is_own), "{line}");
    }
}
