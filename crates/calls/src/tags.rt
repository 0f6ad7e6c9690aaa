//! Texts with tags (`tag_text`).

use base_types::Memory;
use std::alloc::Global;
use tag_text::{Piece, TagRefused, TagText, parse_tags};

/// The pieces as they are spelled, each between bars.
fn shown(alloc: Global, text: &TagText) -> Result<String, Memory> {
    let mut shown = String::from_str(alloc, "|")?;
    for i in 0..text.len() {
        match text.piece(i) {
            Piece::Plain(plain) => shown.push_str(plain)?,
            Piece::Tag(name) => {
                shown.push_str("TAG ")?;
                shown.push_str(name)?;
            }
        }
        shown.push_str("|")?;
    }
    Ok(shown)
}

fn reads(alloc: Global, text: &str, pieces: &str) -> Result<bool, TagRefused> {
    let read = parse_tags(alloc, text)?;
    Ok(shown(alloc, &read)?.as_str() == pieces)
}

#[test]
fn reads_pieces_or_tells_the_leftmost_fault(rt: HostRuntime) {
    for (text, pieces, reads_so) in [
        ("a{{ b }}", "|a|TAG b|", Ok(true)),
        ("", "|", Ok(true)),
        ("a { { b } }", "|a { { b } }|", Ok(true)),
        ("{{a}}{{b}}c", "|TAG a|TAG b|c|", Ok(true)),
        ("{{\tx }y\t}}}}", "|TAG x }y|}}|", Ok(true)),
        ("{{{a}}}", "|TAG {a|}|", Ok(true)),
        ("{{a=b}}", "|TAG a=b|", Ok(true)),
        ("{{", "", Err(TagRefused::Unclosed)),
        ("{{a}", "", Err(TagRefused::Unclosed)),
        ("{{=1}}", "", Err(TagRefused::Expression)),
        ("{{ }}", "", Err(TagRefused::EmptyTag)),
        ("{{}}", "", Err(TagRefused::EmptyTag)),
        ("{{a}} {{ = }} {{}} {{", "", Err(TagRefused::Expression)),
    ] {
        assert!(rt; reads(rt.alloc(), text, pieces) == reads_so, "{text}");
    }
}
