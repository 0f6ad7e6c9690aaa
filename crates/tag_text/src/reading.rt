//! Reading the parts of a text.

ghost use Rattle.std.specs.Prelude.{◌≡◌, ◌≢◌, ◌++◌, ◌∷◌, ◌<◌, [], length, MatchOption, OnOk, IfSome, IfNone, Some, None, Err};
ghost use Rattle.tag_text.specs.Parts.{cut, without_leading_spaces, without_trailing_spaces, trimmed, tag_named, as_it_stands, parsed};

use crate::{Part, TagRefused, TagText};
use base_types::{List, Memory, Text};
use std::alloc::Global;

// The text before the first place of a mark, and the text after it.
fn cut_at<'a>(text: &'a str, mark: &str) -> Option<(&'a str, &'a str)>
    requires { mark.now ≢ [] }
    ensures cut { MatchOption result
        (cut mark.now text.now ≡ None)
        (λ x. cut mark.now text.now ≡ Some (x.0.now, x.1.now)) }
    ensures shorter { IfSome result (λ x. length x.1.now < length text.now) }
{
    text.split_once(mark)
}

// The text behind its first byte, where that is a space.
fn after_space(text: &str) -> Option<&str>
    ensures trimmed { IfNone result (without_leading_spaces text.now ≡ text.now) }
    ensures rest { IfSome result (λ rest. without_leading_spaces text.now ≡ without_leading_spaces rest.now) }
    ensures shorter { IfSome result (λ rest. length rest.now < length text.now) }
{
    if let Some(rest) = text.strip_prefix(' ') {
        return Some(rest);
    }
    text.strip_prefix('\t')
}

// The text before its last byte, where that is a space.
fn before_space(text: &str) -> Option<&str>
    ensures trimmed { IfNone result (without_trailing_spaces text.now ≡ text.now) }
    ensures rest { IfSome result (λ rest. without_trailing_spaces text.now ≡ without_trailing_spaces rest.now) }
    ensures shorter { IfSome result (λ rest. length rest.now < length text.now) }
{
    if let Some(rest) = text.strip_suffix(' ') {
        return Some(rest);
    }
    text.strip_suffix('\t')
}

fn trim_start(text: &str) -> &str
    ensures { result.now ≡ without_leading_spaces text.now }
{
    let mut rest = text;
    while let Some(shorter) = after_space(rest) {
        rest = shorter;
    }
    rest
}

fn trim_end(text: &str) -> &str
    ensures { result.now ≡ without_trailing_spaces text.now }
{
    let mut rest = text;
    while let Some(shorter) = before_space(rest) {
        rest = shorter;
    }
    rest
}

// The tag that has this between its marks.
fn tag_of(alloc: Global, inside: &str) -> Result<Part, TagRefused>
    ensures { result ≢ Err TagRefused.Memory → result ≡ tag_named (trimmed inside.now) }
{
    let name = trim_end(trim_start(inside));
    if name.is_empty() {
        return Err(TagRefused::EmptyTag);
    }
    if name.as_bytes()[0] == b'=' {
        return Err(TagRefused::Expression);
    }
    Ok(Part::Tag(Text::from_text(alloc, name)?))
}

// Adds text as it stands, if there is any.
fn push_plain(parts: &mut List<Part>, alloc: Global, text: &str) -> Result<(), Memory>
    ensures { OnOk result (parts.new ≡ parts.old ++ as_it_stands text.now) }
{
    if text.is_empty() {
        return Ok(());
    }
    parts.push(Part::Plain(Text::from_text(alloc, text)?))
}

/// The parts of a text: `{{` begins a tag and the next `}}` ends it, and spaces and tabs at both ends inside
/// are dropped. A tag that is not closed, an empty one and an expression are refused, the leftmost first.
pub fn parse_tags(alloc: Global, text: &str) -> Result<TagText, TagRefused>
    ensures { result ≢ Err TagRefused.Memory → result ≡ parsed text.now }
{
    let mut parts = List::new(alloc);
    let mut rest = text;
    while let Some((before, more)) = cut_at(rest, "{{") {
        let Some((inside, after)) = cut_at(more, "}}") else {
            return Err(TagRefused::Unclosed);
        };
        let tag = tag_of(alloc, inside)?;
        push_plain(&mut parts, alloc, before)?;
        parts.push(tag)?;
        rest = after;
    }
    push_plain(&mut parts, alloc, rest)?;
    Ok(TagText::from_parts(parts))
}
