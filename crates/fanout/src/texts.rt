//! What an item says in texts and in names of nodes.

ghost use Rattle.std.specs.Prelude.{◌≡◌, ◌++◌, codes, IfOk, OnOk, IsTrue, filter, not, ◌==◌};
ghost use Rattle.std.specs.List.{join_with_byte};
ghost use Rattle.serde_json.specs.View.{view, members_view};
ghost use Rattle.fanout.specs.ItemTexts.{item_text as text_of_item, name_text as text_in_name, pair_texts, without_parentheses};
ghost use Rattle.fanout.specs.Inside.Shapes.{and_pair};
ghost use Rattle.fanout.specs.Items.{is_whole, members_are_whole};

use base_types::{Memory, Text};
use serde_json::{Map, Value};
use std::alloc::Global;
use wf_manifest::Json;

/// What `{{item}}` says: a text itself, all else as compact JSON. Each item of a loop has whole numbers alone.
pub fn item_text(alloc: Global, item: &Json) -> Result<Text, Memory>
    requires { IsTrue (is_whole item.now) }
    ensures { IfOk result (λ text. text ≡ text_of_item item.now) }
{
    value_text(alloc, item.value())
}

/// What an item says in the name of its node: a map's members as `k:v`, in the order of keys and with commas between,
/// all else as `{{item}}` says it, and no parentheses. Each item of a loop has whole numbers alone.
pub fn name_text(alloc: Global, item: &Json) -> Result<Text, Memory>
    requires { IsTrue (is_whole item.now) }
    ensures { IfOk result (λ text. text ≡ text_in_name item.now) }
{
    let value = item.value();
    let mut name = Text::new(alloc)?;
    let said = match value.as_object() {
        Some(members) => pairs_text(alloc, members)?,
        None => value_text(alloc, value)?,
    };
    push_without_parentheses(&mut name, said.as_str())?;
    Ok(name)
}

pub(crate) fn value_text(alloc: Global, value: &Value) -> Result<Text, Memory>
    requires { IsTrue (is_whole (view value.now)) }
    ensures { IfOk result (λ text. text ≡ text_of_item (view value.now)) }
{
    match value.as_str() {
        Some(text) => Text::from_text(alloc, text),
        None => Ok(Text::from_string(value.to_string(alloc)?)?),
    }
}

fn pairs_text(alloc: Global, members: &Map<String, Value>) -> Result<Text, Memory>
    requires { IsTrue (members_are_whole (members_view members.now.entries)) }
    ensures { IfOk result (λ text.
        text ≡ join_with_byte 44 (pair_texts (members_view members.now.entries))) }
{
    let mut pairs = Text::new(alloc)?;
    for (key, value) in members.iter() {
        let said = value_text(alloc, value)?;
        push_pair(&mut pairs, key.as_str(), said.as_str())?;
    }
    Ok(pairs)
}

// A comma stands before each pair but the first. No pair is empty.
fn push_pair(pairs: &mut Text, key: &str, said: &str) -> Result<(), Memory>
    ensures { OnOk result (pairs.new ≡ and_pair pairs.old (key.now ++ codes ":" ++ said.now)) }
{
    if pairs.is_empty() {
        return push_bare_pair(pairs, key, said);
    }
    pairs.push(",")?;
    push_bare_pair(pairs, key, said)
}

fn push_bare_pair(pairs: &mut Text, key: &str, said: &str) -> Result<(), Memory>
    ensures { OnOk result (pairs.new ≡ pairs.old ++ (key.now ++ codes ":" ++ said.now)) }
{
    pairs.push(key)?;
    pairs.push(":")?;
    pairs.push(said)
}

fn push_without_parentheses(text: &mut Text, more: &str) -> Result<(), Memory>
    ensures { OnOk result (text.new ≡ text.old ++ without_parentheses more.now) }
{
    let mut rest = more;
    while let Some((front, behind)) = rest.split_once('(') {
        push_without_closing(text, front)?;
        rest = behind;
    }
    push_without_closing(text, rest)
}

fn push_without_closing(text: &mut Text, more: &str) -> Result<(), Memory>
    ensures { OnOk result (text.new ≡ text.old ++ filter (λ b. not (b == 41)) more.now) }
{
    let mut rest = more;
    while let Some((front, behind)) = rest.split_once(')') {
        text.push(front)?;
        rest = behind;
    }
    text.push(rest)
}
