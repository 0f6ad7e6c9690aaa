//! Calls and declared outputs that ask for a tag.

ghost use Rattle.std.specs.Prelude.{◌≡◌, IfOk};
ghost use Rattle.mentions.specs.Mentions as meant;

use crate::texts::{arguments_ask, option_asks, text_asks};
use crate::values::value_asks;
use base_types::Memory;
use std::alloc::Global;
use wf_manifest::{Call, Group, Hook, Loop, OutputDecls};

/// Whether a text of a call asks for a tag that begins with the prefix.
pub fn call_asks_for(alloc: Global, prefix: &str, call: &Call) -> Result<bool, Memory>
    ensures { IfOk result (λ asks. asks ≡ meant.call_asks prefix.now call.now) }
{
    if option_asks(prefix, &call.when)
        || arguments_ask(prefix, &call.arguments)
        || hook_asks(prefix, &call.exit)
    {
        return Ok(true);
    }
    each_asks(alloc, prefix, &call.each)
}

fn hook_asks(prefix: &str, hook: &Option<Hook>) -> bool
    ensures { result ≡ meant.hook_asks prefix.now hook.now }
{
    match hook {
        None => false,
        Some(hook) => arguments_ask(prefix, &hook.arguments),
    }
}

fn each_asks(alloc: Global, prefix: &str, each: &Option<Loop>) -> Result<bool, Memory>
    ensures { IfOk result (λ asks. asks ≡ meant.each_asks prefix.now each.now) }
{
    match each {
        None => Ok(false),
        Some(each) => loop_asks(alloc, prefix, each),
    }
}

fn loop_asks(alloc: Global, prefix: &str, each: &Loop) -> Result<bool, Memory>
    ensures { IfOk result (λ asks. asks ≡ meant.loop_asks prefix.now each.now) }
{
    match each {
        Loop::Items(list) => value_asks(alloc, prefix, list.value()),
        Loop::Param(text) => Ok(text_asks(prefix, text)),
        Loop::Sequence {
            count,
            start,
            end,
            format,
        } => Ok(
            option_asks(prefix, count)
                || option_asks(prefix, start)
                || option_asks(prefix, end)
                || option_asks(prefix, format),
        ),
    }
}

/// Whether a call of a group does.
pub fn group_asks_for(alloc: Global, prefix: &str, calls: &Group) -> Result<bool, Memory>
    ensures { IfOk result (λ asks. asks ≡ meant.group_asks prefix.now calls.now) }
{
    for i in 0..calls.len() {
        if call_asks_for(alloc, prefix, calls.get(i))? {
            return Ok(true);
        }
    }
    Ok(false)
}

/// Whether a declared output is taken from a text that does.
pub fn outputs_ask_for(prefix: &str, declared: &OutputDecls) -> bool
    ensures { result ≡ meant.outputs_ask prefix.now declared.now }
{
    for i in 0..declared.len() {
        if option_asks(prefix, &declared.get(i).from) {
            return true;
        }
    }
    false
}
