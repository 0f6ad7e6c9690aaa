//! The parts of which lines are made.

ghost use Rattle.std.specs.Prelude.{◌≡◌, ◌∷◌, ◌++◌, [], decimal, IfOk, OnOk};
ghost use Rattle.serde_json.specs.View.{view};
ghost use Rattle.history_text.specs.Lines as lines;

use crate::list::Items;
use base_types::{Memory, Text};
use serde_json::Value;
use std::alloc::Global;
use tree_types::{Outcome, Outputs, Param, Params, Path, Rank, Sel};

fn push_sel(text: &mut Text, sel: Sel) -> Result<(), Memory>
    ensures { OnOk result (text.new ≡ text.old ++ lines.sel_text sel) }
{
    match sel {
        Sel::Main => text.push("main"),
        Sel::Exit => text.push("exit"),
        Sel::Group(i) => push_numbered(text, "g", i),
        Sel::Step(i) => push_numbered(text, "s", i),
        Sel::Task(i) => push_numbered(text, "t", i),
        Sel::Item(i) => push_numbered(text, "i", i),
        Sel::Attempt(k) => push_numbered(text, "a", k),
    }
}

fn push_numbered(text: &mut Text, letter: &str, number: u32) -> Result<(), Memory>
    ensures { OnOk result (text.new ≡ text.old ++ (letter.now ++ decimal number)) }
{
    let digits = format!(in text.allocator(); "{letter}{number}")?;
    text.push(digits.as_str())
}

fn path_text(alloc: Global, path: &Path) -> Result<Text, Memory>
    ensures { IfOk result (λ text. text ≡ lines.path_text path.now.sels) }
{
    let mut text = Text::new(alloc)?;
    if let [first, further @ ..] = path.sels.as_slice() {
        push_sel(&mut text, *first)?;
        for sel in further {
            text.push("/")?;
            push_sel(&mut text, *sel)?;
        }
    }
    Ok(text)
}

fn param_value(alloc: Global, param: &Param) -> Result<Value, Memory>
    ensures { IfOk result (λ value. view value ≡ lines.param_data param.now) }
{
    let items = Items::new(alloc).text(&param.name)?.text(&param.value)?;
    Ok(items.into_value())
}

fn params_value(alloc: Global, params: &Params) -> Result<Value, Memory>
    ensures { IfOk result (λ value. view value ≡ lines.params_data params.now) }
{
    let mut items = Items::new(alloc);
    let params = params.as_slice();
    for param in params {
        items = items.value(param_value(alloc, param)?)?;
    }
    Ok(items.into_value())
}

impl Items {
    ghost use Rattle.history_text.specs.Inside.Parts.{parts_of};

    pub(crate) fn path(self, path: &Path) -> Result<Items, Memory>
        ensures { IfOk result (λ items. parts_of items ≡ parts_of self ++ lines.place path.now.sels ∷ []) }
    {
        let text = path_text(self.allocator(), path)?;
        self.text(&text)
    }

    fn params(self, params: &Params) -> Result<Items, Memory>
        ensures { IfOk result (λ items. parts_of items ≡ parts_of self ++ lines.params_data params.now ∷ []) }
    {
        let value = params_value(self.allocator(), params)?;
        self.value(value)
    }

    pub(crate) fn outcome(self, outcome: &Outcome) -> Result<Items, Memory>
        ensures { IfOk result (λ items. parts_of items ≡ parts_of self ++ lines.outcome_data outcome.now ∷ []) }
    {
        let parts = Items::of(self.allocator(), outcome.phase.word())?
            .text_or_null(&outcome.result)?
            .params(&outcome.params)?
            .flag(outcome.transient)?
            .whole(outcome.begin)?
            .whole(outcome.finish)?;
        self.value(parts.into_value())
    }

    pub(crate) fn outputs(self, outputs: &Outputs) -> Result<Items, Memory>
        ensures { IfOk result (λ items. parts_of items ≡ parts_of self ++ lines.outputs_data outputs.now ∷ []) }
    {
        let parts = Items::new(self.allocator())
            .text_or_null(&outputs.result)?
            .params(&outputs.params)?;
        self.value(parts.into_value())
    }

    // The rank behind a key: what the key does not say.
    pub(crate) fn rank(self, rank: &Rank) -> Result<Items, Memory>
        ensures { IfOk result (λ items. parts_of items ≡ parts_of self ++ lines.rank_data rank.now ∷ []) }
    {
        let parts = Items::new(self.allocator())
            .integer(i64::from(rank.priority))?
            .integer(rank.created)?
            .text(&rank.name)?;
        self.value(parts.into_value())
    }
}
