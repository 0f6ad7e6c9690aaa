//! From the text of a tag to what it names.

ghost use Rattle.std.specs.Prelude.{◌≡◌, MatchOption, Some, None};
ghost use Rattle.tag_names.specs.Tags as tags;
ghost use Rattle.tag_names.specs.Views.{field_of, tag_of};

use crate::{StepField, TagName};

/// What a tag names (Argo, "Workflow variables"), where `name` is the text between its marks.
pub fn tag_named(name: &str) -> TagName<'_>
    ensures { tag_of result ≡ tags.named name.now }
{
    match name {
        "workflow.name" => TagName::WorkflowName,
        "workflow.status" => TagName::WorkflowStatus,
        "item" => TagName::Item,
        _ => named_behind(name),
    }
}

// What a tag names of which only the front is known.
fn named_behind(name: &str) -> TagName<'_>
    ensures { tag_of result ≡ tags.named_behind name.now }
{
    if let Some(rest) = behind(name, "workflow.parameters.") {
        return TagName::WorkflowParameter(rest);
    }
    if let Some(rest) = behind(name, "inputs.parameters.") {
        return TagName::InputParameter(rest);
    }
    if let Some(rest) = behind(name, "item.") {
        return TagName::ItemKey(rest);
    }
    if let Some(rest) = behind(name, "steps.") {
        return step_named(rest);
    }
    if let Some(rest) = behind(name, "tasks.") {
        return task_named(rest);
    }
    TagName::Unknown
}

fn step_named(rest: &str) -> TagName<'_>
    ensures { tag_of result ≡ tags.asked tags.step (tags.at_dot rest.now) }
{
    let Some((name, asked)) = at_dot(rest) else {
        return TagName::Unknown;
    };
    match field_named(asked) {
        Some(field) => TagName::Step(name, field),
        None => TagName::Unknown,
    }
}

fn task_named(rest: &str) -> TagName<'_>
    ensures { tag_of result ≡ tags.asked tags.task (tags.at_dot rest.now) }
{
    let Some((name, asked)) = at_dot(rest) else {
        return TagName::Unknown;
    };
    match field_named(asked) {
        Some(field) => TagName::Task(name, field),
        None => TagName::Unknown,
    }
}

fn field_named(asked: &str) -> Option<StepField<'_>>
    ensures { MatchOption result
        (tags.field_named asked.now ≡ None)
        (λ field. tags.field_named asked.now ≡ Some (field_of field)) }
{
    match asked {
        "outputs.result" => Some(StepField::Result),
        "status" => Some(StepField::Status),
        _ => match behind(asked, "outputs.parameters.") {
            Some(rest) => Some(StepField::Parameter(rest)),
            None => None,
        },
    }
}

// What stands behind a text's front.
fn behind<'a>(text: &'a str, front: &str) -> Option<&'a str>
    ensures { MatchOption result
        (tags.behind front.now text.now ≡ None)
        (λ rest. tags.behind front.now text.now ≡ Some rest.now) }
{
    text.strip_prefix(front)
}

// What stands before and behind the first dot.
fn at_dot(text: &str) -> Option<(&str, &str)>
    ensures { MatchOption result
        (tags.at_dot text.now ≡ None)
        (λ halves. tags.at_dot text.now ≡ Some (halves.0.now, halves.1.now)) }
{
    text.split_once('.')
}
