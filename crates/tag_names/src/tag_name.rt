//! What a tag can name.

/// What a tag asks of a step or task.
#[derive(Clone, Copy, Debug)]
pub enum StepField<'a> {
    /// `outputs.result`.
    Result,
    /// `status`.
    Status,
    /// `outputs.parameters.`, and what stands behind it, which need not be a name.
    Parameter(&'a str),
}

/// What a tag names. What stands behind a dot is lent as it stands: it may be empty, and need not be a name.
#[derive(Clone, Copy, Debug)]
pub enum TagName<'a> {
    /// `workflow.name`.
    WorkflowName,
    /// `workflow.status`.
    WorkflowStatus,
    /// `workflow.parameters.` and the rest.
    WorkflowParameter(&'a str),
    /// `inputs.parameters.` and the rest.
    InputParameter(&'a str),
    /// `steps.`, what stands before the next dot, and what is asked behind it.
    Step(&'a str, StepField<'a>),
    /// `tasks.` likewise.
    Task(&'a str, StepField<'a>),
    /// `item`.
    Item,
    /// `item.` and the key.
    ItemKey(&'a str),
    /// A tag of no form that is known.
    Unknown,
}
