//! The laws, each the contract of a function that does nothing.

ghost use Rattle.scope_laws.specs.Agreeing.{CallsAgree, CallsOfTemplatesAgree, TemplateScopesAgree};
ghost use Rattle.scope_laws.specs.Agreeing.{TemplatesAgree, MemosAgree, BodiesAgree};
ghost use Rattle.scope_laws.specs.Agreeing.{BegunTasksAgree, TopCallsAgree};

/// Under globals with the same values calls make the same, with any number of depths left.
pub fn calls_agree()
    ensures { CallsAgree }
{}

/// A call of a template makes the same in scopes with the same values.
pub fn calls_of_templates_agree()
    ensures { CallsOfTemplatesAgree }
{}

/// A template's node is the same in scopes with the same values.
pub fn templates_agree()
    ensures { TemplatesAgree }
{}

/// The same of what follows its lock.
pub fn memos_agree()
    ensures { MemosAgree }
{}

/// The same of its body.
pub fn bodies_agree()
    ensures { BodiesAgree }
{}

/// A template is entered with the same values, or with the same fault.
pub fn template_scopes_agree()
    ensures { TemplateScopesAgree }
{}

/// A task that begins makes the same behind tags with the same values.
pub fn begun_tasks_agree()
    ensures { BegunTasksAgree }
{}

/// The entrypoint and the exit handler make the same under globals with the same values.
pub fn top_calls_agree()
    ensures { TopCallsAgree }
{}
