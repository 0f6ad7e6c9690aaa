//! The laws, each the contract of a function that does nothing.

ghost use Rattle.document_laws.specs.Names.{NamesDifferIn};
ghost use Rattle.document_laws.specs.Manifests.{WorkflowsAreValid};
ghost use Rattle.document_laws.specs.Schedules.{HandsAreThere};

/// No two workflows of a document that was read have one name.
pub fn names_differ()
    ensures { NamesDifferIn }
{}

/// Where each workflow of a document is valid, so is each that the law has of it.
pub fn workflows_valid()
    ensures { WorkflowsAreValid }
{}

/// Each hand that a step of a document's schedule names is there.
pub fn hands_are_there()
    ensures { HandsAreThere }
{}
