//! Manifests of workflows: what a `Workflow` resource says, form by form, once it is read.
#![tactic(auto)]

mod calls;
mod copies;
mod json;
mod manifest;
mod templates;

pub use calls::{
    Argument, Arguments, Call, ContinueOn, Dag, Group, Groups, Hook, Loop, Task, Tasks,
};
pub use json::Json;
pub use manifest::Manifest;
pub use templates::{
    Backoff, Body, Input, Inputs, Memoize, OutputDecl, OutputDecls, Policy, Retry, Template,
    Templates,
};
