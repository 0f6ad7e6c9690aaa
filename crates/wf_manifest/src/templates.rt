//! Templates (field reference, `Template`).

use crate::{Dag, Groups};
use base_types::{List, Text};
use tag_text::TagText;
use tree_types::LockId;

/// An input parameter of a template.
#[derive(Debug, Drop)]
pub struct Input {
    pub name: Text,
    pub value: Option<TagText>,
    pub default: Option<TagText>,
}

/// A list of input parameters.
pub type Inputs = List<Input>;

/// A declared output parameter: from a file of the pod (`path`) or from a text with tags (`from`, which is
/// `valueFrom.parameter`).
#[derive(Debug, Drop)]
pub struct OutputDecl {
    pub name: Text,
    pub path: Option<Text>,
    pub from: Option<TagText>,
    pub default: Option<Text>,
}

/// A list of declared output parameters.
pub type OutputDecls = List<OutputDecl>;

/// Where a template's outputs are kept (field reference, `Memoize`). `max_age` is in seconds.
#[derive(Debug, Drop)]
pub struct Memoize {
    pub key: TagText,
    pub max_age: Option<u64>,
    pub cache: Text,
}

/// Which ends of an attempt are tried again (field reference, `RetryStrategy.retryPolicy`).
#[derive(Clone, Copy, Debug, PartialEq, Eq)]
pub enum Policy {
    OnFailure,
    OnError,
    Always,
    OnTransientError,
}

/// The wait between attempts (field reference, `Backoff`); durations are in seconds.
#[derive(Clone, Copy, Debug)]
pub struct Backoff {
    pub duration: u64,
    pub factor: u64,
    pub max_duration: Option<u64>,
}

/// How often a pod is tried (field reference, `RetryStrategy`).
#[derive(Clone, Copy, Debug)]
pub struct Retry {
    pub limit: Option<u64>,
    pub policy: Policy,
    pub backoff: Option<Backoff>,
}

/// What a template does. The content of `container` and `script` is carried and never read, so a pod has none.
#[derive(Debug, Drop)]
pub enum Body {
    Pod,
    Steps(Groups),
    Dag(Dag),
    /// A suspend template, with its `duration`.
    Suspend(Option<TagText>),
}

/// A template. A retry stands on pods alone, `memoize` on everything but a suspend template.
#[derive(Debug, Drop)]
pub struct Template {
    pub name: Text,
    pub inputs: Inputs,
    pub outputs: OutputDecls,
    pub lock: Option<LockId>,
    pub memoize: Option<Memoize>,
    pub retry: Option<Retry>,
    pub body: Body,
}

/// A list of templates.
pub type Templates = List<Template>;
