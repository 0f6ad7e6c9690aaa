//! The limits of documents and trees, each in one place; contracts cite them by the same names.

/// The bytes of a document.
pub const LONGEST_INPUT: usize = 16_777_216;

/// The bytes of the name of a step or task.
pub const LONGEST_NAME: usize = 128;

/// The bytes of the name of a workflow.
pub const LONGEST_WORKFLOW_NAME: usize = 253;

/// The `!` and `(` that are open at once in a `when` or a `depends`.
pub const MOST_LEVELS: usize = 64;

/// The seconds of a span of time: 365 days.
pub const MOST_SECONDS: u64 = 31_536_000;

/// The bytes of the name of a key of a ConfigMap.
pub const LONGEST_CONFIG_KEY: usize = 253;

/// The greatest tick that a document may name, in seconds of Unix time.
pub const LATEST_TICK: u64 = 1_000_000_000_000;

/// The items of a document.
pub const MOST_LIST_ITEMS: usize = 10_000;

/// The workflows of a document, those of resubmissions among them.
pub const MOST_WORKFLOWS: usize = 500;

/// The steps of a schedule.
pub const MOST_SCHEDULE_STEPS: usize = 100_000;

/// The members of a list: templates, groups, the steps of a group, the tasks of a DAG, parameters and arguments.
pub const MOST_MEMBERS: usize = 1000;

/// The retries that `limit` may allow.
pub const MOST_RETRIES: u64 = 1000;

/// The factor of a backoff.
pub const MOST_FACTOR: u64 = 1000;

/// The holders of a lock that a ConfigMap may allow.
pub const MOST_HOLDERS: u64 = 1000;

/// The workers of a run.
pub const MOST_WORKERS: u32 = 64;

/// The workflows that `generate` makes.
pub const MOST_SIZE: u32 = 500;

/// The depth of a call.
pub const MOST_DEPTH: u32 = 32;

/// The items of a loop.
pub const MOST_ITEMS: usize = 1000;

/// The attempts of a retry without a limit.
pub const MOST_ATTEMPTS: u64 = 100;

/// The nodes of a tree.
pub const MOST_NODES: usize = 10_000;
