//! Copies of the types of this crate.

use crate::{
    Argument, Backoff, Body, Call, ContinueOn, Dag, Hook, Input, Loop, Manifest, Memoize,
    OutputDecl, Policy, Retry, Task, Template,
};
use base_types::{Memory, TryCopy};

impl TryCopy for Argument {
    fn copy(&self) -> Result<Argument, Memory> {
        Ok(Argument {
            name: self.name.copy()?,
            value: self.value.copy()?,
        })
    }
}

impl TryCopy for Loop {
    fn copy(&self) -> Result<Loop, Memory> {
        Ok(match self {
            Loop::Items(items) => Loop::Items(items.copy()?),
            Loop::Param(text) => Loop::Param(text.copy()?),
            Loop::Sequence {
                count,
                start,
                end,
                format,
            } => Loop::Sequence {
                count: count.copy()?,
                start: start.copy()?,
                end: end.copy()?,
                format: format.copy()?,
            },
        })
    }
}

impl TryCopy for ContinueOn {
    fn copy(&self) -> Result<ContinueOn, Memory> {
        Ok(*self)
    }
}

impl TryCopy for Hook {
    fn copy(&self) -> Result<Hook, Memory> {
        Ok(Hook {
            template: self.template.copy()?,
            arguments: self.arguments.copy()?,
            short: self.short,
        })
    }
}

impl TryCopy for Call {
    fn copy(&self) -> Result<Call, Memory> {
        Ok(Call {
            name: self.name.copy()?,
            template: self.template.copy()?,
            arguments: self.arguments.copy()?,
            when: self.when.copy()?,
            each: self.each.copy()?,
            continue_on: self.continue_on.copy()?,
            exit: self.exit.copy()?,
        })
    }
}

impl TryCopy for Task {
    fn copy(&self) -> Result<Task, Memory> {
        Ok(Task {
            call: self.call.copy()?,
            depends: self.depends.copy()?,
            dependencies: self.dependencies.copy()?,
        })
    }
}

impl TryCopy for Dag {
    fn copy(&self) -> Result<Dag, Memory> {
        Ok(Dag {
            targets: self.targets.copy()?,
            fail_fast: self.fail_fast,
            tasks: self.tasks.copy()?,
        })
    }
}

impl TryCopy for Input {
    fn copy(&self) -> Result<Input, Memory> {
        Ok(Input {
            name: self.name.copy()?,
            value: self.value.copy()?,
            default: self.default.copy()?,
        })
    }
}

impl TryCopy for OutputDecl {
    fn copy(&self) -> Result<OutputDecl, Memory> {
        Ok(OutputDecl {
            name: self.name.copy()?,
            path: self.path.copy()?,
            from: self.from.copy()?,
            default: self.default.copy()?,
        })
    }
}

impl TryCopy for Memoize {
    fn copy(&self) -> Result<Memoize, Memory> {
        Ok(Memoize {
            key: self.key.copy()?,
            max_age: self.max_age,
            cache: self.cache.copy()?,
        })
    }
}

impl TryCopy for Policy {
    fn copy(&self) -> Result<Policy, Memory> {
        Ok(*self)
    }
}

impl TryCopy for Backoff {
    fn copy(&self) -> Result<Backoff, Memory> {
        Ok(*self)
    }
}

impl TryCopy for Retry {
    fn copy(&self) -> Result<Retry, Memory> {
        Ok(*self)
    }
}

impl TryCopy for Body {
    fn copy(&self) -> Result<Body, Memory> {
        Ok(match self {
            Body::Pod => Body::Pod,
            Body::Steps(groups) => Body::Steps(groups.copy()?),
            Body::Dag(dag) => Body::Dag(dag.copy()?),
            Body::Suspend(duration) => Body::Suspend(duration.copy()?),
        })
    }
}

impl TryCopy for Template {
    fn copy(&self) -> Result<Template, Memory> {
        Ok(Template {
            name: self.name.copy()?,
            inputs: self.inputs.copy()?,
            outputs: self.outputs.copy()?,
            lock: self.lock.copy()?,
            memoize: self.memoize.copy()?,
            retry: self.retry.copy()?,
            body: self.body.copy()?,
        })
    }
}

impl TryCopy for Manifest {
    fn copy(&self) -> Result<Manifest, Memory> {
        Ok(Manifest {
            name: self.name.copy()?,
            namespace: self.namespace.copy()?,
            created: self.created,
            priority: self.priority,
            entrypoint: self.entrypoint.copy()?,
            on_exit: self.on_exit.copy()?,
            arguments: self.arguments.copy()?,
            lock: self.lock.copy()?,
            templates: self.templates.copy()?,
        })
    }
}
