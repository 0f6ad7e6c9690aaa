//! Copies of the types of this crate.

use crate::{
    Entry, Fact, HolderKey, Key, Limit, LockId, Node, Note, Outcome, Outputs, Param, Path, Rank,
    Sel, Tree, Want,
};
use base_types::{Memory, TryCopy};

impl TryCopy for Sel {
    fn copy(&self) -> Result<Sel, Memory> {
        Ok(*self)
    }
}

impl TryCopy for Path {
    fn copy(&self) -> Result<Path, Memory> {
        Ok(Path {
            sels: self.sels.copy()?,
        })
    }
}

impl TryCopy for LockId {
    fn copy(&self) -> Result<LockId, Memory> {
        Ok(LockId {
            text: self.text.copy()?,
        })
    }
}

impl TryCopy for Param {
    fn copy(&self) -> Result<Param, Memory> {
        Ok(Param {
            name: self.name.copy()?,
            value: self.value.copy()?,
        })
    }
}

impl TryCopy for Outcome {
    fn copy(&self) -> Result<Outcome, Memory> {
        Ok(Outcome {
            phase: self.phase,
            result: self.result.copy()?,
            params: self.params.copy()?,
            transient: self.transient,
            begin: self.begin,
            finish: self.finish,
        })
    }
}

impl TryCopy for Outputs {
    fn copy(&self) -> Result<Outputs, Memory> {
        Ok(Outputs {
            result: self.result.copy()?,
            params: self.params.copy()?,
        })
    }
}

impl TryCopy for Fact {
    fn copy(&self) -> Result<Fact, Memory> {
        Ok(match self {
            Fact::Started => Fact::Started,
            Fact::Settled(path, outcome) => Fact::Settled(path.copy()?, outcome.copy()?),
            Fact::Carried(path, outcome) => Fact::Carried(path.copy()?, outcome.copy()?),
            Fact::Granted(path) => Fact::Granted(path.copy()?),
            Fact::Memo(path, answer) => Fact::Memo(path.copy()?, answer.copy()?),
            Fact::Armed(path, tick) => Fact::Armed(path.copy()?, *tick),
            Fact::Due(path) => Fact::Due(path.copy()?),
            Fact::Resumed(path) => Fact::Resumed(path.copy()?),
            Fact::Begun(path) => Fact::Begun(path.copy()?),
        })
    }
}

impl TryCopy for Note {
    fn copy(&self) -> Result<Note, Memory> {
        Ok(match self {
            Note::None => Note::None,
            Note::WhenFalse => Note::WhenFalse,
            Note::DependsFalse => Note::DependsFalse,
            Note::NoItems => Note::NoItems,
            Note::Waiting(lock) => Note::Waiting(lock.copy()?),
            Note::Looking(cache) => Note::Looking(cache.copy()?),
            Note::Hit(cache, key) => Note::Hit(cache.copy()?, key.copy()?),
            Note::Carried => Note::Carried,
            Note::TooDeep => Note::TooDeep,
            Note::Unresolved(tag) => Note::Unresolved(tag.copy()?),
            Note::BadWhen => Note::BadWhen,
            Note::NotNumbers => Note::NotNumbers,
            Note::NotList => Note::NotList,
            Note::BadItem => Note::BadItem,
            Note::BadNumber => Note::BadNumber,
            Note::BadFormat => Note::BadFormat,
            Note::TooManyItems => Note::TooManyItems,
            Note::BadDuration => Note::BadDuration,
            Note::NoOutput(name) => Note::NoOutput(name.copy()?),
        })
    }
}

impl TryCopy for Node {
    fn copy(&self) -> Result<Node, Memory> {
        Ok(Node {
            path: self.path.copy()?,
            name: self.name.copy()?,
            kind: self.kind,
            phase: self.phase,
            note: self.note.copy()?,
            outputs: self.outputs.copy()?,
            depth: self.depth,
        })
    }
}

impl TryCopy for Tree {
    fn copy(&self) -> Result<Tree, Memory> {
        Ok(Tree {
            nodes: self.nodes.copy()?,
        })
    }
}

impl TryCopy for Want {
    fn copy(&self) -> Result<Want, Memory> {
        Ok(match self {
            Want::Pod(path) => Want::Pod(path.copy()?),
            Want::Lock(path, lock) => Want::Lock(path.copy()?, lock.copy()?),
            Want::LookUp(path, cache, key, max_age) => {
                Want::LookUp(path.copy()?, cache.copy()?, key.copy()?, *max_age)
            }
            Want::Arming(path) => Want::Arming(path.copy()?),
            Want::Timer(path, tick) => Want::Timer(path.copy()?, *tick),
            Want::Save(path, cache, key, outputs) => {
                Want::Save(path.copy()?, cache.copy()?, key.copy()?, outputs.copy()?)
            }
        })
    }
}

impl TryCopy for Key {
    fn copy(&self) -> Result<Key, Memory> {
        Ok(match self {
            Key::Workflow(name) => Key::Workflow(name.copy()?),
            Key::Pod(workflow, node) => Key::Pod(workflow.copy()?, node.copy()?),
            Key::Locks => Key::Locks,
            Key::Caches => Key::Caches,
        })
    }
}

impl TryCopy for HolderKey {
    fn copy(&self) -> Result<HolderKey, Memory> {
        Ok(HolderKey {
            workflow: self.workflow.copy()?,
            path: self.path.copy()?,
        })
    }
}

impl TryCopy for Rank {
    fn copy(&self) -> Result<Rank, Memory> {
        Ok(Rank {
            priority: self.priority,
            created: self.created,
            workflow: self.workflow.copy()?,
            own: self.own,
            name: self.name.copy()?,
        })
    }
}

impl TryCopy for Limit {
    fn copy(&self) -> Result<Limit, Memory> {
        Ok(Limit {
            lock: self.lock.copy()?,
            limit: self.limit,
        })
    }
}

impl TryCopy for Entry {
    fn copy(&self) -> Result<Entry, Memory> {
        Ok(match self {
            Entry::Submit {
                workflow,
                old,
                facts,
            } => Entry::Submit {
                workflow: workflow.copy()?,
                old: old.copy()?,
                facts: facts.copy()?,
            },
            Entry::Write {
                workflow,
                version,
                facts,
            } => Entry::Write {
                workflow: workflow.copy()?,
                version: *version,
                facts: facts.copy()?,
            },
            Entry::Create {
                workflow,
                node,
                path,
                begin,
            } => Entry::Create {
                workflow: workflow.copy()?,
                node: node.copy()?,
                path: path.copy()?,
                begin: *begin,
            },
            Entry::Finish {
                workflow,
                node,
                outcome,
            } => Entry::Finish {
                workflow: workflow.copy()?,
                node: node.copy()?,
                outcome: outcome.copy()?,
            },
            Entry::File { lock, key, rank } => Entry::File {
                lock: lock.copy()?,
                key: key.copy()?,
                rank: rank.copy()?,
            },
            Entry::Release { lock, key } => Entry::Release {
                lock: lock.copy()?,
                key: key.copy()?,
            },
            Entry::Save {
                cache,
                key,
                writer,
                outputs,
                tick,
            } => Entry::Save {
                cache: cache.copy()?,
                key: key.copy()?,
                writer: writer.copy()?,
                outputs: outputs.copy()?,
                tick: *tick,
            },
            Entry::Tick { to } => Entry::Tick { to: *to },
        })
    }
}
