//! The locks of workflows and templates.

ghost use Rattle.std.specs.Prelude.{◌≡◌, IfOk};
ghost use Rattle.serde_json.specs.View.{view};
ghost use Rattle.field_kinds.specs.Refusing.{Reads};
ghost use Rattle.template_reader.specs.Locks as reads;

use crate::{ConfigKeyText, MutexName, ResourceName};
use base_types::{Memory, Text};
use field_kinds::rules::UNSUPPORTED;
use field_kinds::{
    FieldPath, Fields, KindRefused, Object, no_second, optional, optional_text, refuse_all,
    refused_field, required, required_text_by,
};
use serde_json::Value;
use std::alloc::Global;
use tree_types::LockId;

// ---- namespaces

fn is_own(own: &str, namespace: &str) -> bool
    ensures { result ≡ reads.is_own own.now namespace.now }
{
    namespace.is_empty() || namespace == own
}

// Refuses a namespace that is not the workflow's.
fn no_foreign_namespace(own: &Text, lock: &Value, at: &FieldPath) -> Result<(), KindRefused>
    ensures { Reads result (reads.no_foreign_namespace own.now at.now (view lock.now)) }
{
    match lock.get("namespace") {
        Some(Value::String(namespace)) => {
            if is_own(own.as_str(), namespace.as_str()) {
                Ok(())
            } else {
                Err(refused_field(UNSUPPORTED, "namespace", at)?)
            }
        }
        _ => refuse_all(lock, &["namespace"], at),
    }
}

// ---- locks

fn mutex_lock(alloc: Global, name: &Text) -> Result<LockId, Memory>
    ensures { IfOk result (λ lock. lock ≡ reads.mutex_lock name.now) }
{
    let mut text = Text::from_text(alloc, "mutex/")?;
    text.push(name.as_str())?;
    Ok(LockId { text })
}

// The fields of `mutex`.
struct MutexFields;

impl Fields for MutexFields {
    type Made = LockId;

    type Around = Text;

    ghost fields = { λ own. reads.mutex_fields own };

    #[tactic(auto, unfolding(crate::specs::Locks::mutex_fields))]
    fn read_fields(
        alloc: Global,
        mutex: &Value,
        at: &FieldPath,
        own: &Text,
    ) -> Result<LockId, KindRefused> {
        refuse_all(mutex, &["database"], at)?;
        no_foreign_namespace(own, mutex, at)?;
        let name = required_text_by::<MutexName>(alloc, mutex, "name", at)?;
        optional_text(alloc, mutex, "namespace", at)?;
        Ok(mutex_lock(alloc, &name)?)
    }
}

/// A key in a ConfigMap.
#[derive(Drop)]
pub struct ConfigKey {
    pub name: Text,
    pub key: Text,
}

impl Fields for ConfigKey {
    type Made = ConfigKey;

    type Around = ();

    ghost fields = { λ _. reads.key_fields };

    #[tactic(auto, unfolding(crate::specs::Locks::key_fields))]
    fn read_fields(
        alloc: Global,
        reference: &Value,
        at: &FieldPath,
        _around: &(),
    ) -> Result<ConfigKey, KindRefused> {
        Ok(ConfigKey {
            name: required_text_by::<ResourceName>(alloc, reference, "name", at)?,
            key: required_text_by::<ConfigKeyText>(alloc, reference, "key", at)?,
        })
    }
}

/// The semaphore of a key in the ConfigMap of this name.
pub fn semaphore_lock(alloc: Global, name: &Text, key: &Text) -> Result<LockId, Memory>
    ensures { IfOk result (λ lock. lock ≡ reads.semaphore_lock name.now key.now) }
{
    let mut text = Text::from_text(alloc, "semaphore/")?;
    text.push(name.as_str())?;
    text.push("/")?;
    text.push(key.as_str())?;
    Ok(LockId { text })
}

// The fields of `semaphore`.
struct SemaphoreFields;

impl Fields for SemaphoreFields {
    type Made = LockId;

    type Around = Text;

    ghost fields = { λ own. reads.semaphore_fields own };

    #[tactic(auto, unfolding(crate::specs::Locks::semaphore_fields))]
    fn read_fields(
        alloc: Global,
        semaphore: &Value,
        at: &FieldPath,
        own: &Text,
    ) -> Result<LockId, KindRefused> {
        refuse_all(semaphore, &["database"], at)?;
        no_foreign_namespace(own, semaphore, at)?;
        let key = required::<Object<ConfigKey>>(alloc, semaphore, "configMapKeyRef", at, &())?;
        optional_text(alloc, semaphore, "namespace", at)?;
        Ok(semaphore_lock(alloc, &key.name, &key.key)?)
    }
}

fn or_lock(mutex: Option<LockId>, semaphore: Option<LockId>) -> Option<LockId>
    ensures { result ≡ reads.or_lock mutex semaphore }
{
    match mutex {
        Some(mutex) => Some(mutex),
        None => semaphore,
    }
}

// The fields of `synchronization`.
struct LockFields;

impl Fields for LockFields {
    type Made = Option<LockId>;

    type Around = Text;

    ghost fields = { λ own. reads.lock_fields own };

    #[tactic(auto, unfolding(crate::specs::Locks::lock_fields))]
    fn read_fields(
        alloc: Global,
        synchronization: &Value,
        at: &FieldPath,
        own: &Text,
    ) -> Result<Option<LockId>, KindRefused> {
        refuse_all(synchronization, &["mutexes", "semaphores"], at)?;
        let mutex = optional::<Object<MutexFields>>(alloc, synchronization, "mutex", at, own)?;
        no_second(mutex.is_some(), synchronization, "semaphore", at)?;
        let semaphore = optional::<Object<SemaphoreFields>>(
            alloc,
            synchronization,
            "semaphore",
            at,
            own,
        )?;
        Ok(or_lock(mutex, semaphore))
    }
}

/// The lock that a `synchronization` names, in the workflow's own namespace.
pub fn read_lock(
    alloc: Global,
    object: &Value,
    at: &FieldPath,
    own: &Text,
) -> Result<Option<LockId>, KindRefused>
    ensures { Reads result (reads.lock_said own.now at.now (view object.now)) }
{
    match optional::<Object<LockFields>>(alloc, object, "synchronization", at, own)? {
        Some(lock) => Ok(lock),
        None => Ok(None),
    }
}
