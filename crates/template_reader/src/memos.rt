//! Memoization.

ghost use Rattle.std.specs.Prelude.{◌≡◌};
ghost use Rattle.serde_json.specs.View.{view};
ghost use Rattle.field_kinds.specs.Refusing.{Reads};
ghost use Rattle.template_reader.specs.Templates as reads;

use crate::bodies::{BodyKind, is_suspend};
use crate::{ResourceName, Seconds};
use base_types::Text;
use call_reader::Tagged;
use field_kinds::rules::MISSING;
use field_kinds::{
    FieldPath, Fields, KindRefused, Object, optional, optional_text_by, refused_field,
    required_text_by, unsupported_if,
};
use serde_json::Value;
use std::alloc::Global;
use wf_manifest::Memoize;

// The fields of a reference to a ConfigMap.
struct ConfigMapFields;

impl Fields for ConfigMapFields {
    type Made = Option<Text>;

    type Around = ();

    ghost fields = { λ _. reads.config_map_fields };

    fn read_fields(
        alloc: Global,
        config_map: &Value,
        at: &FieldPath,
        _around: &(),
    ) -> Result<Option<Text>, KindRefused> {
        optional_text_by::<ResourceName>(alloc, config_map, "name", at)
    }
}

// The fields of `cache`.
struct CacheFields;

impl Fields for CacheFields {
    type Made = Option<Text>;

    type Around = ();

    ghost fields = { λ _. reads.cache_fields };

    fn read_fields(
        alloc: Global,
        cache: &Value,
        at: &FieldPath,
        _around: &(),
    ) -> Result<Option<Text>, KindRefused> {
        match optional::<Object<ConfigMapFields>>(alloc, cache, "configMap", at, &())? {
            Some(name) => Ok(name),
            None => Ok(None),
        }
    }
}

fn cache_if_named(
    alloc: Global,
    memoize: &Value,
    at: &FieldPath,
) -> Result<Option<Text>, KindRefused>
    ensures { Reads result (reads.cache_if_named at.now (view memoize.now)) }
{
    match optional::<Object<CacheFields>>(alloc, memoize, "cache", at, &())? {
        Some(name) => Ok(name),
        None => Ok(None),
    }
}

fn cache_name(alloc: Global, memoize: &Value, at: &FieldPath) -> Result<Text, KindRefused>
    ensures { Reads result (reads.cache_name at.now (view memoize.now)) }
{
    match cache_if_named(alloc, memoize, at)? {
        Some(name) => Ok(name),
        None => Err(refused_field(MISSING, "cache.configMap.name", at)?),
    }
}

// The fields of `memoize`.
pub(crate) struct MemoizeFields;

impl Fields for MemoizeFields {
    type Made = Memoize;

    type Around = Option<BodyKind>;

    ghost fields = { λ body. reads.memoize_fields body };

    #[tactic(auto, unfolding(crate::specs::Templates::memoize_fields))]
    fn read_fields(
        alloc: Global,
        memoize: &Value,
        at: &FieldPath,
        body: &Option<BodyKind>,
    ) -> Result<Memoize, KindRefused> {
        unsupported_if(is_suspend(*body), at)?;
        Ok(Memoize {
            key: required_text_by::<Tagged>(alloc, memoize, "key", at)?,
            max_age: optional_text_by::<Seconds>(alloc, memoize, "maxAge", at)?,
            cache: cache_name(alloc, memoize, at)?,
        })
    }
}
