//! ConfigMaps.

ghost use Rattle.std.specs.Prelude.{◌≡◌};
ghost use Rattle.serde_json.specs.View.{view};
ghost use Rattle.field_kinds.specs.Reading.{or_bad};
ghost use Rattle.field_kinds.specs.Refusing.{Reads};
ghost use Rattle.template_reader.specs.Names.{config_key};
ghost use Rattle.item_reader.specs.ConfigMaps as reads;

use base_types::{List, Text};
use field_kinds::rules::{BAD_TEXT, MISSING};
use field_kinds::{
    FieldPath, Fields, Grammar, Keyed, KindRefused, Object, Readable, map_of, optional, refused_at,
    refused_field, required_text_by,
};
use serde_json::Value;
use std::alloc::Global;
use template_reader::{ConfigKeyText, ResourceName};
use tree_types::{Param, Params};

/// A ConfigMap, with its entries in the order of their keys.
#[derive(Debug, Drop)]
pub struct Config {
    pub name: Text,
    pub entries: Params,
}

/// A list of ConfigMaps.
pub type Configs = List<Config>;

// The metadata, of which the name is kept.
struct ConfigName;

impl Fields for ConfigName {
    type Made = Text;

    type Around = ();

    ghost fields = { λ _. reads.name_field };

    fn read_fields(
        alloc: Global,
        metadata: &Value,
        at: &FieldPath,
        _around: &(),
    ) -> Result<Text, KindRefused> {
        required_text_by::<ResourceName>(alloc, metadata, "name", at)
    }
}

// Without metadata it is the name that is missing.
fn name_said(alloc: Global, config: &Value, at: &FieldPath) -> Result<Text, KindRefused>
    ensures { Reads result (reads.name_said at.now (view config.now)) }
{
    match optional::<Object<ConfigName>>(alloc, config, "metadata", at, &())? {
        Some(name) => Ok(name),
        None => Err(refused_field(MISSING, "name", &at.field("metadata")?)?),
    }
}

fn key_said(alloc: Global, key: &str, at: &FieldPath) -> Result<Text, KindRefused>
    ensures { Reads result (or_bad at.now (config_key key.now)) }
{
    match ConfigKeyText::read(alloc, key)? {
        Some(key) => Ok(key),
        None => Err(refused_at(BAD_TEXT, at)?),
    }
}

// An entry, whose key is looked at before its text.
struct ConfigEntry;

impl Keyed for ConfigEntry {
    type Made = Param;

    type Around = ();

    ghost entry = { λ _. reads.entry };

    #[tactic(auto, unfolding(crate::specs::ConfigMaps::entry))]
    fn read_entry(
        alloc: Global,
        key: &str,
        value: &Value,
        at: &FieldPath,
        around: &(),
    ) -> Result<Param, KindRefused> {
        let name = key_said(alloc, key, at)?;
        let value = Text::read(alloc, value, at, around)?;
        Ok(Param { name, value })
    }
}

// The entries of a map.
struct ConfigEntries;

impl Readable for ConfigEntries {
    type Made = Params;

    type Around = ();

    ghost kind = { λ _. reads.entries };

    fn read(
        alloc: Global,
        value: &Value,
        at: &FieldPath,
        around: &(),
    ) -> Result<Params, KindRefused> {
        map_of::<ConfigEntry>(alloc, value, at, around)
    }
}

fn entries_or_none(alloc: Global, config: &Value, at: &FieldPath) -> Result<Params, KindRefused>
    ensures { Reads result (reads.entries_or_none at.now (view config.now)) }
{
    match optional::<ConfigEntries>(alloc, config, "data", at, &())? {
        Some(entries) => Ok(entries),
        None => Ok(List::new(alloc)),
    }
}

impl Fields for Config {
    type Made = Config;

    type Around = ();

    ghost fields = { λ _. reads.config_fields };

    #[tactic(auto, unfolding(crate::specs::ConfigMaps::config_fields))]
    fn read_fields(
        alloc: Global,
        config: &Value,
        at: &FieldPath,
        _around: &(),
    ) -> Result<Config, KindRefused> {
        Ok(Config {
            name: name_said(alloc, config, at)?,
            entries: entries_or_none(alloc, config, at)?,
        })
    }
}
