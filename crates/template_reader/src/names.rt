//! The names of resources and of what they hold.

ghost use Rattle.std.specs.Prelude.{◌≡◌};
ghost use Rattle.std.specs.List.{list_all};
ghost use Rattle.template_reader.specs.Names as names;

use base_types::limits::{LONGEST_CONFIG_KEY, LONGEST_WORKFLOW_NAME};
use base_types::{Memory, Text};
use field_kinds::Grammar;
use std::alloc::Global;

/// The grammar of the names of workflows and ConfigMaps: 1 to 253 of lower-case letters, digits, `-` and `.`.
#[derive(Drop)]
pub struct ResourceName;

impl Grammar for ResourceName {
    type Meaning = Text;

    ghost meaning = { names.resource_name };

    fn read(alloc: Global, text: &str) -> Result<Option<Text>, Memory> {
        if is_resource_name(text.as_bytes()) {
            Ok(Some(Text::from_text(alloc, text)?))
        } else {
            Ok(None)
        }
    }
}

fn is_resource_name(name: &[u8]) -> bool
    ensures { result ≡ names.is_resource_name name.now }
{
    has_length(LONGEST_WORKFLOW_NAME, name.len()) && are_resource_bytes(name)
}

fn has_length(most: usize, length: usize) -> bool
    ensures { result ≡ names.has_length most length }
{
    0 < length && length <= most
}

fn are_resource_bytes(name: &[u8]) -> bool
    ensures { result ≡ list_all names.is_resource_byte name.now }
{
    name.iter().all(|byte| is_resource_byte(*byte))
}

fn is_resource_byte(byte: u8) -> bool
    ensures { result ≡ names.is_resource_byte byte }
{
    byte.is_ascii_lowercase() || byte.is_ascii_digit() || byte == b'-' || byte == b'.'
}

/// The grammar of keys of ConfigMaps: 1 to 253 of letters, digits, `-`, `_` and `.`.
#[derive(Drop)]
pub struct ConfigKeyText;

impl Grammar for ConfigKeyText {
    type Meaning = Text;

    ghost meaning = { names.config_key };

    fn read(alloc: Global, text: &str) -> Result<Option<Text>, Memory> {
        if is_key(text.as_bytes()) {
            Ok(Some(Text::from_text(alloc, text)?))
        } else {
            Ok(None)
        }
    }
}

fn is_key(key: &[u8]) -> bool
    ensures { result ≡ names.is_key key.now }
{
    has_length(LONGEST_CONFIG_KEY, key.len()) && are_key_bytes(key)
}

fn are_key_bytes(key: &[u8]) -> bool
    ensures { result ≡ list_all names.is_key_byte key.now }
{
    key.iter().all(|byte| is_key_byte(*byte))
}

fn is_key_byte(byte: u8) -> bool
    ensures { result ≡ names.is_key_byte byte }
{
    byte.is_ascii_alphanumeric() || byte == b'-' || byte == b'_' || byte == b'.'
}

/// The grammar of the names of mutexes: a text that is not empty.
#[derive(Drop)]
pub struct MutexName;

impl Grammar for MutexName {
    type Meaning = Text;

    ghost meaning = { names.mutex_name };

    fn read(alloc: Global, text: &str) -> Result<Option<Text>, Memory> {
        if text.is_empty() {
            Ok(None)
        } else {
            Ok(Some(Text::from_text(alloc, text)?))
        }
    }
}
