//! The names in a text, parted by spaces and tabs.

ghost use Rattle.std.specs.Prelude.{◌≡◌, ◌++◌, ◌==◌, map, IfOk, OnOk};
ghost use Rattle.std.specs.List.{slice_split, flat_map};
ghost use Rattle.call_reader.specs.Words as reads;

use base_types::{List, Memory, Names, Text};
use field_kinds::Grammar;
use std::alloc::{AllocError, Global};

/// The grammar of names that are parted by spaces and tabs, which each text is of.
#[derive(Drop)]
pub struct TaskNames;

impl Grammar for TaskNames {
    type Meaning = Names;

    ghost meaning = { reads.task_names };

    fn read(alloc: Global, text: &str) -> Result<Option<Names>, Memory> {
        Ok(Some(words_of(alloc, text)?))
    }
}

fn words_of(alloc: Global, text: &str) -> Result<Names, Memory>
    ensures { IfOk result (λ names. names ≡ reads.words text.now) }
{
    let mut names = List::new(alloc);
    let parts = between_tabs(alloc, text)?;
    for i in 0..parts.len() {
        add_words(alloc, &mut names, parts[i])?;
    }
    Ok(names)
}

fn between_tabs<'a>(alloc: Global, text: &'a str) -> Result<Vec<&'a str>, AllocError>
    ensures { IfOk result
        (λ parts. map (λ part. part.now) parts.items ≡ slice_split (λ b. b == 9) text.now) }
{
    text.split('\t').collect(alloc)
}

fn between_spaces<'a>(alloc: Global, text: &'a str) -> Result<Vec<&'a str>, AllocError>
    ensures { IfOk result
        (λ parts. map (λ part. part.now) parts.items ≡ slice_split (λ b. b == 32) text.now) }
{
    text.split(' ').collect(alloc)
}

// Adds the names that are parted by spaces.
fn add_words(alloc: Global, names: &mut Names, text: &str) -> Result<(), Memory>
    ensures { OnOk result (names.new ≡ names.old ++ reads.between_spaces text.now) }
{
    let parts = between_spaces(alloc, text)?;
    for i in 0..parts.len() {
        add_word(alloc, names, parts[i])?;
    }
    Ok(())
}

fn add_word(alloc: Global, names: &mut Names, word: &str) -> Result<(), Memory>
    ensures { OnOk result (names.new ≡ names.old ++ reads.if_any word.now) }
{
    if word.is_empty() {
        return Ok(());
    }
    names.push(Text::from_text(alloc, word)?)
}
