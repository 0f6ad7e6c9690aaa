//! What stands around a text, by which the tags in it are judged.

use crate::ancestry::Ancestry;
use crate::names::NameTable;
use crate::tables::{Calls, TemplateTable};
use base_types::Text;
use std::alloc::Global;

/// The tags that may stand in a text are those that need no more than it reaches.
pub(crate) const ONLY_NAME: u32 = 0;

pub(crate) const OF_WORKFLOW: u32 = 1;

pub(crate) const OF_INPUTS: u32 = 2;

pub(crate) const OF_CALLS: u32 = 3;

pub(crate) const OF_ITEMS: u32 = 4;

pub(crate) const NOWHERE: u32 = 5;

/// What a workflow declares.
#[derive(Drop)]
pub(crate) struct Outside<'m> {
    pub(crate) alloc: Global,
    pub(crate) arguments: NameTable<'m>,
    pub(crate) templates: TemplateTable<'m>,
}

/// What a template declares; of a DAG, which task waits for which.
#[derive(Drop)]
pub(crate) struct Inside<'o, 'm> {
    pub(crate) outside: &'o Outside<'m>,
    pub(crate) inputs: NameTable<'m>,
    pub(crate) steps: Calls<'m>,
    pub(crate) tasks: Calls<'m>,
    pub(crate) ancestry: Ancestry<'m>,
}

/// Which steps or tasks stand before a text.
#[derive(Clone, Copy)]
pub(crate) enum Before<'c> {
    All,
    /// The first so many steps.
    First(usize),
    /// The ancestors of the task of this name.
    Ancestors(&'c Text),
}

/// Where a text stands in its template.
#[derive(Clone, Copy)]
pub(crate) struct Spot<'c> {
    pub(crate) reach: u32,
    pub(crate) before: Before<'c>,
    /// The step or task whose exit hook the text belongs to.
    pub(crate) own: Option<&'c Text>,
}
