//! The names of tasks, and the place of a name among them, which is found without a walk.

ghost use Rattle.std.specs.Prelude.{◌≡◌, [], IfOk, OnOk, length};
ghost use Rattle.depends_expr.specs.Truth.{add_name, add_names};
ghost use Rattle.task_order.specs.Ancestors.{names};
ghost use Rattle.task_order.specs.Orders.{place};

use base_types::Memory;
use indexmap::IndexSet;
use std::alloc::Global;
use std::marker::Model;
use wf_manifest::Task;

/// Names, each once. Contracts see them in the order of their places.
#[derive(Drop)]
pub struct NameTable<'a> {
    set: IndexSet<&'a str>,
}

impl<'a> Model for NameTable<'a> {
    ghost use Rattle.std.specs.Prelude.{ℕ, List as Seq, map};

    ghost Value = { Seq (Seq ℕ) };

    ghost view = { λ table. map (λ name. name.now) table.set.keys };
}

impl<'a> NameTable<'a> {
    fn new(alloc: Global) -> NameTable<'a>
        ensures { result ≡ [] }
    {
        NameTable {
            set: IndexSet::new(alloc),
        }
    }

    fn add(&mut self, name: &'a str) -> Result<(), Memory>
        ensures { OnOk result (self.new ≡ add_name self.old name.entry.now) }
    {
        self.set.insert(name)?;
        Ok(())
    }

    pub fn len(&self) -> usize
        ensures { result ≡ length self.now }
    {
        self.set.len()
    }

    /// The place of a name, if it is among them.
    pub fn place(&self, name: &str) -> Option<usize>
        ensures { result ≡ place self.now name.now }
    {
        self.set.get_index_of(name)
    }
}

/// The names of tasks.
pub fn table_of<'a>(alloc: Global, tasks: &'a [Task]) -> Result<NameTable<'a>, Memory>
    ensures { IfOk result (λ table. table ≡ add_names [] (names tasks.entry.now)) }
{
    let mut table = NameTable::new(alloc);
    for i in 0..tasks.len() {
        table.add(tasks[i].call.name.as_str())?;
    }
    Ok(table)
}
