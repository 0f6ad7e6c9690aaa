//! The items of a document by their kinds.

ghost use Rattle.std.specs.Prelude.{◌≡◌, [], OnOk};

use base_types::{List, Memory};
use item_reader::{Commands, Config, Plan, Schedule};
use std::alloc::Global;
use wf_check::Valid;

/// The items of a document by their kinds, each kind in its order.
#[derive(Drop)]
pub(crate) struct Parts {
    pub(crate) workflows: List<Valid>,
    pub(crate) configs: List<Config>,
    pub(crate) plans: List<Plan>,
    pub(crate) commands: List<Commands>,
    pub(crate) schedules: List<Schedule>,
}

impl Parts {
    pub(crate) fn new(alloc: Global) -> Parts
        ensures { result ≡ record { workflows = []; configs = []; plans = []; commands = []; schedules = [] } }
    {
        Parts {
            workflows: List::new(alloc),
            configs: List::new(alloc),
            plans: List::new(alloc),
            commands: List::new(alloc),
            schedules: List::new(alloc),
        }
    }
}
