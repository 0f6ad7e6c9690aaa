//! What is left of a run besides its text.

ghost use Rattle.std.specs.Prelude.{◌≡◌, None};

use io_edge::Outage;
use object_store::Store;
use wf_object::WfContent;

/// The store of a run, or where no store was made the outage that was handed in.
#[derive(Drop)]
pub struct Ended<O: Outage> {
    pub store: Option<Store<WfContent, O>>,
    pub outage: Option<O>,
}

impl<O: Outage> Ended<O> {
    /// Before a run.
    pub fn new() -> Ended<O>
        ensures { result ≡ record { store = None; outage = None } }
    {
        Ended {
            store: None,
            outage: None,
        }
    }
}
