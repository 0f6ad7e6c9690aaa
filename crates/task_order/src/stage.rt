//! How far a place has come while the places are put in order.

ghost use Rattle.std.specs.Prelude.{◌≡◌, ◌↔◌, IsTrue};

/// How far a place has come.
#[derive(Clone, Copy, Debug)]
pub(crate) enum Stage {
    /// It was not met yet.
    New,
    /// It waits for what is looked at now.
    Open,
    /// It stands in the order.
    Done,
}

impl Stage {
    pub(crate) fn is_new(self) -> bool
        ensures { IsTrue result ↔ (self ≡ Stage.New) }
    {
        match self {
            Stage::New => true,
            Stage::Open => false,
            Stage::Done => false,
        }
    }

    pub(crate) fn is_done(self) -> bool
        ensures { IsTrue result ↔ (self ≡ Stage.Done) }
    {
        match self {
            Stage::New => false,
            Stage::Open => false,
            Stage::Done => true,
        }
    }
}
