//! The kinds of wants, and which of them stand somewhere.

ghost use Rattle.std.specs.Prelude.{◌≡◌, [], ◌∷◌};
ghost use Rattle.meaning.specs.declared.lines.Line.TheVariants as lines;
ghost use Rattle.tree_state.specs.Asking.{kind_of_want, is_of};
ghost use Rattle.tree_state.specs.Inside.Sums.{asks_in, both_ask, asks_of};

use tree_types::{Path, Want};

/// A kind of want.
#[derive(Clone, Copy, Debug, PartialEq, Eq)]
pub enum WantKind {
    Pod,
    Lock,
    LookUp,
    Arming,
    Timer,
    Save,
}

impl WantKind {
    /// The kind of a want.
    pub fn of(want: &Want) -> WantKind
        ensures { result ≡ kind_of_want want.now }
    {
        match want {
            Want::Pod(_) => WantKind::Pod,
            Want::Lock(_, _) => WantKind::Lock,
            Want::LookUp(_, _, _, _) => WantKind::LookUp,
            Want::Arming(_) => WantKind::Arming,
            Want::Timer(_, _) => WantKind::Timer,
            Want::Save(_, _, _, _) => WantKind::Save,
        }
    }

    /// Whether a want is of this kind.
    pub fn is_of(self, want: &Want) -> bool
        ensures { result ≡ is_of self want.now }
    {
        self == WantKind::of(want)
    }
}

/// Which kinds of wants stand somewhere, and whether some task may begin there.
#[derive(Clone, Copy, Debug)]
pub(crate) struct Asks {
    pub(crate) pods: bool,
    pub(crate) locks: bool,
    pub(crate) look_ups: bool,
    pub(crate) armings: bool,
    pub(crate) timers: bool,
    pub(crate) saves: bool,
    pub(crate) beginnings: bool,
}

impl Asks {
    pub(crate) fn nothing() -> Asks
        ensures { result ≡ asks_in [] }
    {
        Asks {
            pods: false,
            locks: false,
            look_ups: false,
            armings: false,
            timers: false,
            saves: false,
            beginnings: false,
        }
    }

    /// Some task may begin.
    pub(crate) fn beginning(_task: &Path) -> Asks
        ensures { result ≡ asks_in (lines.MayBegin _task.now ∷ []) }
    {
        Asks {
            beginnings: true,
            ..Asks::nothing()
        }
    }

    /// One want is asked for.
    pub(crate) fn one(want: &Want) -> Asks
        ensures { result ≡ asks_in (lines.Asks want.now ∷ []) }
    {
        let kind = WantKind::of(want);
        Asks {
            pods: kind == WantKind::Pod,
            locks: kind == WantKind::Lock,
            look_ups: kind == WantKind::LookUp,
            armings: kind == WantKind::Arming,
            timers: kind == WantKind::Timer,
            saves: kind == WantKind::Save,
            beginnings: false,
        }
    }

    /// Those of the one and of the other.
    pub(crate) fn and(self, other: Asks) -> Asks
        ensures { result ≡ both_ask self other }
    {
        Asks {
            pods: self.pods || other.pods,
            locks: self.locks || other.locks,
            look_ups: self.look_ups || other.look_ups,
            armings: self.armings || other.armings,
            timers: self.timers || other.timers,
            saves: self.saves || other.saves,
            beginnings: self.beginnings || other.beginnings,
        }
    }

    /// Whether wants of a kind stand there.
    pub(crate) fn of(self, kind: WantKind) -> bool
        ensures { result ≡ asks_of kind self }
    {
        match kind {
            WantKind::Pod => self.pods,
            WantKind::Lock => self.locks,
            WantKind::LookUp => self.look_ups,
            WantKind::Arming => self.armings,
            WantKind::Timer => self.timers,
            WantKind::Save => self.saves,
        }
    }
}
