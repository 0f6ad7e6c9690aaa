//! What kind and path a fact is of.

ghost use Rattle.std.specs.Prelude.{◌≡◌};
ghost use Rattle.shared_facts.specs.Inside.Kinds as kinds;

use tree_types::{Fact, Sel};

/// The kinds of facts.
#[derive(Clone, Copy, PartialEq, Eq)]
pub enum Kind {
    Started,
    Settled,
    Carried,
    Granted,
    Memo,
    Armed,
    Due,
    Resumed,
    Begun,
}

pub fn kind_of(fact: &Fact) -> Kind
    ensures { result ≡ kinds.kind_of fact.now }
{
    match fact {
        Fact::Started => Kind::Started,
        Fact::Settled(_, _) => Kind::Settled,
        Fact::Carried(_, _) => Kind::Carried,
        Fact::Granted(_) => Kind::Granted,
        Fact::Memo(_, _) => Kind::Memo,
        Fact::Armed(_, _) => Kind::Armed,
        Fact::Due(_) => Kind::Due,
        Fact::Resumed(_) => Kind::Resumed,
        Fact::Begun(_) => Kind::Begun,
    }
}

/// The path that a fact is of; the empty path, if it is of none.
pub fn sels_of(fact: &Fact) -> &[Sel]
    ensures { result.now ≡ kinds.sels_of fact.now }
{
    match fact {
        Fact::Started => &[],
        Fact::Settled(path, _) => path.sels.as_slice(),
        Fact::Carried(path, _) => path.sels.as_slice(),
        Fact::Granted(path) => path.sels.as_slice(),
        Fact::Memo(path, _) => path.sels.as_slice(),
        Fact::Armed(path, _) => path.sels.as_slice(),
        Fact::Due(path) => path.sels.as_slice(),
        Fact::Resumed(path) => path.sels.as_slice(),
        Fact::Begun(path) => path.sels.as_slice(),
    }
}

pub fn is_of(fact: &Fact, kind: Kind, sels: &[Sel]) -> bool
    ensures { result ≡ kinds.is_of kind sels.now fact.now }
{
    kind_of(fact) == kind && sels_of(fact) == sels
}
