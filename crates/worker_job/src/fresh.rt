//! The pod that a fact makes its workflow ask for.

ghost use Rattle.std.specs.Prelude.{◌≡◌, map, IfOk, IfSome};
ghost use Rattle.worker_job.specs.Inside.{look_told};
ghost use Rattle.worker_job.specs.Inside.Marks.{IsUnread};

use crate::marks::Pods;
use askings::laws::waits_ask;
use base_types::{Memory, Text};
use tree_types::{Fact, Kind, Path, Phase, Sel, Sels};

// The name of a pod that is asked for and was not looked at, where a fact may have made its workflow ask for it: at the fact's own
// path, and once an attempt is settled at the path of the next.
pub(crate) fn fresh_name<'a>(fact: &Fact, pods: &Pods<'a>) -> Result<Option<&'a Text>, Memory>
    ensures { IfOk result (λ o. IfSome o (λ name.
        IsUnread (map look_told pods.now.looks.now) pods.now.object.now name.now)) }
{
    match fact {
        Fact::Granted(path) => Ok(pods.unread_at(path.sels.as_slice())),
        Fact::Memo(path, _) => Ok(pods.unread_at(path.sels.as_slice())),
        Fact::Due(path) => Ok(pods.unread_at(path.sels.as_slice())),
        Fact::Settled(path, _) => match next_attempt(path)? {
            None => Ok(None),
            Some(next) => Ok(pods.unread_at(next.as_slice())),
        },
        _ => Ok(None),
    }
}

// The path of the attempt that follows the one of a path.
fn next_attempt(path: &Path) -> Result<Option<Sels>, Memory> {
    let Some((Sel::Attempt(number), above)) = path.sels.as_slice().split_last() else {
        return Ok(None);
    };
    let Some(next) = number.checked_add(1) else {
        return Ok(None);
    };
    let mut sels = Sels::from_slice(path.sels.allocator(), above)?;
    sels.push(Sel::Attempt(next))?;
    Ok(Some(sels))
}

impl<'a> Pods<'a> {
    // The name of the pod of a path, where it is asked for and was not looked at.
    fn unread_at(&self, path: &[Sel]) -> Option<&'a Text>
        ensures { IfSome result (λ name.
            IsUnread (map look_told self.now.looks.now) self.now.object.now name.now) }
    {
        let node = self.object.state().node(path)?;
        let Kind::Pod = node.kind else { return None };
        let Phase::Running = node.phase else {
            return None;
        };
        waits_ask();
        match self.looks.last(&node.name) {
            None => Some(&node.name),
            Some(_) => None,
        }
    }
}
