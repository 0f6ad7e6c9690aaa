//! A request that holds its lock.

ghost use Rattle.std.specs.Prelude.{◌≡◌, ◌<◌, true, length};
ghost use Rattle.sync_locks.specs.Inside.Holders.{is_bucketed};

use crate::asked::Asked;
use crate::bucket::bucket_of;
use sharing::SharedList;

// Where it stands, and the bucket of its key: keys of other buckets are told apart by a number, without a look at the request.
#[derive(Clone, Copy)]
pub(crate) struct Holder {
    pub place: u32,
    pub bucket: u32,
}

// The request at a place as one that holds.
pub(crate) fn holder_at(asked: &SharedList<Asked>, place: u32) -> Holder
    requires { place < length asked.now }
    ensures place { result.place ≡ place }
    ensures bucket { is_bucketed asked.now result ≡ true }
{
    let asked = asked.get(place as usize).unwrap();
    Holder {
        place,
        bucket: bucket_of(&asked.key.workflow, &asked.key.path) as u32,
    }
}
