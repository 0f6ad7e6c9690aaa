//! One function a call. Each says of the history that the client has seen what the definitions of a job's next step need.

ghost use Rattle.std.specs.Prelude.{◌≡◌, ◌≢◌, ◌<◌, ◌^◌, length, Some, None, Err, IfOk};
ghost use Rattle.io_edge.specs.Cause.{Rose};
ghost use Rattle.history.specs.History.{event};
ghost use Rattle.history.specs.Versions.{back_of, lag_after};
ghost use Rattle.object_store.specs.declared.refused.StoreRefused.TheVariants.{Fault, Memory as OutOfMemory};
ghost use Rattle.object_store.specs.Entries.{MakesObject, ChangesObject};
ghost use Rattle.object_store.specs.Answers.{IsOf};
ghost use Rattle.store_client.specs.Calls.{CountsOthers, WillBeJustified};
ghost use Rattle.law.specs.Contents.{apply};
ghost use Rattle.next_step.specs.Changes.{change as changed};
ghost use Rattle.next_step.specs.Backward.{GotBack};
ghost use Rattle.next_laws.specs.Viewing.{Answers};
ghost use Rattle.reply_laws.specs.Replies.{read_reply, change_reply, DidBehind, LeavesClient};
ghost use Rattle.wf_object.specs.Kept.{makes, begins, justified};

use object_store::{Snapshot, StoreRefused};
use reply_laws::laws::{creates_are_done, gets_are_answered, writes_are_done};
use store_client::Client;
use tree_types::{Entry, Key};
use wf_object::WfContent;

/// Reads an object.
pub fn get<C: Client<WfContent>>(
    client: &mut C,
    key: &Key,
) -> Result<Snapshot<WfContent>, StoreRefused>
    ensures leaves { LeavesClient begins justified C.seen C.law C.place C.faults client.old client.new }
    ensures others { CountsOthers
        (C.seen client.old) (C.seen client.new) (C.others client.old) (C.others client.new) }
    ensures back { result ≢ Err OutOfMemory →
        GotBack (C.seen client.new) (back_of key.now (C.lag client.old)) key.now (read_reply result) }
    ensures read { result ≢ Err OutOfMemory →
        Answers (C.seen client.new) key.now (read_reply result) }
    ensures key { IfOk result (λ s. s.key ≡ key.now) }
    ensures lag { C.lag client.new ≡ lag_after key.now (C.lag client.old) }
    ensures size { length (C.seen client.new).events < 2 ^ 64 }
    ensures fault { result ≡ Err Fault →
        C.rose client.old client.new × Rose (C.faults client.old) (C.faults client.new) }
{
    gets_are_answered();
    client.get(key)
}

/// Makes an object.
pub fn create<C: Client<WfContent>>(
    client: &mut C,
    key: Key,
    content: WfContent,
    change: Entry,
) -> Result<Snapshot<WfContent>, StoreRefused>
    requires entry { MakesObject change key }
    requires makes { makes key change content }
    requires justified { WillBeJustified begins justified (C.law client.old)
        apply (C.seen client.old) key 0 (event change (Some content)) }
    ensures leaves { LeavesClient begins justified C.seen C.law C.place C.faults client.old client.new }
    ensures did { result ≢ Err OutOfMemory → DidBehind
        (C.seen client.old) (changed key 0 (event change (Some content))) (change_reply result)
        (C.seen client.new) (C.others client.old) (C.others client.new) }
    ensures key { IfOk result (λ s. s.key ≡ key) }
    ensures content { IfOk result (λ s. s.content ≡ content) }
    ensures lag { C.lag client.new ≡ C.lag client.old }
    ensures size { length (C.seen client.new).events < 2 ^ 64 }
    ensures fault { result ≡ Err Fault →
        C.rose client.old client.new × Rose (C.faults client.old) (C.faults client.new) }
{
    creates_are_done();
    client.create(key, content, change)
}

/// Changes an object as it was read.
pub fn write<C: Client<WfContent>>(
    client: &mut C,
    from: &Snapshot<WfContent>,
    next: WfContent,
    change: Entry,
) -> Result<Snapshot<WfContent>, StoreRefused>
    requires of { IsOf apply from.now (C.seen client.old) }
    requires entry { ChangesObject change from.now.key }
    requires leads { apply from.now.content change ≡ Some next }
    requires justified { WillBeJustified begins justified (C.law client.old)
        apply (C.seen client.old) from.now.key from.now.version (event change None) }
    ensures leaves { LeavesClient begins justified C.seen C.law C.place C.faults client.old client.new }
    ensures did { result ≢ Err OutOfMemory → DidBehind
        (C.seen client.old) (changed from.now.key from.now.version (event change None)) (change_reply result)
        (C.seen client.new) (C.others client.old) (C.others client.new) }
    ensures key { IfOk result (λ s. s.key ≡ from.now.key) }
    ensures content { IfOk result (λ s. s.content ≡ next) }
    ensures lag { C.lag client.new ≡ C.lag client.old }
    ensures size { length (C.seen client.new).events < 2 ^ 64 }
    ensures fault { result ≡ Err Fault →
        C.rose client.old client.new × Rose (C.faults client.old) (C.faults client.new) }
{
    writes_are_done();
    client.write(from, next, change)
}
