//! Answering a request that changes nothing. Most requests are look-ups, so this is a path of its own, which carries no
//! change and no inode number along.
ghost use Rattle.std.specs.Prelude.{◌≡◌, ◌<◌, ◌+◌, IfOk, OnOk, length, vec_len, vec_capacity};
ghost use Rattle.std.specs.Result.{result_err};
ghost use Rattle.objstore.specs.Objects.{faults_told};
ghost use Rattle.inboxes.specs.Inboxes.{waiting_at};
ghost use Rattle.sessions.specs.Rooms.{IsReady, IsSessionAt, table};
ghost use Rattle.cluster_core.specs.Asked.{IsSessionOf};
ghost use Rattle.cluster_core.specs.Serve.{AtFront, Replies};

use crate::events::Answer;
use crate::parts::{Asked, Given, Waiting};
use mds_types::{Entry, Refusal, Reply, Request};
use sessions::SessionAt;
use std::alloc::{AllocError, Global};

/// Answers the new request at the front of its master's inbox with the reply that was found, and adds its entry to the
/// history and to its client's session. After the refusal `NoMemory` the request still waits.
#[inline(always)]
pub(crate) fn answer(
    alloc: Global,
    waiting: &mut Waiting,
    given: &mut Given,
    history: &mut Vec<Entry>,
    asked: &Asked,
    reply: Reply,
) -> Result<Answer, Refusal>
    requires { AtFront
        (λ request rest. IsSessionOf given.old.sessions request.client asked.now.session)
        (waiting_at waiting.old.inboxes asked.now.rank) }
    ensures replies { AtFront
        (Replies waiting.old.inboxes waiting.new.inboxes waiting.old.pins waiting.new.pins (table given.old.sessions)
        (table given.new.sessions) ((table given.old.sessions).forgotten + length history.old.items) history.old.items
        history.new.items asked.now.rank reply result)
        (waiting_at waiting.old.inboxes asked.now.rank) }
    ensures numbers { given.new.numbers.items ≡ given.old.numbers.items }
    ensures counted { faults_told (result_err result) ≡ 0 }
{
    let Ok(told) = told_of(alloc, given, history, &asked.session, &reply) else {
        drop(reply);
        return Err(Refusal::NoMemory);
    };
    let Some(request) = waiting.inboxes.take(asked.rank) else {
        unreachable!()
    };
    let place = given.sessions.forgotten() + history.len();
    let Request {
        client,
        tid,
        oldest,
        op,
    } = request;
    waiting.pins.end_pair(client, tid);
    let session = given.sessions.keep(asked.session, tid, oldest, place);
    given.sessions.trim(session);
    history.push_reserved(Entry {
        client,
        tid,
        oldest,
        op,
        number: None,
        reply,
    });
    Ok(Answer::Reply {
        client,
        tid,
        place,
        first: true,
        reply: told,
    })
}

// Copies a reply for its client, and reserves room for the entry that keeps the reply.
#[inline(always)]
fn told_of(
    alloc: Global,
    given: &mut Given,
    history: &mut Vec<Entry>,
    session: &SessionAt,
    reply: &Reply,
) -> Result<Reply, AllocError>
    requires { IsSessionAt given.old.sessions session.now }
    ensures told { IfOk result (λ told. told ≡ reply.now) }
    ensures room { OnOk result (vec_len history.new < vec_capacity history.new) }
    ensures reserved { OnOk result (IsReady given.new.sessions session.now.client) }
    ensures session { IsSessionAt given.new.sessions session.now }
    ensures numbers { given.new.numbers.items ≡ given.old.numbers.items }
    ensures past { history.new.items ≡ history.old.items }
    ensures known { table given.new.sessions ≡ table given.old.sessions }
{
    make_room(alloc, given, history, session)?;
    reply.try_clone()
}

/// Reserves room for an entry in the history, and for a reply in a client's session.
pub(crate) fn make_room(
    alloc: Global,
    given: &mut Given,
    history: &mut Vec<Entry>,
    session: &SessionAt,
) -> Result<(), AllocError>
    requires { IsSessionAt given.old.sessions session.now }
    ensures room { OnOk result (vec_len history.new < vec_capacity history.new) }
    ensures reserved { OnOk result (IsReady given.new.sessions session.now.client) }
    ensures session { IsSessionAt given.new.sessions session.now }
    ensures numbers { given.new.numbers.items ≡ given.old.numbers.items }
    ensures past { history.new.items ≡ history.old.items }
    ensures known { table given.new.sessions ≡ table given.old.sessions }
{
    history.reserve(1)?;
    match given.sessions.reserve(alloc, session) {
        Ok(()) => Ok(()),
        Err(_) => Err(AllocError),
    }
}
