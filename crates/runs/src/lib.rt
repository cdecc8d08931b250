// Runs: lists of calls on one session, one sink and one inverse memory, our host's frames among them, and the
// law that they keep. The law counts from the answers, and knows neither the session's state nor the program's
// steps. Which calls a list has, and by which transport frames come, is left to others.
#![tactic(auto)]

ghost use Rattle.std.specs.Prelude.{◌≡◌, ℕ, ◌+◌, ◌*◌, ◌≤◌, true, false, cond, ◌&&◌, List, [], ◌∷◌, ◌++◌, map, take, length, All, IfOk, Ok, MatchOption, IfSome, ◌==◌, vec_len};
ghost use Rattle.matrix.specs.Matrix.{Mat};
ghost use Rattle.params.specs.Sets.{named};
ghost use Rattle.sink.specs.Store.{Store};
ghost use Rattle.session.specs.Table.{secret};
ghost use Rattle.bits.specs.Bits.{bytes_for};
ghost use Rattle.runs.specs.Runs.{Card, card, framed, closing, publishing, asked_by, asked_in, with_columns};
ghost use Rattle.runs.specs.Law.{Law, Unknown, OfSet, Fitting, PhaseZero, Finished, Lends, Hosted, listed_part, hosted_part, rest_part, Stops};
ghost use Rattle.runs.specs.Reached.{Reached, Goes, Notes, Adds, reply_in, Waiting, Hosting, turns, AfterTurn};

pub mod calls;

use calls::{Call, Event, Run, Stage, Step, Unmade};
use host::Host;
use key::Key;
use operator::Operator;
use params::find_set;
use session::state::{Open, Ready, StillOpen};
use sink::Sink;
use std::alloc::{AllocError, Global};

// Notes a call that the session at hand does not have.
fn not_allowed(heap: Global, call: &Call<'_>) -> Result<Event, AllocError>
    ensures { IfOk result (Notes (asked_by call.now)) }
{
    let call = match *call {
        Call::Answer {
            frame,
            working,
            reply,
        } => {
            let frame = Vec::from_slice(heap, frame)?;
            Unmade::Answer {
                frame,
                working,
                reply,
            }
        }
        Call::Close => Unmade::Close,
        Call::Publish { working } => Unmade::Publish { working },
    };
    Ok(Event::NotAllowed { call })
}

// Answers a frame in new memories, which all stand before the session is asked.
fn answer<K: Key, O: Operator>(
    heap: Global,
    key: &K,
    blinding: &O,
    inverse: &mut [u8],
    session: &mut Open,
    frame: &[u8],
    working: usize,
    reply: usize,
) -> Result<Event, AllocError>
    ensures { (m : List ℕ) (s store : Store) → let k = card (secret (K.sizes key.now) (K.checks key.now) (O.order blinding.now) (O.matrix blinding.now)) m s in
        Goes k (framed (record { frame = frame.now; working = working; reply = reply })) (Stage.Open session.old) inverse.old store result (Stage.Open session.new) inverse.new store }
{
    let frame = Vec::from_slice(heap, frame)?;
    let mut work = vec![in heap; 0u8; working]?;
    let mut memory = vec![in heap; 0u8; reply]?;
    let answer = session.answer(key, blinding, inverse, &mut work, &frame, &mut memory);
    Ok(Event::Answered {
        frame,
        working,
        answer,
        reply: memory,
    })
}

// Closes a session.
fn close(session: Open) -> (Stage, Event)
    ensures { (k : Card) (inverse : List ℕ) (store : Store) →
        Goes k closing (Stage.Open session) inverse store (Ok result.1) result.0 inverse store }
{
    match session.close() {
        Ok(ready) => (Stage::Ready(ready), Event::Closed { fault: None }),
        Err(StillOpen { session, fault }) => (
            Stage::Open(session),
            Event::Closed { fault: Some(fault) },
        ),
    }
}

// Publishes the next column by way of new working memory.
fn publish<K: Key, S: Sink>(
    heap: Global,
    key: &K,
    inverse: &[u8],
    sink: &mut S,
    ready: &mut Ready,
    working: usize,
) -> Result<Event, AllocError>
    ensures goes { (order : ℕ) (R : Mat) (m : List ℕ) (s : Store) → let k = card (secret (K.sizes key.now) (K.checks key.now) order R) m s in
        Goes k (publishing working) (Stage.Ready ready.old) inverse.now (S.store sink.old) result (Stage.Ready ready.new) inverse.now (S.store sink.new) }
    ensures sink { S.store sink.new ≡ with_columns (S.store sink.old) (S.store sink.new).columns }
{
    let mut work = vec![in heap; 0u8; working]?;
    let fault = ready.publish(key, inverse, &mut work, sink).err();
    Ok(Event::Published { working, fault })
}

// A session just opened. With an empty sink `make` goes on from it, and the law holds of all that was reached so.
pub fn begin<K: Key>(key: &K) -> Stage
    ensures reached { (order : ℕ) (R : Mat) (inverse : List ℕ) (store : Store) → let k = card (secret (K.sizes key.now) (K.checks key.now) order R) inverse store in
        store.columns ≡ [] → Reached k [] result inverse store }
    ensures law { (order : ℕ) (R : Mat) (m : List ℕ) (s : Store) (past : List Event) (stage : Stage) (inverse : List ℕ) (store : Store) →
        let k = card (secret (K.sizes key.now) (K.checks key.now) order R) m s in Reached k past stage inverse store → Law k past inverse store.columns }
{
    Stage::Open(Open::new(key))
}

// Makes one call on an open session.
fn make_open<K: Key, O: Operator>(
    heap: Global,
    key: &K,
    blinding: &O,
    inverse: &mut [u8],
    session: Open,
    call: &Call<'_>,
) -> Step
    ensures { (m : List ℕ) (s store : Store) → let k = card (secret (K.sizes key.now) (K.checks key.now) (O.order blinding.now) (O.matrix blinding.now)) m s in
        Goes k (asked_by call.now) (Stage.Open session) inverse.old store result.event result.stage inverse.new store }
{
    let mut session = session;
    match *call {
        Call::Answer {
            frame,
            working,
            reply,
        } => {
            let event = answer(
                heap,
                key,
                blinding,
                inverse,
                &mut session,
                frame,
                working,
                reply,
            );
            Step {
                stage: Stage::Open(session),
                event,
            }
        }
        Call::Close => {
            let (stage, event) = close(session);
            Step {
                stage,
                event: Ok(event),
            }
        }
        Call::Publish { .. } => Step {
            stage: Stage::Open(session),
            event: not_allowed(heap, call),
        },
    }
}

// Makes one call on the session at hand, in new memories of the call's lengths.
pub fn make<K: Key, O: Operator, S: Sink>(
    heap: Global,
    key: &K,
    blinding: &O,
    inverse: &mut [u8],
    sink: &mut S,
    stage: Stage,
    call: &Call<'_>,
) -> Step
    ensures goes { (m : List ℕ) (s : Store) → let k = card (secret (K.sizes key.now) (K.checks key.now) (O.order blinding.now) (O.matrix blinding.now)) m s in
        Goes k (asked_by call.now) stage inverse.old (S.store sink.old) result.event result.stage inverse.new (S.store sink.new) }
    ensures sink { S.store sink.new ≡ with_columns (S.store sink.old) (S.store sink.new).columns }
{
    match stage {
        Stage::Open(session) => make_open(heap, key, blinding, inverse, session, call),
        Stage::Ready(mut ready) => match *call {
            Call::Publish { working } => {
                let event = publish(heap, key, inverse, sink, &mut ready, working);
                Step {
                    stage: Stage::Ready(ready),
                    event,
                }
            }
            Call::Answer { .. } | Call::Close => Step {
                stage: Stage::Ready(ready),
                event: not_allowed(heap, call),
            },
        },
    }
}

// One more call of a run, whatever it has made so far. Room for the event is found first, so that no call is
// made that is not noted.
fn turn<K: Key, O: Operator, S: Sink>(
    heap: Global,
    key: &K,
    blinding: &O,
    inverse: &mut [u8],
    sink: &mut S,
    run: Run,
    call: &Call<'_>,
) -> Run
    ensures reached { (m : List ℕ) (s : Store) → let k = card (secret (K.sizes key.now) (K.checks key.now) (O.order blinding.now) (O.matrix blinding.now)) m s in
        Reached k run.events.items run.stage inverse.old (S.store sink.old) → Reached k result.events.items result.stage inverse.new (S.store sink.new) }
    ensures grows { Adds run.events.items result.events.items (λ part. map asked_in part ≡ cond result.whole (asked_by call.now ∷ []) []) }
    ensures count { vec_len result.events ≡ vec_len run.events + cond result.whole 1 0 }
    ensures sink { S.store sink.new ≡ with_columns (S.store sink.old) (S.store sink.new).columns }
{
    let mut run = run;
    run.whole = false;
    if let Err(_) = run.events.reserve(1) {
        return run;
    }
    let Step { stage, event } = make(heap, key, blinding, inverse, sink, run.stage, call);
    run.stage = stage;
    if let Ok(event) = event {
        run.events.push_reserved(event);
        run.whole = true;
    }
    run
}

// Makes the calls of a list in order. It stops early only where memory lacks.
fn make_all<K: Key, O: Operator, S: Sink>(
    heap: Global,
    key: &K,
    blinding: &O,
    inverse: &mut [u8],
    sink: &mut S,
    run: Run,
    calls: &[Call<'_>],
) -> Run
    ensures reached { (m : List ℕ) (s : Store) → let k = card (secret (K.sizes key.now) (K.checks key.now) (O.order blinding.now) (O.matrix blinding.now)) m s in
        Reached k run.events.items run.stage inverse.old (S.store sink.old) → Reached k result.events.items result.stage inverse.new (S.store sink.new) }
    ensures grows { Adds run.events.items result.events.items (λ part. map asked_in part ≡ take (length part) (map asked_by calls.now)) }
    ensures whole { result.whole ≡ (run.whole && vec_len result.events == vec_len run.events + length calls.now) }
    ensures stays { run.whole ≡ false → vec_len result.events ≡ vec_len run.events }
    ensures sink { S.store sink.new ≡ with_columns (S.store sink.old) (S.store sink.new).columns }
{
    let mut run = run;
    if !run.whole {
        return run;
    }
    for call in calls {
        run = turn(heap, key, blinding, inverse, sink, run, call);
        if !run.whole {
            return run;
        }
    }
    run
}

// The reply of an event.
fn reply_in(event: &Event) -> &[u8]
    ensures { result.now ≡ reply_in event.now }
{
    match event {
        Event::Answered { answer, reply, .. } => {
            let reply = reply.as_slice();
            &reply[..answer.length.min(reply.len())]
        }
        _ => &[],
    }
}

// The reply of the last event.
fn last_reply(events: &[Event]) -> &[u8]
    ensures { (past : List Event) (e : Event) → events.now ≡ past ++ e ∷ [] → result.now ≡ reply_in e }
{
    match events.last() {
        Some(event) => reply_in(event),
        None => &[],
    }
}

// One frame of our host, and its reply: whether there may be more to say. l: the bytes of a packed vector.
fn ask<K: Key, O: Operator, S: Sink>(
    heap: Global,
    key: &K,
    blinding: &O,
    inverse: &mut [u8],
    sink: &mut S,
    run: Run,
    host: &mut Host,
    first: &mut [u8],
    second: &mut [u8],
    frame: &mut [u8],
    l: usize,
) -> (Run, bool)
    requires { l ≤ 208 }
    ensures reached { (m : List ℕ) (s : Store) → let k = card (secret (K.sizes key.now) (K.checks key.now) (O.order blinding.now) (O.matrix blinding.now)) m s in
        Reached k run.events.items run.stage inverse.old (S.store sink.old) → Reached k result.0.events.items result.0.stage inverse.new (S.store sink.new) }
    ensures grows { Adds run.events.items result.0.events.items (λ part. All (λ e. Lends l (asked_in e)) part
        × ((m : List ℕ) (s : Store) (before after : List Event) → let k = card (secret (K.sizes key.now) (K.checks key.now) (O.order blinding.now) (O.matrix blinding.now)) m s in
        Reached k run.events.items run.stage inverse.old (S.store sink.old) → Fitting k → l ≡ bytes_for k.secret.set.rows → run.events.items ≡ before ++ after
        → Hosting k before after host.old.size host.old.stage first.old second.old frame.old → result.0.whole ≡ true
        → AfterTurn k before (after ++ part) result.1 host.old.size host.old.stage host.new.stage first.new second.new frame.new)) }
    ensures more { result.1 ≡ true → result.0.whole ≡ true }
    ensures size { host.new.size ≡ host.old.size }
    ensures sink { S.store sink.new ≡ with_columns (S.store sink.old) (S.store sink.new).columns }
{
    let length = match host.speak(first, second, frame) {
        Ok(Some(length)) => length,
        Ok(None) => return (run, false),
        Err(_) => return (run, false),
    };
    let call = Call::Answer {
        frame: &frame[..length],
        working: 2 * l,
        reply: l + 3,
    };
    let run = turn(heap, key, blinding, inverse, sink, run, &call);
    if !run.whole {
        return (run, false);
    }
    let heard = host.hear(first, last_reply(&run.events)).is_ok();
    (run, heard)
}

// All frames of our host, `limit` of them at most.
fn ask_all<K: Key, O: Operator, S: Sink>(
    heap: Global,
    key: &K,
    blinding: &O,
    inverse: &mut [u8],
    sink: &mut S,
    run: Run,
    host: &mut Host,
    first: &mut [u8],
    second: &mut [u8],
    frame: &mut [u8],
    l: usize,
    limit: usize,
) -> Run
    requires { l ≤ 208 }
    ensures reached { (m : List ℕ) (s : Store) → let k = card (secret (K.sizes key.now) (K.checks key.now) (O.order blinding.now) (O.matrix blinding.now)) m s in
        Reached k run.events.items run.stage inverse.old (S.store sink.old) → Reached k result.events.items result.stage inverse.new (S.store sink.new) }
    ensures grows { Adds run.events.items result.events.items (λ part. All (λ e. Lends l (asked_in e)) part
        × ((m : List ℕ) (s : Store) → let k = card (secret (K.sizes key.now) (K.checks key.now) (O.order blinding.now) (O.matrix blinding.now)) m s in
        Reached k run.events.items run.stage inverse.old (S.store sink.old) → Fitting k → l ≡ bytes_for k.secret.set.rows
        → Hosting k run.events.items [] host.old.size host.old.stage first.old second.old frame.old → turns host.old.size host.old.stage ≤ limit → result.whole ≡ true
        → Finished k run.events.items part)) }
    ensures sink { S.store sink.new ≡ with_columns (S.store sink.old) (S.store sink.new).columns }
{
    let mut run = run;
    for _ in 0..limit {
        let (next, more) = ask(
            heap, key, blinding, inverse, sink, run, host, first, second, frame, l,
        );
        run = next;
        if !more {
            return run;
        }
    }
    run
}

// Our host for the set of this name, with new memories. Of an unknown name there is none.
fn finish<K: Key, O: Operator, S: Sink>(
    heap: Global,
    key: &K,
    blinding: &O,
    inverse: &mut [u8],
    sink: &mut S,
    run: Run,
    name: &str,
) -> Run
    ensures reached { (m : List ℕ) (s : Store) → let k = card (secret (K.sizes key.now) (K.checks key.now) (O.order blinding.now) (O.matrix blinding.now)) m s in
        Reached k run.events.items run.stage inverse.old (S.store sink.old) → Reached k result.events.items result.stage inverse.new (S.store sink.new) }
    ensures grows { Adds run.events.items result.events.items (λ part. Hosted (named name.now) part
        × ((m : List ℕ) (s : Store) → let k = card (secret (K.sizes key.now) (K.checks key.now) (O.order blinding.now) (O.matrix blinding.now)) m s in
        Reached k run.events.items run.stage inverse.old (S.store sink.old) → OfSet k (named name.now) → Fitting k → Waiting k run.events.items → result.whole ≡ true
        → Finished k run.events.items part)) }
    ensures unknown { Unknown (named name.now) → result.whole ≡ run.whole }
    ensures sink { S.store sink.new ≡ with_columns (S.store sink.old) (S.store sink.new).columns }
{
    let mut run = run;
    let Ok(set) = find_set(name) else {
        return run;
    };
    let Ok(mut host) = Host::new(name) else {
        return run;
    };
    let n = set.rows();
    let l = set.bytes();
    let Ok(mut first) = vec![in heap; 0u8; n * n] else {
        run.whole = false;
        return run;
    };
    let Ok(mut second) = vec![in heap; 0u8; n * n] else {
        run.whole = false;
        return run;
    };
    let Ok(mut frame) = vec![in heap; 0u8; l + 3] else {
        run.whole = false;
        return run;
    };
    // A turn for each column, one for the status, one for each row, and the last, with no more to say.
    ask_all(
        heap,
        key,
        blinding,
        inverse,
        sink,
        run,
        &mut host,
        &mut first,
        &mut second,
        &mut frame,
        l,
        2 * n + 2,
    )
}

// Our host, if it is called for and memory has reached so far.
fn host_on<K: Key, O: Operator, S: Sink>(
    heap: Global,
    key: &K,
    blinding: &O,
    inverse: &mut [u8],
    sink: &mut S,
    run: Run,
    host_set: Option<&str>,
) -> Run
    ensures reached { (m : List ℕ) (s : Store) → let k = card (secret (K.sizes key.now) (K.checks key.now) (O.order blinding.now) (O.matrix blinding.now)) m s in
        Reached k run.events.items run.stage inverse.old (S.store sink.old) → Reached k result.events.items result.stage inverse.new (S.store sink.new) }
    ensures grows { Adds run.events.items result.events.items (λ part. MatchOption host_set.entry (part ≡ []) (λ name. Hosted (named name.now) part)
        × ((m : List ℕ) (s : Store) → let k = card (secret (K.sizes key.now) (K.checks key.now) (O.order blinding.now) (O.matrix blinding.now)) m s in
        Reached k run.events.items run.stage inverse.old (S.store sink.old) → IfSome host_set.entry (λ name. OfSet k (named name.now) → Fitting k → Waiting k run.events.items → result.whole ≡ true
        → Finished k run.events.items part))) }
    ensures whole { result.whole ≡ true → run.whole ≡ true }
    ensures stays { run.whole ≡ false → vec_len result.events ≡ vec_len run.events }
    ensures alone { MatchOption host_set.entry (Unit {0}) (λ name. Unknown (named name.now)) → result.whole ≡ run.whole }
    ensures sink { S.store sink.new ≡ with_columns (S.store sink.old) (S.store sink.new).columns }
{
    if !run.whole {
        return run;
    }
    match host_set {
        Some(name) => finish(heap, key, blinding, inverse, sink, run, name),
        None => run,
    }
}

// A run on a session just opened: the calls of a list in order, then our host's frames where a set's name is
// given, then the calls of a second list. While our host sends, no other call comes. Where memory lacks, nothing
// comes after. The law is of every such run, and of no state that a session keeps.
pub fn run<K: Key, O: Operator, S: Sink>(
    heap: Global,
    key: &K,
    blinding: &O,
    inverse: &mut [u8],
    sink: &mut S,
    calls: &[Call<'_>],
    host_set: Option<&str>,
    rest: &[Call<'_>],
) -> Run
    ensures law { let k = card (secret (K.sizes key.now) (K.checks key.now) (O.order blinding.now) (O.matrix blinding.now)) inverse.old (S.store sink.old) in
        (S.store sink.old).columns ≡ [] → Law k result.events.items inverse.new (S.store sink.new).columns }
    ensures reached { let k = card (secret (K.sizes key.now) (K.checks key.now) (O.order blinding.now) (O.matrix blinding.now)) inverse.old (S.store sink.old) in
        (S.store sink.old).columns ≡ [] → Reached k result.events.items result.stage inverse.new (S.store sink.new) }
    ensures finished { let k = card (secret (K.sizes key.now) (K.checks key.now) (O.order blinding.now) (O.matrix blinding.now)) inverse.old (S.store sink.old) in
        (S.store sink.old).columns ≡ [] → IfSome host_set.entry (λ name. OfSet k (named name.now) → Fitting k → PhaseZero k (listed_part result) → result.whole ≡ true
        → Finished k (listed_part result) (hosted_part result)) }
    ensures made { map asked_in (listed_part result) ≡ take result.listed (map asked_by calls.now) }
    ensures hosted { MatchOption host_set.entry (result.hosted ≡ 0) (λ name. Hosted (named name.now) (hosted_part result)) }
    ensures rest { map asked_in (rest_part result) ≡ take (length (rest_part result)) (map asked_by rest.now) }
    ensures whole { result.whole ≡ true → (result.listed ≡ length calls.now) × (vec_len result.events ≡ result.listed + result.hosted + length rest.now) }
    ensures stops { Stops result (length calls.now) (length rest.now) }
    ensures alone { MatchOption host_set.entry (Unit {0}) (λ name. Unknown (named name.now)) → result.whole ≡ (vec_len result.events == length calls.now + length rest.now) }
    ensures sink { S.store sink.new ≡ with_columns (S.store sink.old) (S.store sink.new).columns }
{
    let run = Run {
        stage: begin(key),
        events: Vec::new(heap),
        listed: 0,
        hosted: 0,
        whole: true,
    };
    let run = make_all(heap, key, blinding, inverse, sink, run, calls);
    let listed = run.events.len();
    let run = host_on(heap, key, blinding, inverse, sink, run, host_set);
    let hosted = run.events.len() - listed;
    let mut run = make_all(heap, key, blinding, inverse, sink, run, rest);
    run.listed = listed;
    run.hosted = hosted;
    run
}
