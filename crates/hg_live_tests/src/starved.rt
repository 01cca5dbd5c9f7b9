//! Want of memory at a node: what is refused changes nothing that is seen, and passes when it is tried again.
ghost use Rattle.std.specs.Prelude.{◌≡◌};

use crate::making::{A, B_FOR_A, MESSAGE, N1, Open, amend, id, root};
use hg_changeset::Node as Id;
use hg_live::{
    Accepted, Blank, CallRefusal, CloseRefusal, LookRefusal, Node, NodeName, NotOffered, OpenGate,
    Pass, Status,
};
use hg_peer::Scope;
use hg_replica::Replica;
use hg_rewrite::Op;
use std::alloc::Global;
use std::marker::Brand;
use std::process::Abort;
use std::sync::Wait;
use std::test::*;

// What is done at a node.
#[derive(Drop)]
enum Call<'a> {
    Local(&'a Op),
    Take(&'a [u8]),
    Pin(Id),
    Unpin(Id),
}

fn make<K: NodeName, R: Wait, W: Wait + Drop>(
    rt: &R,
    node: &Open<K, W>,
    pass: &mut Pass<K>,
    call: &Call<'_>,
) -> Result<Accepted, CallRefusal> {
    match call {
        Call::Local(op) => node.local(rt, pass, op),
        Call::Take(bytes) => node.take(rt, pass, bytes),
        Call::Pin(changeset) => node.pin(rt, pass, *changeset),
        Call::Unpin(changeset) => node.unpin(rt, pass, *changeset),
    }
}

// Looks at `a`, at what it is amended to and at what the message has. It takes no memory.
fn look<K: NodeName>(rt: &impl Abort, pass: &mut Pass<K>) -> [Status; 3] {
    [
        Node::<K, (), ()>::read(pass, id(rt, A)).expect(rt, "a look"),
        Node::<K, (), ()>::read(pass, id(rt, B_FOR_A)).expect(rt, "a look"),
        Node::<K, (), ()>::read(pass, id(rt, N1)).expect(rt, "a look"),
    ]
}

// Makes the call, and once more where it is refused. What is refused, or comes later, leaves what is seen as it was.
fn make_or_wait<K: NodeName, R: Wait + Abort, W: Wait + Drop>(
    rt: &R,
    node: &Open<K, W>,
    pass: &mut Pass<K>,
    call: &Call<'_>,
) {
    let before = look(rt, pass);
    let answer = make(rt, node, pass, call);
    if answer == Ok(Accepted::Shown) {
        return;
    }
    assert!(rt; look(rt, pass) == before);
    if answer != Ok(Accepted::Later) {
        assert!(rt; answer == Err(CallRefusal::NoMemory));
        assert!(rt; make(rt, node, pass, call) == Ok(Accepted::Shown));
    }
}

#[test]
fn refused_growth_in_calls_changes_nothing_that_is_seen(rt: HostRuntime) {
    let alloc = rt.alloc();
    let (Some(commit), Some(rewrite)) = (root(alloc, b"a"), amend(alloc, id(&rt, A), b"b")) else {
        return;
    };
    let Ok(blank) = Blank::new(alloc, Replica::new(alloc)) else {
        return;
    };
    starve::<Brand, _, _>(&rt, alloc, blank, &rt, &commit, &rewrite);
}

// After the calls `a` is hidden. What comes later, if it is the unpin, is shown by the call after it.
fn starve<'a, K: NodeName, R: Wait + Abort, W: Wait + Drop>(
    rt: &R,
    alloc: Global,
    blank: Blank,
    keep: W,
    commit: &'a Op,
    rewrite: &'a Op,
)
    requires opening { K.opening ≡ blank.opening }
    requires book { blank.opened ≡ K.book }
    requires name { blank.tokens.name ≡ K.name }
    requires parts { blank.tokens.parts ≡ K.parts }
{
    let Ok(node) = Open::<K, W>::new(keep, alloc, blank, OpenGate) else {
        return;
    };
    let mut pass = node.pass(rt).expect(rt, "a pass wants no memory");
    let a = id(rt, A);
    for call in [
        Call::Local(commit),
        Call::Local(rewrite),
        Call::Pin(a),
        Call::Unpin(a),
        Call::Take(MESSAGE),
        Call::Take(MESSAGE),
    ] {
        make_or_wait(rt, &node, &mut pass, &call);
    }
    let [old, new, taken] = look(rt, &mut pass);
    assert!(rt; old.extinct && !old.visible && new.visible && taken.visible);
}

#[test]
fn refused_growth_in_looks_and_in_a_close_is_told_and_passes(rt: HostRuntime) {
    let alloc = rt.alloc();
    let Ok(blank) = Blank::new(alloc, Replica::new(alloc)) else {
        return;
    };
    look_and_close::<Brand, _, _>(&rt, alloc, blank, &rt);
}

// A node that took the message.
fn look_and_close<K: NodeName, R: Wait + Abort, W: Wait + Drop>(
    rt: &R,
    alloc: Global,
    blank: Blank,
    keep: W,
)
    requires opening { K.opening ≡ blank.opening }
    requires book { blank.opened ≡ K.book }
    requires name { blank.tokens.name ≡ K.name }
    requires parts { blank.tokens.parts ≡ K.parts }
{
    let Ok(node) = Open::<K, W>::new(keep, alloc, blank, OpenGate) else {
        return;
    };
    let mut pass = node.pass(rt).expect(rt, "a pass wants no memory");
    let Ok(Accepted::Shown) = node.take(rt, &mut pass, MESSAGE) else {
        return;
    };
    assert!(rt; is_known(rt, &mut pass) || is_known(rt, &mut pass));
    assert!(rt; is_offered(rt, &mut pass) || is_offered(rt, &mut pass));
    let Ok(passes) = vec![in alloc; pass] else {
        return;
    };
    let replica = match node.close(passes) {
        Ok(replica) => replica,
        Err(unclosed) => {
            assert!(rt; unclosed.why == CloseRefusal::NoMemory);
            let Ok(replica) = unclosed.node.close(unclosed.passes) else {
                assert!(rt; false, "there is memory again");
                return;
            };
            replica
        }
    };
    assert_eq!(rt; replica.graph().len(), 1);
}

// Whether it is told what the node serves: what the message has, and not `a`.
fn is_known<K: NodeName>(rt: &impl Abort, pass: &mut Pass<K>) -> bool {
    match Node::<K, (), ()>::known(pass, &[id(rt, N1), id(rt, A)]) {
        Ok(answers) => answers.as_slice() == [true, false].as_slice(),
        Err(refusal) => {
            assert!(rt; refusal == LookRefusal::NoMemory);
            false
        }
    }
}

// Whether something is offered.
fn is_offered<K: NodeName>(rt: &impl Abort, pass: &mut Pass<K>) -> bool {
    match Node::<K, (), ()>::offer(pass, &[], Scope::Served) {
        Ok(_) => true,
        Err(refusal) => {
            assert!(rt; refusal == NotOffered::NoMemory);
            false
        }
    }
}
