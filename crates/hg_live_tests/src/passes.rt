//! One thread, several passes of one node.
ghost use Rattle.std.specs.Prelude.{◌≡◌};

use crate::making::{A, Open, id, root};
use hg_live::{Accepted, Blank, CloseRefusal, NoPass, Node, NodeName, OpenGate};
use hg_phases::Phase;
use hg_replica::Replica;
use std::alloc::Global;
use std::marker::Brand;
use std::process::Abort;
use std::sync::Wait;
use std::test::*;

#[test]
fn two_passes_that_met_see_each_other_and_close_together(rt: HostRuntime) {
    let alloc = rt.alloc();
    let blank = Blank::new(alloc, Replica::new(alloc)).expect(&rt, "a blank");
    meet_and_close::<Brand, _, _>(&rt, alloc, blank, &rt);
}

fn meet_and_close<K: NodeName, R: Wait + Abort, W: Wait + Drop>(
    rt: &R,
    alloc: Global,
    blank: Blank,
    keep: W,
)
    requires opening { K.opening ≡ blank.opening }
    requires book { blank.opened ≡ K.book }
    requires name { blank.tokens.name ≡ K.name }
    requires parts { blank.tokens.parts ≡ K.parts }
{
    let node: Open<K, W> = Node::new(keep, alloc, blank, OpenGate).expect(rt, "a node");
    let mut p = node.pass(rt).expect(rt, "a pass");
    let mut q = node.pass(rt).expect(rt, "a pass");
    let op = root(alloc, b"a").expect(rt, "memory");
    assert!(rt; node.local(rt, &mut p, &op) == Ok(Accepted::Shown));

    node.meet(&mut p, &mut q);
    let status = Node::<K, (), ()>::read(&mut q, id(rt, A)).expect(rt, "a look");
    assert!(rt; status.phase == Some(Phase::Draft));

    let alone = vec![in alloc; q].expect(rt, "memory");
    let Err(unclosed) = node.close(alone) else {
        assert!(rt; false, "p is out");
        return;
    };
    assert!(rt; unclosed.why == CloseRefusal::PassesOut);
    let mut both = unclosed.passes;
    both.push(p).expect(rt, "memory");
    let Ok(replica) = unclosed.node.close(both) else {
        assert!(rt; false, "both are back");
        return;
    };
    assert!(rt; replica.graph().len() == 1 && replica.graph().contains(id(rt, A)));
}

#[test]
fn a_seventeenth_pass_is_refused_until_one_is_dropped(rt: HostRuntime) {
    let alloc = rt.alloc();
    let blank = Blank::new(alloc, Replica::new(alloc)).expect(&rt, "a blank");
    ask_for_seventeen::<Brand, _, _>(&rt, alloc, blank, &rt);
}

fn ask_for_seventeen<K: NodeName, R: Wait + Abort, W: Wait + Drop>(
    rt: &R,
    alloc: Global,
    blank: Blank,
    keep: W,
)
    requires opening { K.opening ≡ blank.opening }
    requires book { blank.opened ≡ K.book }
    requires name { blank.tokens.name ≡ K.name }
    requires parts { blank.tokens.parts ≡ K.parts }
{
    let node: Open<K, W> = Node::new(keep, alloc, blank, OpenGate).expect(rt, "a node");
    let mut passes = Vec::new(alloc);
    for _ in 0..16 {
        passes
            .push(node.pass(rt).expect(rt, "a pass"))
            .expect(rt, "memory");
    }
    assert!(rt; node.pass(rt).err() == Some(NoPass));
    drop(passes.pop());
    assert!(rt; node.pass(rt).is_ok());

    // Nothing was accepted, so no pass has to come back.
    assert!(rt; node.close(Vec::new(alloc)).is_ok());
}
