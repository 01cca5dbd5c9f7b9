//! Pictures of small histories that no script leaves, drawn by hand by Mercurial's rules, and one of them as Graphviz
//! reads it. Those of scripts are drawn by cases of `examples/`. The ids are the SHA-1 of parents and texts.
use crate::scene::{commit, described, rewrite};
use hg_changeset::Node;
use hg_log::{Look, NamedNode, draw_graphs, draw_log};
use hg_phases::Phase;
use hg_replica::Replica;
use hg_view::Kept;
use std::alloc::Global;
use std::process::Abort;

// An id under which nothing is held.
const ELSEWHERE: Node = Node([0x11; 20]);

// How histories are drawn.
const VISIBLE: Look = Look {
    shows_hidden: false,
    is_coloured: false,
};

const WHOLE: Look = Look {
    shows_hidden: true,
    is_coloured: false,
};

const COLOURED: Look = Look {
    shows_hidden: true,
    is_coloured: true,
};

// Takes in a draft on another changeset.
fn draft(alloc: Global, replica: &mut Replica, parent: Node, label: &[u8]) -> Option<Node> {
    described(alloc, replica, parent, label, Phase::Draft)
}

// Takes in the marker that an operation rewrote a node to others.
fn mark(alloc: Global, replica: &mut Replica, by: &[u8], old: Node, new: &[Node]) -> Option<()> {
    rewrite(alloc, replica, old, new, (b"operation", by))
}

// The history is drawn so.
fn expect(rt: &impl Abort, alloc: Global, replica: Replica, look: Look, picture: &[u8]) {
    let kept = Kept::new(alloc, replica).expect(rt, "memory");
    let mut drawn = Vec::new(alloc);
    draw_log(alloc, &kept, look, &mut drawn).expect(rt, "memory");
    assert!(rt; drawn.as_slice() == picture);
}

// One that has a child was pruned, and amended too; its parent stands far to the right.
fn rewritten_twice(alloc: Global, replica: &mut Replica) -> Option<()> {
    let q = draft(alloc, replica, Node::NULL, b"q")?;
    let p = draft(alloc, replica, Node::NULL, b"p")?;
    let n = draft(alloc, replica, q, b"n")?;
    draft(alloc, replica, q, b"h2")?;
    draft(alloc, replica, p, b"h1")?;
    draft(alloc, replica, n, b"h0")?;
    mark(alloc, replica, b"prune", n, &[])?;
    mark(alloc, replica, b"amend", n, &[ELSEWHERE])
}

#[test]
fn what_became_of_one_changeset_takes_a_line_for_each_marker(rt: HostRuntime) {
    let alloc = rt.alloc();
    let mut replica = Replica::new(alloc);
    rewritten_twice(alloc, &mut replica).expect(&rt, "memory");
    let picture = b"*  d20b84da5be5 h0 draft orphan\n\
            |\n\
            | o  b969e4717c3f h1 draft\n\
            | |\n\
            | | o  65457b0983b8 h2 draft\n\
            | | |\n\
            x---+  1908e2e0e13e n draft\n  \
            | |  pruned\n \
            / /   amended as 111111111111\n\
            o /  498bf646f11c p draft\n \
            /\n\
            o  dcebe5006424 q draft\n\
            \n";
    expect(&rt, alloc, replica, VISIBLE, picture);
}

// One that was amended twice, and rewritten by something else.
fn divergent(alloc: Global, replica: &mut Replica) -> Option<()> {
    let a = draft(alloc, replica, Node::NULL, b"a")?;
    let b = draft(alloc, replica, a, b"b")?;
    let x = draft(alloc, replica, a, b"x")?;
    let y = draft(alloc, replica, a, b"y")?;
    mark(alloc, replica, b"amend", b, &[x])?;
    mark(alloc, replica, b"amend", b, &[y])?;
    mark(alloc, replica, b"else", b, &[ELSEWHERE])
}

#[test]
fn columns_go_on_beside_a_tall_text(rt: HostRuntime) {
    let alloc = rt.alloc();
    let mut replica = Replica::new(alloc);
    divergent(alloc, &mut replica).expect(&rt, "memory");
    let picture = b"*  da18743c66de y draft content-divergent\n\
            |\n\
            | *  4c7015dcde37 x draft content-divergent\n\
            |/\n\
            | #  80984185711b b draft\n\
            |/   amended as x\n\
            |    amended as y\n\
            |    rewritten as 111111111111\n\
            o  f96ca39738e6 a draft\n\
            \n";
    expect(&rt, alloc, replica, WHOLE, picture);
}

#[test]
fn ids_are_yellow_and_what_is_unstable_is_red(rt: HostRuntime) {
    let alloc = rt.alloc();
    let mut replica = Replica::new(alloc);
    divergent(alloc, &mut replica).expect(&rt, "memory");
    let picture = b"*  \x1b[0;33mda18743c66de\x1b[0m y draft \x1b[0;31mcontent-divergent\x1b[0m\n\
            |\n\
            | *  \x1b[0;33m4c7015dcde37\x1b[0m x draft \x1b[0;31mcontent-divergent\x1b[0m\n\
            |/\n\
            | #  \x1b[0;33m80984185711b\x1b[0m b draft\n\
            |/   amended as x\n\
            |    amended as y\n\
            |    rewritten as \x1b[0;33m111111111111\x1b[0m\n\
            o  \x1b[0;33mf96ca39738e6\x1b[0m a draft\n\
            \n";
    expect(&rt, alloc, replica, COLOURED, picture);
}

#[test]
fn what_isnt_printed_of_a_label_is_escaped(rt: HostRuntime) {
    let alloc = rt.alloc();
    let mut replica = Replica::new(alloc);
    draft(alloc, &mut replica, Node::NULL, b"\"\\\t\xff\nsecond").expect(&rt, "memory");
    let picture = b"o  793f2d5a9116 \\\"\\\\\\t\\xff draft\n\
            \n";
    expect(&rt, alloc, replica, VISIBLE, picture);
}

#[test]
fn text_that_is_no_entry_gives_no_label(rt: HostRuntime) {
    let alloc = rt.alloc();
    let mut replica = Replica::new(alloc);
    let opaque = b"opaque\n\0";
    commit(alloc, &mut replica, Node::NULL, opaque, Phase::Draft).expect(&rt, "memory");
    let picture = b"o  d746985e8832 draft\n\
            \n";
    expect(&rt, alloc, replica, VISIBLE, picture);
}

// One whose label is hard to quote was pruned, and what isn't held was rewritten to another that isn't either.
fn pruned(alloc: Global, other: Node) -> Option<Kept> {
    let mut replica = Replica::new(alloc);
    let old = draft(alloc, &mut replica, Node::NULL, b"\"\\\t\xff\nsecond")?;
    mark(alloc, &mut replica, b"prune", old, &[])?;
    mark(alloc, &mut replica, b"amend", ELSEWHERE, &[other])?;
    Kept::new(alloc, replica).ok()
}

// What holds only one changeset.
fn single(alloc: Global) -> Option<(Node, Kept)> {
    let mut replica = Replica::new(alloc);
    let only = draft(alloc, &mut replica, Node::NULL, b"q")?;
    let kept = Kept::new(alloc, replica).ok()?;
    Some((only, kept))
}

// The graph of the first, where the other node is known, up to the end of the cluster.
const QUOTED: &[u8] = b"digraph fleet {
    node [shape=box];
    subgraph \"cluster_A\" {
        label=\"A\";
        \"A 793f2d5a9116\" [label=\"793f2d5a9116\\n\\\\\\\"\\\\\\\\\\\\t\\\\xff\\ndraft\", \
            color=gray, style=\"dashed,diagonals\"];
        \"A 111111111111\" [label=\"111111111111\\nnot held\", style=dotted];
        \"A dcebe5006424\" [label=\"dcebe5006424\\nq\\nnot held\", style=dotted];
        \"A 111111111111\" -> \"A dcebe5006424\" [style=dashed, constraint=false, label=\"amended\"];
    }
";

#[test]
fn what_isnt_held_is_dotted_and_labels_are_quoted(rt: HostRuntime) {
    let alloc = rt.alloc();
    let (other, holder) = single(alloc).expect(&rt, "memory");
    let kept = pruned(alloc, other).expect(&rt, "memory");
    let nodes = [NamedNode {
        name: b"A",
        kept: &kept,
    }];
    let known = [NamedNode {
        name: b"B",
        kept: &holder,
    }];
    let mut drawn = Vec::new(alloc);
    draw_graphs(alloc, &nodes, &known, true, &mut drawn).expect(&rt, "memory");
    assert!(rt; drawn.starts_with(QUOTED));
}
