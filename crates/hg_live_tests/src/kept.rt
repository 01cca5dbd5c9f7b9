//! Sets of instabilities that are kept: after each line of a script those of each node are the ones told from scratch.
use hg_node_set::IdKeys;
use hg_replica_tests::is_up_to_date;
use hg_script::{Fleet, run_fleet};
use std::alloc::Global;

// Whether that is so of each node of the fleet. `None` where memory ran out.
fn are_up_to_date(alloc: Global, fleet: &Fleet) -> Option<bool> {
    for name in fleet.node_names().ok()?.iter() {
        if !is_up_to_date(alloc, fleet.kept_of(name)?).ok()? {
            return Some(false);
        }
    }
    Some(true)
}

// The fleet as the script leaves it.
fn left_by(alloc: Global, script: &[u8]) -> Option<Fleet> {
    let mut rest = script;
    let mut writer = Vec::new(alloc);
    run_fleet(alloc, IdKeys::known(), &mut rest, &mut writer).ok()
}

// Whether it is so after each line of the script.
fn is_so_throughout(alloc: Global, script: &[u8]) -> Option<bool> {
    for end in 0..script.len() {
        if script[end] == b'\n' {
            let fleet = left_by(alloc, &script[..=end])?;
            if !are_up_to_date(alloc, &fleet)? {
                return Some(false);
            }
        }
    }
    Some(true)
}

#[test]
fn kept_sets_are_those_from_scratch_after_each_line(rt: HostRuntime) {
    let alloc = rt.alloc();
    let scripts: [&[u8]; 8] = [
        b"node A\nnode B\ncommit A a draft\ncommit A b draft a\npull B A\namend A b b2\ncommit B c draft b\n\
pull A B\npull B A\nrelocate A c c2 b2\n",
        b"node A\nnode B\ncommit A b draft\npull B A\namend A b b2\nphase B b public\npull A B\npull B A\n",
        b"node A\nnode B\ncommit A a draft\ncommit A b draft a\npull B A\namend A b x\namend B b y\npull A B\n\
pull B A\nprune A x\npull B A\n",
        b"node A\nnode B\ncommit A b draft\nsplit A b s1 s2\npull B A\namend A s1 t1\namend B s1 t2\npull A B\n",
        b"node A\nnode B\ncommit A r draft\npull B A\nprune B r\npull A B\n",
        b"node A\nnode B\nnode C\ncommit A a draft\ncommit A b draft a\npull B A\ncommit A r draft\n\
commit A c draft b\noffer A m b\ntake C m\ntake B m\ntake B m\n",
        b"node A\nnode B\ncommit A b draft\npull B A\ncommit A s secret b\npull B A\ncommit B s draft b\npull A B\n",
        b"node A\ncommit A a draft\ncommit A b draft a\ncommit A c draft b\nfold A f a c\nfold A f a\n\
split A b s1\nfold A f b c\namend A b x\ncommit A d draft c\nphase A a public\namend A a y\ncommit A a draft\n\
relocate A f g f\nnode B\nprune B a\n",
    ];
    for script in scripts {
        assert_eq!(rt; is_so_throughout(alloc, script), Some(true));
    }
}
