//! Scripts over readers and writers that give little, fail or count. What a script prints, leaves and is told with, and
//! how it ends, is shown by cases of `examples/`.
use crate::streams::{Failing, Full, Noting, OneByte};
use hg_node_set::IdKeys;
use hg_script::run_script;

#[test]
fn a_script_is_read_byte_by_byte_and_each_line_and_its_end_is_one_write(rt: HostRuntime) {
    let script = b"node A\ncommit A a draft\nphase A a secret\nreport A\nagree A A\n";
    let mut writer = Noting {
        writes: 0,
        lines: 0,
    };
    let done = run_script(
        rt.alloc(),
        IdKeys::known(),
        &mut OneByte(script),
        &mut writer,
    );
    assert!(rt; done.is_ok());
    assert_eq!(rt; (writer.writes, writer.lines), (5, 5));
}

#[test]
fn a_read_that_fails_ends_a_script(rt: HostRuntime) {
    let alloc = rt.alloc();
    let mut writer = Vec::new(alloc);
    let done = run_script(alloc, IdKeys::known(), &mut Failing(10), &mut writer);
    assert!(rt; writer.is_empty());
    let fault = done.err().expect(&rt, "a fault");
    assert_eq!(rt; fault.status(), 1);
    let told = format!(in alloc; "{fault}").expect(&rt, "memory");
    assert_eq!(rt; told.as_str(), "read fault");
}

#[test]
fn a_write_that_fails_ends_a_script(rt: HostRuntime) {
    let alloc = rt.alloc();
    let mut script = b"node A\nreport A\nreport A\n".as_slice();
    let done = run_script(alloc, IdKeys::known(), &mut script, &mut Full(1));
    let fault = done.err().expect(&rt, "a fault");
    assert_eq!(rt; fault.status(), 1);
    let told = format!(in alloc; "{fault}").expect(&rt, "memory");
    assert_eq!(rt; told.as_str(), "write fault");
}
