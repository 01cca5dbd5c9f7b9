//! Input that doesn't end. What bytes are shown as, what is told of bytes at fault and of streams that fail, and what
//! is written, is shown by cases of `examples/`.
use hg_show::{Form, ShowFault, show};
use std::io;
use std::io::BufReader;

#[test]
fn input_that_does_not_end_is_refused(rt: HostRuntime) {
    let alloc = rt.alloc();
    let mut writer = Vec::new(alloc);
    let mut reader = BufReader::new(alloc, io::repeat(b'0')).expect(&rt, "memory");
    let done = show(alloc, Form::Roots, &mut reader, &mut writer);
    assert!(rt; done == Err(ShowFault::TooLong));
}
