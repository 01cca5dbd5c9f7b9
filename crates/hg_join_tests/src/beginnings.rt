//! A journal that grows, and what was seen of it before.
ghost use Rattle.std.specs.Prelude.{◌≡◌};

use hg_journal::{JournalName, Opened};
use std::marker::Brand;

/// The lengths of a journal of one entry and of what was seen of it, and whether what was seen before begins it.
fn grown<K: JournalName>(opened: Opened<u64>) -> (u64, u64, bool)
    requires { opened ≡ K.book }
{
    let mut journal = opened.named::<K>();
    let none = journal.front();
    journal.extend(&none, &none, 7);
    let one = none.longer(&journal.front());
    (
        journal.len(),
        one.len(),
        none.begins(&one) && !one.is_same(&none),
    )
}

#[test]
fn what_was_seen_earlier_begins_what_is_seen_later(rt: HostRuntime) {
    let opened = Opened::new().expect(&rt, "nobody else adds to it");
    assert_eq!(rt; grown::<Brand>(opened), (1, 1, true));
}
