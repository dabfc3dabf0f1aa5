use az_base::ThreadNo;
use std::test::*;
use zone_history::Journal;
use zone_model::{Call, Entry, Reply};

fn left(thread: ThreadNo) -> Entry {
    Entry {
        thread,
        call: Call::Leave,
        reply: Reply::Done,
    }
}

/// Room is found for three entries, of which two are owed; all three come.
fn takes_three(journal: &mut Journal, t: ThreadNo) -> bool {
    if journal.reserve(3).is_err() || journal.room() < 3 {
        return false;
    }
    journal.owe(2);
    journal.push_reserved(left(t));
    journal.push_owed(left(t));
    journal.push_owed(left(t));
    journal.owed() == 0 && journal.entries().len() == 3
}

/// What is owed is forgiven, and the room serves others.
fn forgives(journal: &mut Journal) -> bool {
    if journal.reserve(1).is_err() || journal.room() < 1 {
        return false;
    }
    journal.owe(1);
    journal.forgive();
    journal.owed() == 0 && journal.room() > 0
}

#[test]
fn reserved_and_owed_entries_come(rt: HostRuntime) -> Result<(), Fail> {
    let t = ThreadNo::new(16).expect(&rt, "a thread");
    let mut journal = Journal::new(rt.alloc());
    let came = takes_three(&mut journal, t) && forgives(&mut journal);
    assert!(rt; came);
    Ok(())
}
