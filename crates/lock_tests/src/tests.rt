use super::*;
use std::test::*;

#[test]
fn eight_threads_count_to_a_thousand(rt: HostRuntime) -> Result<(), Fail> {
    let log = count_in_threads(&rt, rt.alloc(), 8, 1000).ok_or("there is memory")?;
    assert_eq!(rt; log.notes.len(), 8000);
    for pass in 1..9u64 {
        assert!(rt;
            has_counted_to(log.notes.as_slice(), pass, 1000),
            "pass {pass}"
        );
    }
    Ok(())
}

// Whether the numbers under the pass's are those below the count, in order and each once.
fn has_counted_to(notes: &[(u64, u64)], pass: u64, count: u64) -> bool {
    let mut next: u64 = 0;
    for note in notes {
        if note.0 == pass {
            if note.1 != next {
                return false;
            }
            next = next.saturating_add(1);
        }
    }
    next == count
}
