use super::map_in_order;
use std::sync::atomic::{AtomicU64, Ordering};
use std::test::Fail;

#[test]
fn answers_in_order(rt: HostRuntime) -> Result<(), Fail> {
    let items = vec![in rt.alloc(); 9u32, 4, 6, 2, 8]?;
    let answers = map_in_order(&rt, rt.alloc(), items, 3, &|item: u32| item / 2)?;
    assert_eq!(rt; answers.as_slice(), [4, 2, 3, 1, 4].as_slice());
    Ok(())
}

/// Raises the first flag, and waits for a while until the second one is raised.
fn sees(own: &AtomicU64, other: &AtomicU64) -> bool {
    own.store(1, Ordering::SeqCst);
    for _ in 0..100_000_000u32 {
        if other.load(Ordering::SeqCst) == 1 {
            return true;
        }
    }
    false
}

#[test]
fn two_workers_at_once(rt: HostRuntime) -> Result<(), Fail> {
    let left = AtomicU64::new(0);
    let right = AtomicU64::new(0);
    let items = vec![in rt.alloc(); true, false]?;
    let seen = map_in_order(
        &rt,
        rt.alloc(),
        items,
        2,
        &|is_left: bool| {
            if is_left {
                sees(&left, &right)
            } else {
                sees(&right, &left)
            }
        },
    )?;
    assert_eq!(rt; seen.as_slice(), [true, true].as_slice());
    Ok(())
}
