// Tests of the queue.
use crate::asserts::{same, same_at};
use node_queue::Queue;
use std::test::Fail;

#[test]
fn oldest_of_least_bound_comes_first(rt: HostRuntime) -> Result<(), Fail> {
    let mut queue = Queue::new(rt.alloc());
    same(&rt, &queue.least(), &None);
    for (bound, item) in [(5, 10), (i128::MIN, 11), (i128::MAX, 12), (i128::MIN, 13)] {
        queue.put(bound, item)?;
    }
    for expected in [(i128::MIN, 11), (i128::MIN, 13), (5, 10), (i128::MAX, 12)] {
        let key = queue.least();
        same_at(
            &rt,
            &key.and_then(|key| queue.item(key)),
            &Some(expected.1),
            &expected,
        );
        same_at(
            &rt,
            &key.and_then(|key| queue.take(key)),
            &Some(expected),
            &expected,
        );
    }
    same(&rt, &queue.len(), &0);
    same(&rt, &queue.least(), &None);
    Ok(())
}

#[test]
fn keys_stand_by_age(rt: HostRuntime) -> Result<(), Fail> {
    let mut queue = Queue::new(rt.alloc());
    let first = queue.put(0, 1)?;
    let second = queue.put(0, 2)?;
    let third = queue.put(0, 3)?;
    same(&rt, &queue.take(second), &Some((0, 2)));
    same(&rt, &queue.take(second), &None);
    same(&rt, &queue.item(second), &None);
    let fourth = queue.put(0, 4)?;
    assert!(rt; queue.len() == 3);
    same(&rt, &queue.key(0), &first);
    same(&rt, &queue.key(1), &third);
    same(&rt, &queue.key(2), &fourth);
    Ok(())
}

/// The key of what is taken may come again, and does not make its new node older.
#[test]
fn ties_go_by_age(rt: HostRuntime) -> Result<(), Fail> {
    let mut queue = Queue::new(rt.alloc());
    let first = queue.put(5, 1)?;
    let second = queue.put(3, 2)?;
    queue.put(3, 3)?;
    same(&rt, &queue.least(), &Some(second));
    same(&rt, &queue.take(first), &Some((5, 1)));
    same(&rt, &queue.take(first), &None);
    queue.put(3, 4)?;
    same(&rt, &queue.least(), &Some(second));
    Ok(())
}
