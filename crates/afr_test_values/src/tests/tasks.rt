//! The tasks between a crawler and two heal workers.
use afr_base::{Gfid, What};
use afr_tasks::{MOST_TASKS, Task, Tasks, Worker};
use std::test::Fail;

fn file(number: u128) -> Task {
    Task::Heal(Gfid(number), What::File)
}

#[test]
fn each_worker_takes_the_task_that_waits_longest(rt: HostRuntime) -> Result<(), Fail> {
    let mut tasks = Tasks::empty(rt.alloc()).ok().ok_or("memory")?;
    for task in [file(1), file(2), Task::Stop] {
        assert!(rt; tasks.put(task));
    }
    assert!(rt; tasks.take(Worker::Third) == Some(file(1)));
    assert!(rt; tasks.take(Worker::Second) == Some(file(2)));
    assert_eq!(rt; tasks.queued(), 1);
    assert!(rt; tasks.take(Worker::Third) == Some(Task::Stop));
    assert!(rt; tasks.take(Worker::Second) == None);
    Ok(())
}

#[test]
fn no_more_tasks_wait_than_there_is_room_for(rt: HostRuntime) -> Result<(), Fail> {
    let mut tasks = Tasks::empty(rt.alloc()).ok().ok_or("memory")?;
    for _ in 0..MOST_TASKS {
        assert!(rt; tasks.put(Task::Stop));
    }
    assert!(rt; !tasks.put(Task::Stop));
    assert!(rt; tasks.take(Worker::Second) == Some(Task::Stop));
    assert!(rt; tasks.put(file(1)));
    Ok(())
}
