// No places, all places, one place too many, and layer over layer.
use layers::Slot;
use queues::{Back, End, Front, Queue, Stack};
use schedule::Schedule;
use std::collections::VecDeque;
use std::test::Fail;

#[test]
fn no_places(rt: HostRuntime) -> Result<(), Fail> {
    let mut queue = Queue::new(rt.alloc(), 0)?;
    assert_eq!(rt; queue.places(), 0);
    assert!(rt; !queue.put(0, false));
    assert_eq!(rt; queue.take(), None);
    Ok(())
}

#[test]
fn sixty_five_places_are_64(rt: HostRuntime) -> Result<(), Fail> {
    let mut stack = Stack::new(rt.alloc(), 65)?;
    assert_eq!(rt; stack.places(), 64);
    for bay in 0..64u32 {
        assert!(rt; stack.put(bay, false));
    }
    assert!(rt; !stack.put(64, false));
    assert_eq!(rt; stack.len(), 64);
    assert_eq!(rt; stack.take(), Some(63));
    Ok(())
}

#[test]
fn a_full_queue_refuses_and_stays(rt: HostRuntime) -> Result<(), Fail> {
    let mut queue = Queue::new(rt.alloc(), 2)?;
    assert!(rt; queue.put(5, false));
    assert!(rt; !queue.put(5, true), "an entry already");
    assert!(rt; queue.put(63, true));
    assert!(rt; !queue.put(6, false), "full");
    assert!(rt; !queue.holds(6));
    assert_eq!(rt; queue.take(), Some(5));
    assert_eq!(rt; queue.take(), Some(63));
    assert_eq!(rt; queue.peek(), None);
    Ok(())
}

#[test]
fn slot_over_slot(rt: HostRuntime) -> Result<(), Fail> {
    let mut policy = Slot::new(Slot::new(Queue::new(rt.alloc(), 64)?));
    assert!(rt; policy.put(1, false));
    assert!(rt; policy.put(2, false), "1 goes into the slot below");
    assert!(rt; policy.put(3, true), "3 goes to the queue");
    assert!(rt;
        policy.put(4, false),
        "2 goes into the slot below, and 1 to the queue"
    );
    assert_eq!(rt; policy.len(), 4);
    assert_eq!(rt; policy.take(), Some(4));
    assert_eq!(rt; policy.take(), Some(2));
    assert_eq!(rt; policy.take(), Some(3));
    assert_eq!(rt; policy.take(), Some(1));
    Ok(())
}

#[test]
fn a_bay_joins_at_either_end(rt: HostRuntime) -> Result<(), Fail> {
    let mut bays = VecDeque::with_capacity(rt.alloc(), 3)?;
    Back::join(&mut bays, 7)?;
    Back::join(&mut bays, 8)?;
    Front::join(&mut bays, 3)?;
    assert_eq!(rt; bays.pop_front(), Some(3));
    assert_eq!(rt; bays.pop_front(), Some(7));
    assert_eq!(rt; bays.pop_front(), Some(8));
    Ok(())
}
