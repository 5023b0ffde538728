use book_rows::{Items, Refusal, Twin};
use std::alloc::Global;
use std::test::Fail;

#[test]
fn pushes_and_removes(rt: HostRuntime) -> Result<(), Fail> {
    let mut numbers = Items::from_vec([3u64, 5].to_vec(rt.alloc())?);
    numbers.push(3)?;
    assert!(rt; numbers.len() == 3);
    numbers.remove_equal(&3);
    assert!(rt; numbers.as_slice() == [5].as_slice());
    assert!(rt; numbers.into_vec().as_slice() == [5].as_slice());
    Ok(())
}

#[test]
fn makes_equal_items(rt: HostRuntime) -> Result<(), Fail> {
    let twin = Items::twin_of(rt.alloc(), [7u64, 8].as_slice())?;
    assert!(rt; twin.as_slice() == [7, 8].as_slice());
    assert!(rt; twin.twin(rt.alloc())?.as_slice() == [7, 8].as_slice());
    Ok(())
}

fn number(refusal: Refusal) -> u16 {
    let number = refusal.number();
    drop(refusal);
    number
}

#[test]
fn numbers_are_those_of_the_codes(rt: HostRuntime) {
    assert!(rt; number(Refusal::BadCommand) == 1);
    assert!(rt; number(Refusal::LockRevoked { by: 4 }) == 7);
    assert!(rt; number(Refusal::SequenceState { state: None }) == 27);
}

// The lock that is in the way of a drop.
fn blocker(refusal: &Refusal) -> Option<u64> {
    match refusal {
        Refusal::DropLocked { by } => Some(*by),
        _ => None,
    }
}

// The lock that a twin of the refusal names.
fn blocker_of_twin(alloc: Global, refusal: Refusal) -> Result<Option<u64>, Fail> {
    let twin = refusal.twin(alloc);
    drop(refusal);
    let twin = twin?;
    let by = blocker(&twin);
    drop(twin);
    Ok(by)
}

#[test]
fn makes_an_equal_refusal(rt: HostRuntime) -> Result<(), Fail> {
    let by = blocker_of_twin(rt.alloc(), Refusal::DropLocked { by: 4 })?;
    assert!(rt; by == Some(4));
    Ok(())
}
