//! chord_roll: how many cards count, whoever reads it, and that all are told to stop.
use chord_roll::Card;
use std::test::Fail;

#[test]
fn as_many_as_count(rt: HostRuntime) -> Result<(), Fail> {
    let mut main = Card::first(rt.alloc())?;
    let mut other = main.hire()?;
    assert_eq!(rt; (main.read(), other.read()), (0, 0));
    main.begin();
    main.begin();
    assert_eq!(rt; (main.read(), other.read()), (1, 1));
    other.begin();
    assert_eq!(rt; (main.read(), other.read()), (2, 2));
    assert!(rt; main.is_at_work() && other.is_at_work());
    main.end();
    assert_eq!(rt; (main.read(), other.read()), (1, 1));
    assert!(rt; !main.is_at_work() && other.is_at_work());
    other.end();
    other.end();
    assert_eq!(rt; (main.read(), other.read()), (0, 0));
    Ok(())
}

#[test]
fn all_are_told_to_stop(rt: HostRuntime) -> Result<(), Fail> {
    let mut main = Card::first(rt.alloc())?;
    let mut other = main.hire()?;
    assert!(rt; !main.has_stopped() && !other.has_stopped());
    other.stop();
    assert!(rt; main.has_stopped() && other.has_stopped());
    Ok(())
}
