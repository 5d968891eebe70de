//! The sessions of a brick.
use afr_base::ActorId;
use afr_session::Sessions;

const CLIENT: ActorId = ActorId(1);

const HEALER: ActorId = ActorId(19);

#[test]
fn each_session_has_an_epoch_of_its_own(rt: HostRuntime) {
    let mut sessions = Sessions::new();
    assert_eq!(rt; sessions.meet(CLIENT), Some(1));
    assert_eq!(rt; sessions.meet(CLIENT), Some(1));
    sessions.end(CLIENT);
    assert!(rt; !sessions.is_live(CLIENT, 1));
    assert_eq!(rt; sessions.meet(CLIENT), Some(2));
    sessions.cut(CLIENT);
    assert_eq!(rt; sessions.meet(CLIENT), None);
    sessions.join(CLIENT);
    assert!(rt; !sessions.is_live(CLIENT, 2));
    assert_eq!(rt; sessions.meet(CLIENT), Some(3));
}

#[test]
fn a_stop_ends_all_sessions(rt: HostRuntime) {
    let mut sessions = Sessions::new();
    assert_eq!(rt; sessions.meet(CLIENT), Some(1));
    assert_eq!(rt; sessions.meet(HEALER), Some(1));
    sessions.stop();
    assert!(rt; !sessions.is_up());
    assert_eq!(rt; sessions.meet(HEALER), None);
    sessions.start();
    assert!(rt; !sessions.is_live(HEALER, 1));
    assert_eq!(rt; sessions.meet(HEALER), Some(2));
    assert!(rt; sessions.is_live(HEALER, 2));
    assert!(rt; !sessions.is_live(CLIENT, 1));
}
