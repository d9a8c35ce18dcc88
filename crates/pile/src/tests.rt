use crate::live::{LiveLowest, empty_live};
use crate::pile::pile_over;
use locks::allowance::Allowance;
use locks::lock::{LiveLock, Lock};
use locks::marks::Marks;
use lowest::facts::{Change, FactLock, Rule};
use lowest::lowest::Lowest;
use std::alloc::Global;
use std::process::Abort;
use std::test::Fail;

const UNTIL_SHUT: Rule = Rule { need: 0, lack: 2 };

fn setting(set: u16) -> Change {
    Change {
        need: 0,
        lack: 0,
        set,
        clear: 0,
    }
}

// Facts wound and shut; wind 0 winds, wind 1 does nothing, close 0 shuts.
fn clock(rt: &impl Abort, heap: Global) -> Result<LiveLowest, Fail> {
    let Ok(mut lock) = FactLock::new(heap, 2, 2, 0) else {
        return Err(Fail::new("no lock"));
    };
    assert!(rt; lock.add_rule(0, UNTIL_SHUT).is_ok() && lock.add_rule(1, UNTIL_SHUT).is_ok());
    assert!(rt; lock.add_change(0, 0, setting(1)).is_ok());
    assert!(rt; lock.add_change(0, 1, setting(0)).is_ok());
    assert!(rt; lock.add_change(1, 0, setting(2)).is_ok());
    let Ok(live) = LiveLowest::new(Lowest::Facts(lock)) else {
        return Err(Fail::new("not live"));
    };
    Ok(live)
}

#[test]
fn a_mark_is_borne_once(rt: HostRuntime) -> Result<(), Fail> {
    let live = clock(&rt, rt.alloc())?;
    let mut marks = Marks::none();
    assert!(rt; marks.add(0, 1));
    let Ok(pile) = pile_over(live, marks, 1) else {
        return Err(Fail::new("refused"));
    };
    assert_eq!(rt; pile.states(), 8);
    assert_eq!(rt; pile.first(), 1);
    assert!(rt; pile.possible(1, 0, 1));
    assert_eq!(rt; pile.after(1, 0, 1), 0);
    assert!(rt; !pile.possible(0, 0, 1));
    assert_eq!(rt; pile.after(0, 0, 0), 2);
    assert_eq!(rt; pile.named(0, 0), 0);
    assert_eq!(rt; pile.named(4, 0), 255);
    Ok(())
}

#[test]
fn a_layer_of_a_layer_is_a_lock(rt: HostRuntime) -> Result<(), Fail> {
    let live = clock(&rt, rt.alloc())?;
    let mut marks = Marks::none();
    assert!(rt; marks.add(0, 0));
    let Ok(one) = Allowance::new(live, marks, 0) else {
        return Err(Fail::new("refused"));
    };
    let Ok(two) = Allowance::new(one, Marks::none(), 2) else {
        return Err(Fail::new("refused"));
    };
    assert_eq!(rt; two.states(), 12);
    assert_eq!(rt; two.first(), 2);
    assert_eq!(rt; two.named(2, 0), 1);
    assert_eq!(rt; two.after(2, 1, 0), 8);
    Ok(())
}

#[test]
fn an_allowance_above_seven_is_refused(rt: HostRuntime) {
    assert!(rt; pile_over(empty_live(), Marks::none(), 8).is_err());
    assert!(rt; pile_over(empty_live(), Marks::none(), 7).is_ok());
}
