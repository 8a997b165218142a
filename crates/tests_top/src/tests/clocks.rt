//! How often the clock is asked: it is handed over, so no clause can tell.

ghost use Rattle.std.specs.Prelude.{None};

use super::{Given, children_of, ran_at};
use std::alloc::Global;
use std::process::Abort;
use std::sync::Wait;
use std::sync::atomic::{AtomicU32, Ordering};
use std::thread::Threads;
use zr_names::Moment;
use zr_top::Clock;

/// A clock that counts how often it was asked.
#[derive(Drop)]
struct Counted<'a> {
    asked: &'a AtomicU32,
}

impl<'a> Clock for Counted<'a> {
    ghost moments = { λ _. None };

    fn tick(&mut self) -> Option<Moment> {
        self.asked.fetch_add(1, Ordering::SeqCst);
        Moment::new(1_709_210_096_789)
    }
}

fn status<R: Abort + Threads + Wait + Sync>(
    rt: &R,
    alloc: Global,
    clock: Counted<'_>,
) -> Option<u8> {
    let given = Given {
        words: "once f",
        file: "snap",
        failing_put: 0,
    };
    let pools = "now 1000 txg 100 guid 100;tank @a:11:11:100;";
    let mut children = children_of(rt, alloc, pools, Vec::new(alloc))?;
    let ended = ran_at(rt, alloc, given, clock, &mut children)?;
    Some(ended.status)
}

#[test]
fn the_clock_is_asked_once(rt: HostRuntime) {
    let asked = AtomicU32::new(0);
    let status = status(&rt, rt.alloc(), Counted { asked: &asked });
    assert!(rt; status == Some(0));
    assert!(rt; asked.load(Ordering::SeqCst) == 1);
}
