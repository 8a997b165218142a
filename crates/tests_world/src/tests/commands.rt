//! Commands that are run by children over pools in memory.

use super::children::{children_of, with_end};
use super::{answered, is};
use std::alloc::Global;
use std::process::Abort;
use tests_pools::{Asked, before, extent_of, written};
use zr_exec::CliZfs;
use zr_model::MemSpawn;

/// Commands one after the other, with their answers; then the end of the record, with `~` for a tab and `$` for the end of a
/// line, and what has changed in the pools.
const BLOCKS: &str = "\
datasets_are_listed
now 200 txg 50 guid 50;tank @a:11:11:100 #a:11:11:100 @b:12:12:100[zrepl_last];tank/x placeholder;
  sets => tank -;tank/x on;
1 told, the last zfs list -H -p -t filesystem,volume -o name,zrepl:placeholder,receive_resume_token: done [tank~-~-$tank/x~on~-$]
=

versions_are_listed
now 200 txg 50 guid 50;tank @a:11:11:100 #a:11:11:100 @b:12:12:100[zrepl_last];tank/x placeholder;
  versions tank => @a:11:11:100:0;#a:11:11:100:0;@b:12:12:100:1;
1 told, the last zfs list -H -p -d 1 -t snapshot,bookmark -s createtxg -o name,guid,createtxg,creation,userrefs tank: done [tank@a~11~11~100~0$tank#a~11~11~100~-$tank@b~12~12~100~1$]
=

a_snapshot_is_destroyed
now 200 txg 50 guid 50;tank @a:11:11:100 #a:11:11:100 @b:12:12:100[zrepl_last];tank/x placeholder;
  destroy tank @a => done
1 told, the last zfs destroy tank@a: done []
=;tank #a:11:11:100 @b:12:12:100[zrepl_last];=;

a_held_snapshot_stays
now 200 txg 50 guid 50;tank @a:11:11:100 #a:11:11:100 @b:12:12:100[zrepl_last];tank/x placeholder;
  destroy tank @b => failed
1 told, the last zfs destroy tank@b: nonzero []
=

a_failed_destroy_may_have_come_whole
now 200 txg 50 guid 50;tank @a:11:11:100 #a:11:11:100 @b:12:12:100[zrepl_last];tank/x placeholder;
  whole destroy tank @a => failed
1 told, the last zfs destroy tank@a: failed []
=;tank #a:11:11:100 @b:12:12:100[zrepl_last];=;

a_failed_destroy_may_have_come_whole: no part of it comes
now 200 txg 50 guid 50;tank @a:11:11:100 #a:11:11:100 @b:12:12:100[zrepl_last];tank/x placeholder;
  part destroy tank @a => failed
1 told, the last zfs destroy tank@a: failed []
=

a_failed_destroy_may_have_come_whole: or nothing of it
now 200 txg 50 guid 50;tank @a:11:11:100 #a:11:11:100 @b:12:12:100[zrepl_last];tank/x placeholder;
  none destroy tank @a => failed
1 told, the last zfs destroy tank@a: failed []
=

only_the_planned_call_fails
now 200 txg 50 guid 50;tank @a:11:11:100 #a:11:11:100 @b:12:12:100[zrepl_last];tank/x placeholder;
  sets => tank -;tank/x on;
  none sets => failed
  sets => tank -;tank/x on;
3 told, the last zfs list -H -p -t filesystem,volume -o name,zrepl:placeholder,receive_resume_token: done [tank~-~-$tank/x~on~-$]
=

a_begun_run_is_recorded
now 200 txg 50 guid 50;tank @a:11:11:100 #a:11:11:100 @b:12:12:100[zrepl_last];tank/x placeholder;
  begin 7 => begun
1 told, the last run 7 of a scan of job 3 at 1000
=

a_whole_transfer_leaves_a_cursor
now 200 txg 50 guid 50;back;tank @a:11:11:100 @b:12:12:100;
  send tank a 11 full back/tank => done
  versions back/tank => @a:11:50:100:0;
  bookmark tank @a zrepl_CURSOR_G_000000000000000b_J_j => done
  versions tank => @a:11:11:100:0;#zrepl_CURSOR_G_000000000000000b_J_j:11:11:100:0;@b:12:12:100:0;
  destroy tank #zrepl_CURSOR_G_000000000000000b_J_j => done
  versions tank => @a:11:11:100:0;@b:12:12:100:0;
6 told, the last zfs list -H -p -d 1 -t snapshot,bookmark -s createtxg -o name,guid,createtxg,creation,userrefs tank: done [tank@a~11~11~100~0$tank@b~12~12~100~0$]
now 200 txg 51 guid 50;=;back/tank @a:11:50:100;=;

a_received_snapshot_is_held_and_released
now 200 txg 50 guid 50;back;tank @a:11:11:100 @b:12:12:100;
  send tank a 11 full back/tank => done
  hold back/tank a last j => done
  holds back/tank a => [zrepl_last_received_J_j]
  hold back/tank a last j => failed
  release back/tank a last j => done
  holds back/tank a => no rows
6 told, the last zfs holds -H back/tank@a: done []
now 200 txg 51 guid 50;=;back/tank @a:11:50:100;=;

an_increment_goes_from_the_cursor
now 200 txg 50 guid 50;back;tank @a:11:11:100 @b:12:12:100;
  send tank a 11 full back/tank => done
  bookmark tank @a zrepl_CURSOR_G_000000000000000b_J_j => done
  hold back/tank a last j => done
  send tank b 12 zrepl_CURSOR_G_000000000000000b_J_j 11 back/tank => done
  versions back/tank => @a:11:50:100:1;@b:12:51:100:0;
5 told, the last zfs list -H -p -d 1 -t snapshot,bookmark -s createtxg -o name,guid,createtxg,creation,userrefs back/tank: done [back/tank@a~11~50~100~1$back/tank@b~12~51~100~0$]
now 200 txg 52 guid 50;=;back/tank @a:11:50:100[zrepl_last_received_J_j] @b:12:51:100;tank @a:11:11:100 #zrepl_CURSOR_G_000000000000000b_J_j:11:11:100 @b:12:12:100;

a_placeholder_is_made_and_a_snapshot_taken_and_a_receive_given_up
now 200 txg 50 guid 50;back;tank @a:11:11:100 @b:12:12:100;
  create back/p => done
  snapshot tank c => done
  part send tank a 11 full back/p/tank => failed
  abort back/p/tank => done
  abort back/p/tank => failed
5 told, the last zfs receive -A back/p/tank: nonzero []
now 200 txg 51 guid 51;=;back/p placeholder;tank @a:11:11:100 @b:12:12:100 @c:50:50:200;

a_failed_transfer_may_have_come_at_any_extent
now 200 txg 50 guid 50;back;tank @a:11:11:100 @b:12:12:100;
  none send tank a 11 full back/tank => failed
  sets => back -;tank -;
2 told, the last zfs list -H -p -t filesystem,volume -o name,zrepl:placeholder,receive_resume_token: done [back~-~-$tank~-~-$]
=

a_failed_transfer_may_have_come_at_any_extent
now 200 txg 50 guid 50;back;tank @a:11:11:100 @b:12:12:100;
  part send tank a 11 full back/tank => failed
  sets => back -;back/tank - 1-000000000000000b-none-tank;tank -;
2 told, the last zfs list -H -p -t filesystem,volume -o name,zrepl:placeholder,receive_resume_token: done [back~-~-$back/tank~-~1-000000000000000b-none-tank$tank~-~-$]
=;=;back/tank partial 11 none tank;=;

a_failed_transfer_may_have_come_at_any_extent
now 200 txg 50 guid 50;back;tank @a:11:11:100 @b:12:12:100;
  whole send tank a 11 full back/tank => failed
  sets => back -;back/tank -;tank -;
2 told, the last zfs list -H -p -t filesystem,volume -o name,zrepl:placeholder,receive_resume_token: done [back~-~-$back/tank~-~-$tank~-~-$]
now 200 txg 51 guid 50;=;back/tank @a:11:50:100;=;

a_transfer_takes_the_guid_that_stands_on_its_source
now 200 txg 50 guid 50;back;tank @a:11:11:100 @b:12:12:100;
  send tank a 99 full back/tank => done
  versions back/tank => @a:11:50:100:0;
2 told, the last zfs list -H -p -d 1 -t snapshot,bookmark -s createtxg -o name,guid,createtxg,creation,userrefs back/tank: done [back/tank@a~11~50~100~0$]
now 200 txg 51 guid 50;=;back/tank @a:11:50:100;=;

what_a_token_says_is_listed_and_its_receive_is_resumed
now 200 txg 50 guid 50;back;tank @a:11:11:100 @b:12:12:100;
  part send tank a 11 full back/tank => failed
  token 1-000000000000000b-none-tank => to 11 in full
  part send tank a 11 resume 1-000000000000000b-none-tank none back/tank => failed
  send tank a 11 resume 1-000000000000000b-none-tank none back/tank => done
  token x => failed
5 told, the last zfs send -nvt x: nonzero []
now 200 txg 51 guid 50;=;back/tank @a:11:50:100;=;

what_a_token_says_is_listed_where_its_source_is_gone
now 200 txg 50 guid 50;back;tank @a:11:11:100 @b:12:12:100;
  part send tank a 11 full back/tank => failed
  destroy tank @a => done
  token 1-000000000000000b-none-tank => to 11 in full
  send tank a 11 resume 1-000000000000000b-none-tank none back/tank => failed
4 told, the last zfs send -t 1-000000000000000b-none-tank | zfs receive -s -u back/tank: failed
=;=;back/tank partial 11 none tank;tank @b:12:12:100;

a_pipe_counts_as_one_call
now 200 txg 50 guid 50;back;tank @a:11:11:100 @b:12:12:100;
  send tank a 11 full back/tank => done
  none sets => failed
  sets => back -;back/tank -;tank -;
3 told, the last zfs list -H -p -t filesystem,volume -o name,zrepl:placeholder,receive_resume_token: done [back~-~-$back/tank~-~-$tank~-~-$]
now 200 txg 51 guid 50;=;back/tank @a:11:50:100;=;";

#[derive(Drop)]
struct Runner {
    zfs: CliZfs<MemSpawn>,
}

impl Asked for Runner {
    fn came(&mut self, alloc: Global, ask: &str) -> Option<String> {
        let (_, ask) = extent_of(ask);
        answered(alloc, &mut self.zfs, ask)
    }
}

fn came<R: Abort>(rt: &R, alloc: Global, block: &str) -> Option<String> {
    let program = String::from_str(alloc, "zfs").ok()?;
    let spawn = children_of(rt, alloc, block)?;
    let zfs = CliZfs::new(spawn, program);
    let mut runner = Runner { zfs };
    let lines = written(alloc, block, &mut runner);
    let Runner { zfs } = runner;
    let spawn = zfs.spawn();
    let text = with_end(alloc, lines, &spawn, before(block));
    drop(spawn);
    text
}

#[test]
fn commands_by_children(rt: HostRuntime) {
    for block in BLOCKS.split("\n\n") {
        is(&rt, block, came(&rt, rt.alloc(), block));
    }
}
