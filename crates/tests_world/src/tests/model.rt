//! What each command does to the model, or why it is refused.

use super::is;
use std::alloc::Global;
use tests_pools::{Asked, answer_text, before, changed, command_of, extent_of, pools_of, written};
use zr_command::Answer;
use zr_world::{ApplyFault, Extent, Pools, Refusal, apply};

/// Stands in each pools behind the datasets of the block.
const TANK: &str =
    "tank @a:11:1:1011 #a:11:1:1011 @b:12:2:1012[zrepl_STEP_J_push,x,zrepl_last_received_J_push] #b:12:2:1012 @c:13:3:1013[zrepl_STEP_J_push];";

/// Each command with its answer or why it is refused, and what has changed in the pools, before its effect, after a part of
/// it and after the whole, or once where the three are the same; behind `chosen` and a number, after these names of it. The targets of the refused commands are: one whose newest
/// snapshot is that of the bookmark `tank#b`; one with a partial receive beside a snapshot; one in its first receive; one
/// with an older snapshot; a placeholder; and one that has a snapshot `c` already.
const BLOCKS: &str = "\
commands_change_one_version_of_one_dataset
now 9000 txg 100 guid 500;back @a:11:7:1011 #b:12:8:1012;
  sets => done = / done = / back -;tank -; =
  versions tank => done = / done = / @a:11:1:1011:0;#a:11:1:1011:0;@b:12:2:1012:3;#b:12:2:1012:0;@c:13:3:1013:1; =
  holds tank b => done = / done = / [zrepl_STEP_J_push,x,zrepl_last_received_J_push] =
  hold tank a step push => done = / done = / done =;=;tank @a:11:1:1011[zrepl_STEP_J_push] #a:11:1:1011 @b:12:2:1012[zrepl_STEP_J_push,x,zrepl_last_received_J_push] #b:12:2:1012 @c:13:3:1013[zrepl_STEP_J_push];
  hold tank b step pull => done = / done = / done =;=;tank @a:11:1:1011 #a:11:1:1011 @b:12:2:1012[zrepl_STEP_J_push,x,zrepl_last_received_J_push,zrepl_STEP_J_pull] #b:12:2:1012 @c:13:3:1013[zrepl_STEP_J_push];
  hold tank c last push => done = / done = / done =;=;tank @a:11:1:1011 #a:11:1:1011 @b:12:2:1012[zrepl_STEP_J_push,x,zrepl_last_received_J_push] #b:12:2:1012 @c:13:3:1013[zrepl_STEP_J_push,zrepl_last_received_J_push];
  release tank b step push => done = / done = / done =;=;tank @a:11:1:1011 #a:11:1:1011 @b:12:2:1012[x,zrepl_last_received_J_push] #b:12:2:1012 @c:13:3:1013[zrepl_STEP_J_push];
  release tank c step push => done = / done = / done =;=;tank @a:11:1:1011 #a:11:1:1011 @b:12:2:1012[zrepl_STEP_J_push,x,zrepl_last_received_J_push] #b:12:2:1012 @c:13:3:1013;
  bookmark tank @a n => done = / done = / done =;=;tank @a:11:1:1011 #a:11:1:1011 #n:11:1:1011 @b:12:2:1012[zrepl_STEP_J_push,x,zrepl_last_received_J_push] #b:12:2:1012 @c:13:3:1013[zrepl_STEP_J_push];
  bookmark tank @b a2 => done = / done = / done =;=;tank @a:11:1:1011 #a:11:1:1011 @b:12:2:1012[zrepl_STEP_J_push,x,zrepl_last_received_J_push] #a2:12:2:1012 #b:12:2:1012 @c:13:3:1013[zrepl_STEP_J_push];
  bookmark tank @c c => done = / done = / done =;=;tank @a:11:1:1011 #a:11:1:1011 @b:12:2:1012[zrepl_STEP_J_push,x,zrepl_last_received_J_push] #b:12:2:1012 @c:13:3:1013[zrepl_STEP_J_push] #c:13:3:1013;
  bookmark tank #b n => done = / done = / done =;=;tank @a:11:1:1011 #a:11:1:1011 @b:12:2:1012[zrepl_STEP_J_push,x,zrepl_last_received_J_push] #b:12:2:1012 #n:12:2:1012 @c:13:3:1013[zrepl_STEP_J_push];
  destroy tank @a => done = / done = / done =;=;tank #a:11:1:1011 @b:12:2:1012[zrepl_STEP_J_push,x,zrepl_last_received_J_push] #b:12:2:1012 @c:13:3:1013[zrepl_STEP_J_push];
  destroy tank #b => done = / done = / done =;=;tank @a:11:1:1011 #a:11:1:1011 @b:12:2:1012[zrepl_STEP_J_push,x,zrepl_last_received_J_push] @c:13:3:1013[zrepl_STEP_J_push];

destroys_of_several_take_those_that_are_there
now 9000 txg 100 guid 500;back @a:11:7:1011 @d:14:8:1014 @e:15:9:1015[x] @f:16:10:1016;
  destroy back @a,d => done = / done = / done =;back @e:15:9:1015[x] @f:16:10:1016;=;
  destroy back @d,no,a => done = / done = / done =;back @e:15:9:1015[x] @f:16:10:1016;=;
  destroy back @no,f => done = / done = / done =;back @a:11:7:1011 @d:14:8:1014 @e:15:9:1015[x];=;
  chosen 1 destroy back @d,a,f => done =;back @a:11:7:1011 @e:15:9:1015[x] @f:16:10:1016;=;
  chosen 6 destroy back @d,a,f => done =;back @d:14:8:1014 @e:15:9:1015[x];=;
  chosen 5 destroy back @a,no,f => done =;back @d:14:8:1014 @e:15:9:1015[x];=;
  chosen 2 destroy back @a,no,f => done =
  chosen 0 destroy back @a,f => done =
  chosen 8 destroy back @a,d,f => done =
  chosen 18446744073709551615 destroy back @a => done =;back @d:14:8:1014 @e:15:9:1015[x] @f:16:10:1016;=;
  chosen 1 destroy tank #a => done =
  chosen 1 hold tank a step push => done =

destroys_of_several_are_refused_for_the_first_reason
now 9000 txg 100 guid 500;back @a:11:7:1011 @d:14:8:1014 @e:15:9:1015[x] @f:16:10:1016;
  destroy none @a,d => NoSuch =
  destroy back @no,b => NoSuch =
  chosen 1 destroy back @no,b => NoSuch =
  destroy back @a,e => Held =
  destroy back @e,no => Held =
  chosen 1 destroy back @a,e => Held =

listings_give_the_rows_of_what_stands
now 9000 txg 100 guid 500;back placeholder partial 11 none tank;cut partial 18 17 tank;
  sets => done = / done = / back on 1-000000000000000b-none-tank;cut - 1-0000000000000012-0000000000000011-tank;tank -; =
  versions tank => done = / done = / @a:11:1:1011:0;#a:11:1:1011:0;@b:12:2:1012:3;#b:12:2:1012:0;@c:13:3:1013:1; =
  versions back => done = / done = / no rows =
  holds tank b => done = / done = / [zrepl_STEP_J_push,x,zrepl_last_received_J_push] =
  destroy tank @a => done = / done = / done =;=;=;tank #a:11:1:1011 @b:12:2:1012[zrepl_STEP_J_push,x,zrepl_last_received_J_push] #b:12:2:1012 @c:13:3:1013[zrepl_STEP_J_push];

a_snapshot_has_the_next_guid_and_transaction_group
now 9000 txg 100 guid 500;back placeholder partial 11 none tank;
  snapshot back a => done = / done = / done now 9000 txg 101 guid 501;back placeholder partial 11 none tank @a:500:100:9000;=;
  snapshot tank d => done = / done = / done now 9000 txg 101 guid 501;=;tank @a:11:1:1011 #a:11:1:1011 @b:12:2:1012[zrepl_STEP_J_push,x,zrepl_last_received_J_push] #b:12:2:1012 @c:13:3:1013[zrepl_STEP_J_push] @d:500:100:9000;

a_snapshot_takes_the_last_guid_and_transaction_group_but_one
now 9000 txg 18446744073709551614 guid 18446744073709551614;
  snapshot tank d => done = / done = / done now 9000 txg 18446744073709551615 guid 18446744073709551615;tank @a:11:1:1011 #a:11:1:1011 @b:12:2:1012[zrepl_STEP_J_push,x,zrepl_last_received_J_push] #b:12:2:1012 @c:13:3:1013[zrepl_STEP_J_push] @d:18446744073709551614:18446744073709551614:9000;

snapshots_are_refused_for_the_first_reason
now 9000 txg 18446744073709551615 guid 500;
  snapshot none a => NoSuch =
  snapshot tank a => Exists =
  snapshot tank d => Spent =

snapshots_are_refused_for_the_first_reason: no guid is left
now 9000 txg 100 guid 18446744073709551615;
  snapshot none a => NoSuch =
  snapshot tank a => Exists =
  snapshot tank d => Spent =

placeholders_are_made_in_the_order_of_paths
now 9000 txg 18446744073709551615 guid 18446744073709551615;back;back/cut partial 12 11 tank @a:11:30:1011;back/place placeholder partial 11 none tank;
  create back/new => done = / done = / done =;=;=;back/new placeholder;=;=;
  create back/cut/new => done = / done = / done =;=;=;back/cut/new placeholder;=;=;
  create back/place/new => done = / done = / done =;=;=;=;back/place/new placeholder;=;
  create tank/a => done = / done = / done =;=;=;=;=;tank/a placeholder;

placeholders_are_refused_for_the_first_reason
now 9000 txg 100 guid 500;back;back/first partial 11 none tank;
  create tank => Exists =
  create back/first => Exists =
  create new => NoSuch =
  create none/new => NoSuch =
  create back/none/new => NoSuch =
  create back/first/new => HasPartial =

a_token_says_which_guids_its_stream_has
now 9000 txg 18446744073709551615 guid 500;back placeholder partial 11 none tank;
  token 1-000000000000000b-none-tank => done = / done = / to 11 in full =
  token 1-000000000000000d-000000000000000c-tank => done = / done = / to 13 from 12 =
  token 1-00000000000000ff-00000000000abcde-none/x => done = / done = / to 255 from 703710 =

what_is_no_token_of_the_model_is_refused
now 9000 txg 100 guid 500;back placeholder partial 11 none tank;
  token x => NoSuch =
  token 1- => NoSuch =
  token 2-000000000000000b-none-tank => NoSuch =
  token 1-000000000000000B-none-tank => NoSuch =
  token 1-00000000000000b-none-tank => NoSuch =
  token 1-000000000000000b-nope-tank => NoSuch =
  token 1-000000000000000b-000000000000000g-tank => NoSuch =
  token 1-000000000000000b-none-tank/ => NoSuch =
  token 1-000000000000000b-none- => NoSuch =
  token 1-zzzzzzzzzzzzzzzz-none-tank => NoSuch =

a_resume_completes_its_partial_receive
now 9000 txg 100 guid 500;back placeholder partial 11 none tank;back/cut partial 13 12 tank @b:12:30:1012;
  send tank a 11 resume 1-000000000000000b-none-tank none back => done = / done = / done now 9000 txg 101 guid 500;back placeholder @a:11:100:1011;=;=;
  send tank c 13 resume 1-000000000000000d-000000000000000c-tank 12 back/cut => done = / done = / done now 9000 txg 101 guid 500;=;back/cut @b:12:30:1012 @c:13:100:1013;=;
  send tank c 13 resume 1-000000000000000d-000000000000000c-tank 12 back/cut force => done = / done = / done now 9000 txg 101 guid 500;=;back/cut @b:12:30:1012 @c:13:100:1013;=;

resumes_are_refused_for_the_first_reason
now 9000 txg 100 guid 500;back placeholder;back/cut partial 13 12 tank @b:12:30:1012;back/first partial 11 none tank;back/twice partial 13 12 tank @c:99:31:1099;
  send none z 11 resume 1-000000000000000b-none-tank none back/none => NoSuch =
  send none z 11 resume 1-000000000000000b-none-tank none back => NoPartial =
  send none z 13 resume 1-000000000000000b-none-tank none back/cut => NotNewest =
  send tank a 11 resume 1-000000000000000d-000000000000000c-tank 12 back/first => NotNewest =
  send none c 13 resume 1-000000000000000d-000000000000000c-tank 12 back/cut => NoSuch =
  send tank z 13 resume 1-000000000000000d-000000000000000c-tank 12 back/cut => NoSuch =
  send tank c 12 resume 1-000000000000000d-000000000000000c-tank 12 back/cut => NoSuch =
  send tank c 13 resume 1-000000000000000d-000000000000000c-tank 99 back/twice => NoSuch =
  send tank c 13 resume 1-000000000000000d-000000000000000c-tank 12 back/twice => Exists =

resumes_are_refused_at_the_last_transaction_group
now 9000 txg 18446744073709551615 guid 500;back placeholder;back/cut partial 13 12 tank @b:12:30:1012;back/twice partial 13 12 tank @c:99:31:1099;
  send tank z 13 resume 1-000000000000000d-000000000000000c-tank 12 back/cut => NoSuch =
  send tank c 13 resume 1-000000000000000d-000000000000000c-tank 12 back/twice => Exists =
  send tank c 13 resume 1-000000000000000d-000000000000000c-tank 12 back/cut => Spent =

an_abort_takes_the_partial_receive
now 9000 txg 18446744073709551615 guid 18446744073709551615;back/cut partial 12 11 tank @a:11:30:1011;back/first partial 11 none tank #m:11:40:1011;back/place placeholder partial 11 none tank;
  abort back/cut => done = / done = / done =;back/cut @a:11:30:1011;=;=;=;
  abort back/first => done = / done = / done =;=;=;=;
  abort back/place => done = / done = / done =;=;=;back/place placeholder;=;

aborts_are_refused_for_the_first_reason
now 9000 txg 100 guid 500;back placeholder;
  abort none => NoSuch =
  abort back => NoPartial =
  abort tank => NoPartial =

commands_are_refused_for_the_first_reason
now 9000 txg 100 guid 500;back;back/behind @b:12:20:1012 #n:13:21:1013;back/cut partial 12 11 tank @a:11:30:1011;back/first partial 11 none tank;back/old @a:11:30:1011;back/place placeholder;back/twice @c:99:31:1099 @b:12:32:1012;
  versions tank/none => NoSuch =
  holds tank z => NoSuch =
  holds none a => NoSuch =
  hold tank z step push => NoSuch =
  hold none b step push => NoSuch =
  hold tank b step push => TagThere =
  release tank z step push => NoSuch =
  release tank a step push => TagMissing =
  release tank c last push => TagMissing =
  release tank c step pull => TagMissing =
  bookmark tank @z b => NoSuch =
  bookmark tank #c n => NoSuch =
  bookmark none @a n => NoSuch =
  bookmark tank @a b => Exists =
  bookmark tank #b b => Exists =
  destroy tank @z => NoSuch =
  destroy none @a => NoSuch =
  destroy tank @b => Held =
  destroy tank #c => NoSuch =
  destroy none #a => NoSuch =

full_transfers_are_refused_for_the_first_reason
now 9000 txg 100 guid 500;back;back/behind @b:12:20:1012 #n:13:21:1013;back/cut partial 12 11 tank @a:11:30:1011;back/first partial 11 none tank;back/old @a:11:30:1011;back/place placeholder;back/twice @c:99:31:1099 @b:12:32:1012;
  send none a 11 full back/new => NoSuch =
  send tank z 11 full back/new => NoSuch =
  send tank a 12 full back/new => NoSuch =
  send tank a 12 full back/cut force => NoSuch =
  send tank a 11 full none/new force => NoSuch =
  send tank a 11 full back/none/new => NoSuch =
  send tank a 11 full new => NoSuch =
  send tank a 11 full back/first/new => HasPartial =
  send tank a 11 full back/first force => HasPartial =
  send tank a 11 full back/first => HasPartial =
  send tank a 11 full back/cut force => HasPartial =
  send tank a 11 full back/place => Exists =
  send tank a 11 full back/old force => Exists =
  send tank a 11 full back/old => Exists =
  send tank a 11 full tank force => Exists =

increments_are_refused_for_the_first_reason
now 9000 txg 100 guid 500;back;back/behind @b:12:20:1012 #n:13:21:1013;back/cut partial 12 11 tank @a:11:30:1011;back/first partial 11 none tank;back/old @a:11:30:1011;back/place placeholder;back/twice @c:99:31:1099 @b:12:32:1012;
  send tank z 13 b 12 back/behind => NoSuch =
  send tank c 12 b 12 back/behind => NoSuch =
  send tank c 13 c 13 back/behind => NoSuch =
  send tank c 13 b 13 back/cut => NoSuch =
  send tank c 13 b 12 back/new => NoSuch =
  send tank c 13 b 12 back/cut => HasPartial =
  send tank c 13 b 12 back/first => HasPartial =
  send tank c 13 b 12 back/old => NotNewest =
  send tank c 13 b 12 back/place => NotNewest =
  send tank c 13 b 12 back/old force => NotNewest =
  send tank c 13 b 12 tank => NotNewest =
  send tank c 13 b 12 back/twice => Exists =

transfers_are_refused_at_the_last_transaction_group
now 9000 txg 18446744073709551615 guid 500;back;back/behind @b:12:20:1012 #n:13:21:1013;back/cut partial 12 11 tank @a:11:30:1011;back/first partial 11 none tank;back/old @a:11:30:1011;back/place placeholder;back/twice @c:99:31:1099 @b:12:32:1012;
  send tank a 11 full back/new => Spent =
  send tank a 11 full back/place force => Spent =
  send tank c 13 b 12 back/behind => Spent =
  send tank a 11 full none/new => NoSuch =
  send tank a 11 full back/first/new => HasPartial =
  send tank a 11 full back/place => Exists =
  send tank c 13 b 12 back/cut => HasPartial =
  send tank c 13 b 12 back/old => NotNewest =
  send tank c 13 b 12 back/twice => Exists =

transfers_come_as_far_as_their_extent
now 9000 txg 100 guid 500;back;back/x;
  send tank b 12 full back/new => done = / done =;=;back/new partial 12 none tank;=;=; / done now 9000 txg 101 guid 500;=;back/new @b:12:100:1012;=;=;

transfers_come_as_far_as_their_extent
now 9000 txg 100 guid 500;back placeholder partial 11 none tank;
  send tank b 12 full back/new force => done = / done =;=;back/new partial 12 none tank;=; / done now 9000 txg 101 guid 500;=;back/new @b:12:100:1012;=;

transfers_come_as_far_as_their_extent
now 9000 txg 100 guid 500;back partial 12 11 tank @a:11:30:1011;
  send tank a 11 full back/new => done = / done =;=;back/new partial 11 none tank;=; / done now 9000 txg 101 guid 500;=;back/new @a:11:100:1011;=;

transfers_come_as_far_as_their_extent
now 9000 txg 100 guid 500;back placeholder;
  send tank a 11 full back force => done = / done =;back placeholder partial 11 none tank;=; / done now 9000 txg 101 guid 500;back placeholder @a:11:100:1011;=;

transfers_come_as_far_as_their_extent
now 9000 txg 100 guid 500;back #n:11:40:1011;
  send tank a 11 full back force => done = / done =;back partial 11 none tank #n:11:40:1011;=; / done now 9000 txg 101 guid 500;back #n:11:40:1011 @a:11:100:1011;=;

transfers_come_as_far_as_their_extent
now 9000 txg 100 guid 500;back @b:12:20:1012[x] #n:13:21:1013;
  send tank c 13 b 12 back => done = / done =;back partial 13 12 tank @b:12:20:1012[x] #n:13:21:1013;=; / done now 9000 txg 101 guid 500;back @b:12:20:1012[x] #n:13:21:1013 @c:13:100:1013;=;

transfers_come_as_far_as_their_extent
now 9000 txg 100 guid 500;back placeholder @other:11:20:1011;
  send tank b 12 a 11 back force => done = / done =;back placeholder partial 12 11 tank @other:11:20:1011;=; / done now 9000 txg 101 guid 500;back placeholder @other:11:20:1011 @b:12:100:1012;=;

transfers_come_as_far_as_their_extent
now 9000 txg 100 guid 500;back @b:12:20:1012;
  send back b 12 full back/copy => done = / done =;=;back/copy partial 12 none back;=; / done now 9000 txg 101 guid 500;=;back/copy @b:12:100:1012;=;

a_transfer_takes_the_last_transaction_group_but_one
now 9000 txg 18446744073709551614 guid 500;
  send tank a 11 full tank/new => done = / done =;=;tank/new partial 11 none tank; / done now 9000 txg 18446744073709551615 guid 500;=;tank/new @a:11:18446744073709551614:1011;";

fn reason(why: Refusal) -> &'static str {
    match why {
        Refusal::NoSuch => "NoSuch",
        Refusal::Exists => "Exists",
        Refusal::Held => "Held",
        Refusal::TagThere => "TagThere",
        Refusal::TagMissing => "TagMissing",
        Refusal::NotNewest => "NotNewest",
        Refusal::HasPartial => "HasPartial",
        Refusal::NoPartial => "NoPartial",
        Refusal::Spent => "Spent",
    }
}

/// The answer to a command that comes as far as this extent, or why it is refused.
fn answer(alloc: Global, pools: &mut Pools, ask: &str, extent: Extent) -> Option<String> {
    let cmd = command_of(alloc, ask)?;
    let applied = apply(alloc, pools, &cmd, extent);
    drop(cmd);
    match applied {
        Ok(reply) => answer_text(alloc, &Answer::Done(reply)).ok(),
        Err(ApplyFault::Refused(why)) => String::from_str(alloc, reason(why)).ok(),
        Err(ApplyFault::NoMemory) => None,
    }
}

/// What stands before the commands of a block.
#[derive(Drop)]
struct Before {
    text: String,
}

impl Before {
    /// The answer to a command and what has changed then.
    fn came_to(&self, alloc: Global, ask: &str, extent: Extent) -> Option<String> {
        let mut pools = pools_of(alloc, self.text.as_str())?;
        let answer = answer(alloc, &mut pools, ask, extent)?;
        let changed = changed(alloc, self.text.as_str(), &pools);
        drop(pools);
        let changed = changed.ok()?;
        format!(in alloc; "{answer} {changed}").ok()
    }
}

impl Asked for Before {
    fn came(&mut self, alloc: Global, ask: &str) -> Option<String> {
        if let (Some(extent), ask) = extent_of(ask) {
            return self.came_to(alloc, ask, extent);
        }
        let none = self.came_to(alloc, ask, Extent::None)?;
        let part = self.came_to(alloc, ask, Extent::Part)?;
        let whole = self.came_to(alloc, ask, Extent::Whole)?;
        if none == part && part == whole {
            return Some(whole);
        }
        format!(in alloc; "{none} / {part} / {whole}").ok()
    }
}

fn came(alloc: Global, block: &str) -> Option<String> {
    let text = format!(in alloc; "{}{TANK}", before(block)).ok()?;
    written(alloc, block, &mut Before { text })
}

#[test]
fn commands_on_the_model(rt: HostRuntime) {
    for block in BLOCKS.split("\n\n") {
        is(&rt, block, came(rt.alloc(), block));
    }
}
