//! Plans by the versions of a source and of a target.

use super::is;
use std::alloc::{AllocError, Global};
use tests_pools::{Asked, before, job, number, rows_of, shown, written};
use zr_command::{VersionRow, is_snap};
use zr_names::{Guid, Initial};
use zr_plan::{Conflict, Planned, Source, Step, Target, TokenInfo, plan};

/// What is known of the target, the policy and the guids of a partial receive; then the rows of the source and the target,
/// each with its guid and its transaction group, and the plan of the job `push`. The source's marks are the bookmarks of its
/// listing, or those behind `with`; behind `then` stands what the target received since it was listed.
const BLOCKS: &str = "\
plans_onto_a_target_with_versions: the target has what the source has
there fail
  @a:1:10 onto @a:1:5 => up to date

plans_onto_a_target_with_versions: every later snapshot, in the order of the listing; bookmarks are never sent
there fail
  @a:1:10 #zrepl_CURSOR_G_0000000000000001_J_push:1:10 @b:2:20 @c:3:30 #m:3:30 onto @a:1:5 => step b 2;step c 3;

plans_onto_a_target_with_versions: a snapshot of the same transaction group is not later
there fail
  @a:1:10 @b:2:10 @c:3:20 onto @a:1:5 => step c 3;

plans_onto_a_target_with_versions: of two snapshots with one guid the later one counts too
there fail
  @a:1:10 @b:2:20 @again:1:30 @c:3:40 onto @a:1:5 => step c 3;
  #zrepl_CURSOR_G_0000000000000001_J_push:1:10 @b:2:20 @again:1:30 @c:3:40 onto @a:1:5 => step c 3;

plans_onto_a_target_with_versions: the cursor or the tentative cursor alone will do
there fail
  #zrepl_CURSOR_G_0000000000000001_J_push:1:10 @b:2:20 onto @a:1:5 => step b 2;
  #zrepl_CURSORTENTATIVE_G_0000000000000001_J_push:1:10 @b:2:20 onto @a:1:5 => step b 2;

plans_onto_a_target_with_versions: a cursor's guid is the one in its name
there fail
  #zrepl_CURSOR_G_0000000000000001_J_push:7:10 @b:2:20 onto @a:1:5 => step b 2;

plans_onto_a_target_with_versions: the cursor goes before a snapshot, and that before the tentative cursor
there fail
  @a:1:10 @b:2:20 #zrepl_CURSOR_G_0000000000000001_J_push:1:25 @c:3:30 onto @a:1:5 => step c 3;
  @a:1:10 @b:2:20 #zrepl_CURSORTENTATIVE_G_0000000000000001_J_push:1:25 @c:3:30 onto @a:1:5 => step b 2;step c 3;

plans_onto_a_target_with_versions: the cursor of another job is nothing to this one, and neither is the old one that names no job
there fail
  #zrepl_CURSOR_G_0000000000000001_J_pull:1:10 @b:2:20 onto @a:1:5 => no common
  #zrepl_replication_cursor:1:10 @b:2:20 onto @a:1:5 => no common

plans_onto_a_target_with_versions: the newest common snapshot is not the target's last one
there fail
  @a:1:10 @b:2:20 @c:3:30 onto @a:1:5 @b:2:6 @x:9:7 #m:3:8 => diverged 2 9

plans_onto_a_target_with_versions: no snapshot is common
there fail
  @a:1:10 onto @x:9:5 => no common

plans_onto_a_target_with_versions: a target with bookmarks alone has no snapshot
there fail
  @a:1:10 onto #m:1:5 => target in use

plans_onto_a_target_with_versions: the source has a cursor alone
there fail
  #zrepl_CURSOR_G_0000000000000001_J_push:1:10 onto @a:1:5 => no sender snapshots

plans_with_the_marks_as_they_are_now: a cursor that was made or destroyed since the listing
there fail
  @b:2:20 with #zrepl_CURSOR_G_0000000000000001_J_push:1:10 onto @a:1:5 => step b 2;
  #zrepl_CURSOR_G_0000000000000001_J_push:1:10 @b:2:20 with nothing onto @a:1:5 => no common
  @a:1:10 #zrepl_CURSOR_G_0000000000000001_J_push:1:25 @b:2:20 @c:3:30 with nothing onto @a:1:5 => step b 2;step c 3;

plans_onto_what_arrived: it comes after what was listed
there fail
  @a:1:10 @b:2:20 @c:3:30 onto @a:1:5 then @b:2:6 => step c 3;
  @a:1:10 @b:2:20 @c:3:30 onto nothing then @b:2:6 @c:3:7 => up to date
  @a:1:10 @b:2:20 @c:3:30 onto @a:1:5 @b:2:6 then @x:9:7 => diverged 2 9
  @a:1:10 @b:2:20 @c:3:30 onto @a:1:5 then @b:2:6 @x:9:7 => diverged 2 9

plans_onto_what_arrived: a placeholder that received a snapshot is none that has nothing
placeholder all
  @a:1:10 @b:2:20 onto nothing then @a:1:5 => step b 2;

plans_onto_a_partial_receive: the first snapshot with the guid
there fail part 2 none
  @a:1:10 @b:2:20 @again:2:30 onto nothing => resume b 2

plans_onto_a_partial_receive: the first snapshot with the guid
there fail part 2 1
  @a:1:10 @b:2:20 onto @a:1:5 => resume b 2
  #zrepl_CURSOR_G_0000000000000001_J_push:1:10 @b:2:20 onto @a:1:5 => resume b 2

plans_onto_a_partial_receive: the snapshot is gone
there fail part 2 1
  @a:1:10 #m:2:20 onto @a:1:5 => abandon

plans_onto_a_partial_receive: the target has another last snapshot, one where none was, or none where one was
there fail part 2 1
  @a:1:10 @b:2:20 onto @a:1:5 @x:9:6 => abandon

plans_onto_a_partial_receive: the target has another last snapshot, one where none was, or none where one was
there fail part 2 none
  @a:1:10 @b:2:20 onto @a:1:5 => abandon

plans_onto_a_partial_receive: the target has another last snapshot, one where none was, or none where one was
there fail part 2 1
  @a:1:10 @b:2:20 onto nothing => abandon

plans_onto_a_partial_receive: the source has nothing of the incremental source
there fail part 2 1
  @b:2:20 onto @a:1:5 => abandon

first_plans
absent fail
  #zrepl_CURSOR_G_0000000000000001_J_push:1:5 @a:1:10 @b:2:20 #m:2:20 onto nothing => initial refused

first_plans
absent most_recent
  #zrepl_CURSOR_G_0000000000000001_J_push:1:5 @a:1:10 @b:2:20 #m:2:20 onto nothing => full b 2;

first_plans
absent all
  #zrepl_CURSOR_G_0000000000000001_J_push:1:5 @a:1:10 @b:2:20 #m:2:20 onto nothing => full a 1;step b 2;

first_plans
placeholder most_recent
  #zrepl_CURSOR_G_0000000000000001_J_push:1:5 @a:1:10 @b:2:20 #m:2:20 onto nothing => full b 2;

first_plans
placeholder all
  #zrepl_CURSOR_G_0000000000000001_J_push:1:5 @a:1:10 @b:2:20 #m:2:20 onto nothing => full a 1;step b 2;

first_plans
there all
  #zrepl_CURSOR_G_0000000000000001_J_push:1:5 @a:1:10 @b:2:20 #m:2:20 onto nothing => target in use

a_partial_receive_goes_before_all_else
absent all part 2 none
  nothing onto nothing => abandon";

fn push_step(text: &mut String, step: &Step) -> Result<(), AllocError> {
    let kind = if step.full { "full" } else { "step" };
    write!(
        text,
        "{kind} {} {};",
        shown(step.to.as_bytes()),
        step.guid.0
    )
}

/// The steps as text: `full` or `step`, and the name of the snapshot with its guid.
fn steps_text(alloc: Global, steps: &[Step]) -> Result<String, AllocError> {
    let mut text = String::new(alloc);
    for step in steps {
        push_step(&mut text, step)?;
    }
    Ok(text)
}

fn conflict_text(alloc: Global, conflict: Conflict) -> Result<String, AllocError> {
    match conflict {
        Conflict::NoSenderSnapshots => String::from_str(alloc, "no sender snapshots"),
        Conflict::NoCommon => String::from_str(alloc, "no common"),
        Conflict::Diverged { common, newer } => {
            format!(in alloc; "diverged {} {}", common.0, newer.0)
        }
        Conflict::TargetInUse => String::from_str(alloc, "target in use"),
        Conflict::InitialRefused => String::from_str(alloc, "initial refused"),
    }
}

fn plan_text(alloc: Global, planned: &Planned) -> Result<String, AllocError> {
    match planned {
        Planned::UpToDate => String::from_str(alloc, "up to date"),
        Planned::Abandon => String::from_str(alloc, "abandon"),
        Planned::Steps(steps) => steps_text(alloc, steps.as_slice()),
        Planned::Conflict(conflict) => conflict_text(alloc, *conflict),
        Planned::Resume { to, guid } => {
            format!(in alloc; "resume {} {}", shown(to.as_bytes()), guid.0)
        }
    }
}

fn initial_of(state: &str) -> Initial {
    if state.contains(" most_recent") {
        Initial::MostRecent
    } else if state.contains(" all") {
        Initial::All
    } else {
        Initial::Fail
    }
}

/// The guids of a partial receive.
fn token_of(guids: &str) -> Option<TokenInfo> {
    let (to, from) = guids.split_once(' ')?;
    let to = Guid(number(to)?);
    if from == "none" {
        return Some(TokenInfo { to, from: None });
    }
    let from = Some(Guid(number(from)?));
    Some(TokenInfo { to, from })
}

fn partial_of(state: &str) -> Option<Option<TokenInfo>> {
    match state.split_once(" part ") {
        Some((_, guids)) => Some(Some(token_of(guids)?)),
        None => Some(None),
    }
}

/// The bookmarks among some rows.
fn marks_of(alloc: Global, rows: &str) -> Option<Vec<VersionRow>> {
    let mut rows = rows_of(alloc, rows)?.into_vec();
    rows.retain(|row| !is_snap(row));
    Some(rows)
}

fn planned(alloc: Global, state: &str, ask: &str) -> Option<Planned> {
    let (source, target) = ask.split_once(" onto ")?;
    let (listing, marks) = source.split_once(" with ").unwrap_or((source, source));
    let (listed, arrived) = target.split_once(" then ").unwrap_or((target, "nothing"));
    let (listing, marks) = (rows_of(alloc, listing)?, marks_of(alloc, marks)?);
    let (listed, arrived) = (rows_of(alloc, listed)?, rows_of(alloc, arrived)?);
    let source = Source {
        listing: listing.as_slice(),
        marks: marks.as_slice(),
    };
    let target = Target {
        there: !state.starts_with("absent"),
        placeholder: state.starts_with("placeholder"),
        listing: listed.as_slice(),
        arrived: arrived.as_slice(),
        partial: partial_of(state)?,
    };
    let job = job(alloc, "push")?;
    plan(alloc, &job, &source, &target, initial_of(state)).ok()
}

/// What is known of a target, and the policy.
#[derive(Clone, Copy)]
struct State<'a> {
    text: &'a str,
}

impl Asked for State<'_> {
    fn came(&mut self, alloc: Global, ask: &str) -> Option<String> {
        let planned = planned(alloc, self.text, ask)?;
        let text = plan_text(alloc, &planned);
        drop(planned);
        text.ok()
    }
}

fn came(alloc: Global, block: &str) -> Option<String> {
    let text = before(block);
    written(alloc, block, &mut State { text })
}

#[test]
fn plans(rt: HostRuntime) {
    for block in BLOCKS.split("\n\n") {
        is(&rt, block, came(rt.alloc(), block));
    }
}

#[test]
fn conflicts_are_numbered_from_1(rt: HostRuntime) {
    let (common, newer) = (Guid(1), Guid(2));
    assert!(rt; Conflict::NoSenderSnapshots.number() == 1);
    assert!(rt; Conflict::NoCommon.number() == 2);
    assert!(rt; Conflict::Diverged { common, newer }.number() == 3);
    assert!(rt; Conflict::TargetInUse.number() == 4);
    assert!(rt; Conflict::InitialRefused.number() == 5);
}
