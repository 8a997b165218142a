//! Children over pools in memory, by their words.

use super::{is, run_text};
use std::alloc::{AllocError, Global};
use std::process::Abort;
use tests_pools::{Asked, before, changed, failing_of, pools_of, shown, written};
use zr_base::Bytes;
use zr_exec::{Call, Line, PipeExit, Piped, RunExit, Spawn};
use zr_model::{MemSpawn, is_well_formed};

/// The words of children, with how they end, what one alone writes in place of what stood there, and what is told of them;
/// then the end of the record and what has changed in the pools.
const BLOCKS: &str = "\
pipes_by_their_words
now 200 txg 50 guid 50;back;tank @a:11:11:100 @b:12:12:100;
  zfs send tank@a | zfs receive -s -u back/tank => done, told zfs send tank@a | zfs receive -s -u back/tank: done
1 told, the last zfs send tank@a | zfs receive -s -u back/tank: done
now 200 txg 51 guid 50;=;back/tank @a:11:50:100;=;

pipes_by_their_words
now 200 txg 50 guid 50;back;tank @a:11:11:100 @b:12:12:100;
  zfs send tank@a | zfs receive -s -u -F back/tank => done, told zfs send tank@a | zfs receive -s -u -F back/tank: done
1 told, the last zfs send tank@a | zfs receive -s -u -F back/tank: done
now 200 txg 51 guid 50;=;back/tank @a:11:50:100;=;

pipes_by_their_words: these do nothing
now 200 txg 50 guid 50;back;tank @a:11:11:100 @b:12:12:100;
  zfs send tank@a | zfs receive back/tank => failed, told zfs send tank@a | zfs receive back/tank: failed
  zfs send tank@c | zfs receive -s -u back/tank => failed, told zfs send tank@c | zfs receive -s -u back/tank: failed
  zfs send none@a | zfs receive -s -u back/tank => failed, told zfs send none@a | zfs receive -s -u back/tank: failed
  zfs send -i tank#m tank@a | zfs receive -s -u back/tank => failed, told zfs send -i tank#m tank@a | zfs receive -s -u back/tank: failed
  zfs receive -s -u back/tank | zfs send tank@a => failed, told zfs receive -s -u back/tank | zfs send tank@a: failed
  zfs list | zfs receive -s -u back/tank => failed, told zfs list | zfs receive -s -u back/tank: failed
  nothing | nothing => failed, told  | : failed
7 told, the last  | : failed
=

one_end_alone_does_nothing
now 200 txg 50 guid 50;back;tank @a:11:11:100 @b:12:12:100;
  zfs send tank@a => nonzero [], told zfs send tank@a: nonzero []
  zfs receive -s -u back/tank => nonzero [], told zfs receive -s -u back/tank: nonzero []
  zfs send -i tank#m tank@a => nonzero [], told zfs send -i tank#m tank@a: nonzero []
3 told, the last zfs send -i tank#m tank@a: nonzero []
=

listings_by_their_words
now 200 txg 50 guid 50;tank @a:11:11:100 #m:11:11:100 @b:12:12:100[zrepl_last];tank/p placeholder;
  zfs list -H -p -t filesystem,volume -o name,zrepl:placeholder,receive_resume_token => done [tank~-~-$tank/p~on~-$], told zfs list -H -p -t filesystem,volume -o name,zrepl:placeholder,receive_resume_token: done [tank~-~-$tank/p~on~-$]
  zfs list -H -p -d 1 -t snapshot,bookmark -s createtxg -o name,guid,createtxg,creation,userrefs tank => done [tank@a~11~11~100~0$tank#m~11~11~100~-$tank@b~12~12~100~1$], told zfs list -H -p -d 1 -t snapshot,bookmark -s createtxg -o name,guid,createtxg,creation,userrefs tank: done [tank@a~11~11~100~0$tank#m~11~11~100~-$tank@b~12~12~100~1$]
  zfs holds -H tank@b => done [tank@b~zrepl_last~0$], told zfs holds -H tank@b: done [tank@b~zrepl_last~0$]
  zfs holds -H tank@c => nonzero [], told zfs holds -H tank@c: nonzero []
4 told, the last zfs holds -H tank@c: nonzero []
=

what_a_token_says_is_written_and_its_status_says_whether_its_source_has_the_snapshot
now 200 txg 50 guid 50;back;back/tank partial 11 none tank;tank @a:11:11:100 @b:12:12:100 #c:13:13:100;
  zfs send -nvt 1-000000000000000b-none-tank => done [resume token contents:$~toguid = 0xb$], told zfs send -nvt 1-000000000000000b-none-tank: done [resume token contents:$~toguid = 0xb$]
  zfs send -nvt 1-000000000000000c-0000000000000063-tank => done [resume token contents:$~fromguid = 0x63$~toguid = 0xc$], told zfs send -nvt 1-000000000000000c-0000000000000063-tank: done [resume token contents:$~fromguid = 0x63$~toguid = 0xc$]
  zfs send -nvt 1-000000000000000d-000000000000000b-tank => nonzero [resume token contents:$~fromguid = 0xb$~toguid = 0xd$], told zfs send -nvt 1-000000000000000d-000000000000000b-tank: nonzero [resume token contents:$~fromguid = 0xb$~toguid = 0xd$]
  zfs send -nvt 1-000000000000000b-none-none => nonzero [resume token contents:$~toguid = 0xb$], told zfs send -nvt 1-000000000000000b-none-none: nonzero [resume token contents:$~toguid = 0xb$]
  zfs send -nvt x => nonzero [], told zfs send -nvt x: nonzero []
  zfs send -t 1-000000000000000b-none-tank => nonzero [], told zfs send -t 1-000000000000000b-none-tank: nonzero []
6 told, the last zfs send -t 1-000000000000000b-none-tank: nonzero []
=

resumes_by_their_words: of two snapshots with the guid of the token the first is sent
now 200 txg 50 guid 50;back;back/first partial 11 none tank;back/tank partial 12 11 tank @a:11:40:100;tank @a:11:11:100 @b:12:12:100 @c:12:13:100;
  zfs send -t x | zfs receive -s -u back/tank => failed, told zfs send -t x | zfs receive -s -u back/tank: failed
  zfs send -t 1-000000000000000b-none-tank | zfs receive -s -u back/tank => failed, told zfs send -t 1-000000000000000b-none-tank | zfs receive -s -u back/tank: failed
  zfs send -t 1-000000000000000c-000000000000000b-tank | zfs receive -s -u back/first => failed, told zfs send -t 1-000000000000000c-000000000000000b-tank | zfs receive -s -u back/first: failed
  zfs send -t 1-000000000000000c-000000000000000b-none | zfs receive -s -u back/tank => failed, told zfs send -t 1-000000000000000c-000000000000000b-none | zfs receive -s -u back/tank: failed
  zfs send -t 1-000000000000000b-none-tank | zfs receive -s -u back => failed, told zfs send -t 1-000000000000000b-none-tank | zfs receive -s -u back: failed
  zfs send -t 1-000000000000000c-000000000000000b-tank | zfs receive -s -u back/tank => done, told zfs send -t 1-000000000000000c-000000000000000b-tank | zfs receive -s -u back/tank: done
  zfs send -t 1-000000000000000c-000000000000000b-tank | zfs receive -s -u back/tank => failed, told zfs send -t 1-000000000000000c-000000000000000b-tank | zfs receive -s -u back/tank: failed
7 told, the last zfs send -t 1-000000000000000c-000000000000000b-tank | zfs receive -s -u back/tank: failed
now 200 txg 51 guid 50;=;=;back/tank @a:11:40:100 @b:12:50:100;=;

words_of_no_command_do_nothing
now 200 txg 50 guid 50;tank @a:11:11:100 #a:11:11:100 @b:12:12:100[zrepl_last];tank/x placeholder;
  zfs get => nonzero [], told zfs get: nonzero []
  nothing => nonzero [], told : nonzero []
2 told, the last : nonzero []
=";

/// Children over the pools of a block, of whose calls those fail that say so.
pub fn children_of<R: Abort>(rt: &R, alloc: Global, block: &str) -> Option<MemSpawn> {
    let failing = failing_of(alloc, block)?;
    let pools = pools_of(alloc, before(block))?;
    assert!(rt; is_well_formed(&pools));
    Some(MemSpawn::new(alloc, pools, failing))
}

fn run_exit(exit: RunExit) -> &'static str {
    match exit {
        RunExit::Done => "done",
        RunExit::Nonzero => "nonzero",
        RunExit::Failed => "failed",
        RunExit::TooLong => "too long",
        RunExit::NoMemory => "no memory",
    }
}

fn pipe_exit(exit: PipeExit) -> &'static str {
    match exit {
        PipeExit::Done => "done",
        PipeExit::Failed => "failed",
        PipeExit::NoMemory => "no memory",
    }
}

/// Adds bytes, with `~` for a tab and `$` for the end of a line.
fn push_spelled(text: &mut String, bytes: &[u8]) -> Result<(), AllocError> {
    for letter in shown(bytes).chars() {
        let letter = match letter {
            '\t' => '~',
            '\n' => '$',
            _ => letter,
        };
        text.push(letter)?;
    }
    Ok(())
}

/// How a child ended, and what it wrote.
fn end_text(alloc: Global, exit: RunExit, out: &[u8]) -> Result<String, AllocError> {
    let mut text = format!(in alloc; "{} [", run_exit(exit))?;
    push_spelled(&mut text, out)?;
    text.push(']')?;
    Ok(text)
}

/// Words with a blank between them.
fn words_text(alloc: Global, words: &[Bytes]) -> Result<String, AllocError> {
    let mut text = String::new(alloc);
    let mut front = "";
    for word in words {
        write!(text, "{front}{}", shown(word.as_slice()))?;
        front = " ";
    }
    Ok(text)
}

fn call_text(alloc: Global, call: &Call) -> Result<String, AllocError> {
    let words = words_text(alloc, call.words.as_slice())?;
    let end = end_text(alloc, call.exit, call.written.as_slice())?;
    format!(in alloc; "{words}: {end}")
}

fn pipe_text(alloc: Global, pipe: &Piped) -> Result<String, AllocError> {
    let send = words_text(alloc, pipe.send.as_slice())?;
    let receive = words_text(alloc, pipe.receive.as_slice())?;
    format!(in alloc; "{send} | {receive}: {}", pipe_exit(pipe.exit))
}

/// The last line of a record.
fn last_text(alloc: Global, told: &[Line]) -> Option<String> {
    match told.last()? {
        Line::Begin(unit, run) => run_text(alloc, unit, *run),
        Line::Call(call) => call_text(alloc, call).ok(),
        Line::Pipe(pipe) => pipe_text(alloc, pipe).ok(),
    }
}

/// Adds the end of the record and what has changed in the pools.
fn push_end(alloc: Global, text: &mut String, spawn: &MemSpawn, before: &str) -> Option<()> {
    let (count, last) = (spawn.history().len(), last_text(alloc, spawn.history())?);
    let changed = changed(alloc, before, spawn.pools()).ok()?;
    write!(text, "\n{count} told, the last {last}\n{changed}").ok()
}

/// The lines of a block, and behind them its end.
pub fn with_end(
    alloc: Global,
    lines: Option<String>,
    spawn: &MemSpawn,
    before: &str,
) -> Option<String> {
    let mut text = lines?;
    push_end(alloc, &mut text, spawn, before)?;
    Some(text)
}

fn argv(alloc: Global, text: &str) -> Option<Vec<String>> {
    let mut argv = Vec::new(alloc);
    if text != "nothing" {
        for word in text.split(' ') {
            argv.push(String::from_str(alloc, word).ok()?).ok()?;
        }
    }
    Some(argv)
}

/// How a child with these words ends, and what it writes.
fn ran(alloc: Global, spawn: &mut MemSpawn, words: &str) -> Option<String> {
    let argv = argv(alloc, words)?;
    let mut out = Vec::from_slice(alloc, b"what stood there").ok()?;
    let exit = spawn.run(argv.as_slice(), &mut out);
    drop(argv);
    end_text(alloc, exit, out.as_slice()).ok()
}

/// How a pipe of children with these words ends.
fn piped(alloc: Global, spawn: &mut MemSpawn, send: &str, receive: &str) -> Option<String> {
    let from = argv(alloc, send)?;
    let to = argv(alloc, receive)?;
    let exit = spawn.pipe(from.as_slice(), to.as_slice());
    drop(to);
    drop(from);
    String::from_str(alloc, pipe_exit(exit)).ok()
}

#[derive(Drop)]
struct Children {
    spawn: MemSpawn,
}

impl Asked for Children {
    fn came(&mut self, alloc: Global, ask: &str) -> Option<String> {
        let exit = match ask.split_once(" | ") {
            Some((send, receive)) => piped(alloc, &mut self.spawn, send, receive)?,
            None => ran(alloc, &mut self.spawn, ask)?,
        };
        let told = last_text(alloc, self.spawn.history())?;
        format!(in alloc; "{exit}, told {told}").ok()
    }
}

fn came<R: Abort>(rt: &R, alloc: Global, block: &str) -> Option<String> {
    let spawn = children_of(rt, alloc, block)?;
    let mut children = Children { spawn };
    let lines = written(alloc, block, &mut children);
    let text = with_end(alloc, lines, &children.spawn, before(block));
    drop(children);
    text
}

#[test]
fn children_by_their_words(rt: HostRuntime) {
    for block in BLOCKS.split("\n\n") {
        is(&rt, block, came(&rt, rt.alloc(), block));
    }
}
