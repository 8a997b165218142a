//! Answers by what a child writes and how it ends.

use super::{answered, is};
use std::alloc::Global;
use tests_pools::{Asked, before, written};
use zr_base::NoMemory;
use zr_exec::{CliZfs, PipeExit, RunExit, Spawn};
use zr_names::Unit;

/// How each child of a block ends and what it writes, `~` for a tab and `$` for the end of a line, and the answers to
/// commands.
const BLOCKS: &str = "\
datasets_by_bytes
done tank~-~-$
  sets => tank -;
  versions tank => garbled 1
  holds tank a => garbled 1

datasets_by_bytes: the last line is cut
done tank~-~-$tank/a~-~
  sets => garbled 2
  versions tank => garbled 1
  holds tank a => garbled 1

versions_by_bytes
done tank@a~1~2~3~0$
  sets => garbled 1
  versions tank => @a:1:2:3:0;
  holds tank a => garbled 1

versions_by_bytes: a version of another dataset
done tank@a~1~2~3~0$tank/b@a~1~2~3~0$
  sets => garbled 1
  versions tank => garbled 2
  holds tank a => garbled 1

holds_by_bytes
done tank@a~one~Sat Jan 1 10:00 2022$tank@a~two~0$
  sets => garbled 1
  versions tank => garbled 1
  holds tank a => [one,two]

holds_by_bytes: a hold that stands there twice
done tank@a~one~0$tank@a~one~0$
  sets => garbled 1
  versions tank => garbled 1
  holds tank a => garbled 2

listings_by_end
done
  sets => no rows
  versions tank => no rows
  holds tank a => no rows

listings_by_end
nonzero tank~-~-$
  sets => failed
  versions tank => failed
  holds tank a => failed

listings_by_end
failed
  sets => failed
  versions tank => failed
  holds tank a => failed

listings_by_end
nomemory
  sets => no memory
  versions tank => no memory
  holds tank a => no memory

contents_of_a_token_by_end
done resume token contents:$nvlist version: 0$~object = 0x6$~toguid = 0x13$~toname = tank/a@s3$
  token 1-000000000000000b-none-tank => to 19 in full

contents_of_a_token_by_end: another status
nonzero resume token contents:$~fromguid = 0xA$~toguid = 0x13$
  token 1-000000000000000b-none-tank => to 19 from 10

contents_of_a_token_by_end: they are bad
done ~toguid = 0x13$~toguid = 0x14$
  token 1-000000000000000b-none-tank => garbled 2

contents_of_a_token_by_end: they are bad, with another status
nonzero ~toguid = 0x13$~toguid = 0x14$
  token 1-000000000000000b-none-tank => failed

contents_of_a_token_by_end: nothing is written
done
  token 1-000000000000000b-none-tank => garbled 1

contents_of_a_token_by_end: nothing is written, with another status
nonzero
  token 1-000000000000000b-none-tank => failed

contents_of_a_token_by_end: the child is killed
failed ~toguid = 0x13$
  token 1-000000000000000b-none-tank => failed

contents_of_a_token_by_end: memory is refused
nomemory ~toguid = 0x13$
  token 1-000000000000000b-none-tank => no memory

other_commands_by_end
done any bytes
  hold tank a step j => done
  release tank a last j => done
  bookmark tank @a zrepl_CURSOR_G_000000000000000b_J_j => done
  destroy tank @a => done
  destroy tank #zrepl_CURSOR_G_000000000000000b_J_j => done
  send tank a 11 full back/tank => done

other_commands_by_end
nonzero any bytes
  hold tank a step j => failed
  release tank a last j => failed
  bookmark tank @a zrepl_CURSOR_G_000000000000000b_J_j => failed
  destroy tank @a => failed
  destroy tank #zrepl_CURSOR_G_000000000000000b_J_j => failed
  send tank a 11 full back/tank => failed

other_commands_by_end
failed any bytes
  hold tank a step j => failed
  release tank a last j => failed
  bookmark tank @a zrepl_CURSOR_G_000000000000000b_J_j => failed
  destroy tank @a => failed
  destroy tank #zrepl_CURSOR_G_000000000000000b_J_j => failed
  send tank a 11 full back/tank => failed

other_commands_by_end
nomemory any bytes
  hold tank a step j => no memory
  release tank a last j => no memory
  bookmark tank @a zrepl_CURSOR_G_000000000000000b_J_j => no memory
  destroy tank @a => no memory
  destroy tank #zrepl_CURSOR_G_000000000000000b_J_j => no memory
  send tank a 11 full back/tank => no memory";

/// A runner whose children write this text and end so.
#[derive(Drop)]
struct Says {
    text: String,
    exit: RunExit,
    faults: u64,
}

impl Spawn for Says {
    ghost use Rattle.std.specs.Prelude.{None};

    ghost faults = { λ s. s.faults };

    ghost history = { λ _. None };

    ghost pools = { λ _. None };

    fn begin(&mut self, _unit: &Unit, _run: u64) -> Result<(), NoMemory> {
        Ok(())
    }

    fn run(&mut self, _argv: &[String], out: &mut Vec<u8>) -> RunExit {
        self.faults = self.faults.saturating_add(1);
        out.clear();
        if self.text.len() > 1000 || out.extend_from_slice(self.text.as_bytes()).is_err() {
            return RunExit::NoMemory;
        }
        match self.exit {
            RunExit::TooLong => RunExit::NoMemory,
            RunExit::Done | RunExit::Nonzero | RunExit::Failed | RunExit::NoMemory => self.exit,
        }
    }

    fn pipe(&mut self, _send: &[String], _receive: &[String]) -> PipeExit {
        self.faults = self.faults.saturating_add(1);
        match self.exit {
            RunExit::Done => PipeExit::Done,
            RunExit::Nonzero | RunExit::Failed | RunExit::TooLong => PipeExit::Failed,
            RunExit::NoMemory => PipeExit::NoMemory,
        }
    }
}

fn exit_of(word: &str) -> Option<RunExit> {
    match word {
        "done" => Some(RunExit::Done),
        "nonzero" => Some(RunExit::Nonzero),
        "failed" => Some(RunExit::Failed),
        "nomemory" => Some(RunExit::NoMemory),
        _ => None,
    }
}

/// What is written, by its spelling.
fn text_written(alloc: Global, spelled: &str) -> Option<String> {
    let mut text = String::new(alloc);
    for letter in spelled.chars() {
        let letter = match letter {
            '~' => '\t',
            '$' => '\n',
            _ => letter,
        };
        text.push(letter).ok()?;
    }
    Some(text)
}

#[derive(Drop)]
struct Runner {
    zfs: CliZfs<Says>,
}

impl Asked for Runner {
    fn came(&mut self, alloc: Global, ask: &str) -> Option<String> {
        answered(alloc, &mut self.zfs, ask)
    }
}

/// A runner of a child by its words.
fn runner_of(alloc: Global, child: &str) -> Option<Runner> {
    let (exit, spelled) = child.split_once(' ').unwrap_or((child, ""));
    let exit = exit_of(exit)?;
    let program = String::from_str(alloc, "zfs").ok()?;
    let text = text_written(alloc, spelled)?;
    let faults = 0;
    let zfs = CliZfs::new(Says { text, exit, faults }, program);
    Some(Runner { zfs })
}

fn came(alloc: Global, block: &str) -> Option<String> {
    let mut runner = runner_of(alloc, before(block))?;
    written(alloc, block, &mut runner)
}

#[test]
fn answers_by_what_a_child_does(rt: HostRuntime) {
    for block in BLOCKS.split("\n\n") {
        is(&rt, block, came(rt.alloc(), block));
    }
}
