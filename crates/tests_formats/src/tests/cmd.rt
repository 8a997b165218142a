//! The words of the calls of `zfs`: which call they are read as, and that its command is written in the same words.
//! A transfer is written in the words of two calls.

use std::alloc::Global;
use tests_lines::{Unread, ask_of, is_wanted, placed, shown, text, told};
use tests_pools::command_of;
use zr_cmd::{Argv, ArgvFault, Words, ZfsCall, argv_of, read_argv};
use zr_command::{Cmd, VersionName};
use zr_names::{JobName, MarkName, Path, SnapName, TagKind};

const CASES: &str = "\
# words of listings
list -H -p -t filesystem,volume -o name,zrepl:placeholder,receive_resume_token => sets
list -H -p -d 1 -t snapshot,bookmark -s createtxg -o name,guid,createtxg,creation,userrefs tank/home => versions tank/home
holds -H tank/home@z_1 => holds tank/home @z_1
# words of a hold and a release
hold zrepl_STEP_J_nightly tank/home@z_1 => hold step nightly tank/home @z_1
release zrepl_last_received_J_nightly tank/home@z_1 => release last nightly tank/home @z_1
# words of destroys
destroy tank/home@z_1 => destroy tank/home @z_1
destroy tank/home#m => destroy tank/home #m
destroy tank@a,b,c => destroy tank @a,b,c
destroy tank@n0,n1,n2,n3,n4,n5,n6,n7,n8,n9,n10,n11,n12,n13,n14,n15,n16,n17,n18,n19,n20,n21,n22,n23,n24,n25,n26,n27,n28,n29,n30,n31,n32,n33,n34,n35,n36,n37,n38,n39,n40,n41,n42,n43,n44,n45,n46,n47,n48,n49,n50,n51,n52,n53,n54,n55,n56,n57,n58,n59,n60,n61,n62,n63 => destroy tank @n0,n1,n2,n3,n4,n5,n6,n7,n8,n9,n10,n11,n12,n13,n14,n15,n16,n17,n18,n19,n20,n21,n22,n23,n24,n25,n26,n27,n28,n29,n30,n31,n32,n33,n34,n35,n36,n37,n38,n39,n40,n41,n42,n43,n44,n45,n46,n47,n48,n49,n50,n51,n52,n53,n54,n55,n56,n57,n58,n59,n60,n61,n62,n63
destroy tank@n0,n1,n2,n3,n4,n5,n6,n7,n8,n9,n10,n11,n12,n13,n14,n15,n16,n17,n18,n19,n20,n21,n22,n23,n24,n25,n26,n27,n28,n29,n30,n31,n32,n33,n34,n35,n36,n37,n38,n39,n40,n41,n42,n43,n44,n45,n46,n47,n48,n49,n50,n51,n52,n53,n54,n55,n56,n57,n58,n59,n60,n61,n62,n63,n64 => bad word 1
# words of a snapshot, and of a placeholder
snapshot tank/home@z_1 => snapshot tank/home @z_1
create -o zrepl:placeholder=on -o mountpoint=none b/c => create b/c
# abort_is_receive_minus_A
receive -A b/c/tank/a => abort b/c/tank/a
build abort b/c/tank/a => /sbin/zfs receive -A b/c/tank/a
# words of a listing of a token, and of a send by it
send -nvt 1-0b-x => token 1-0b-x
send -t 1-0b-x => send by 1-0b-x
# words of bookmarks
bookmark tank/home@s tank/home#n => bookmark tank/home @s #n
bookmark tank/home#m tank/home#n => bookmark tank/home #m #n
# words of commands that are built from names
build sets => /sbin/zfs list -H -p -t filesystem,volume -o name,zrepl:placeholder,receive_resume_token
build versions tank/home => /sbin/zfs list -H -p -d 1 -t snapshot,bookmark -s createtxg -o name,guid,createtxg,creation,userrefs tank/home
build holds tank/home z_1 => /sbin/zfs holds -H tank/home@z_1
build hold tank/home z_1 step nightly => /sbin/zfs hold zrepl_STEP_J_nightly tank/home@z_1
build release tank/home z_1 last nightly => /sbin/zfs release zrepl_last_received_J_nightly tank/home@z_1
build token 1-0b-x => /sbin/zfs send -nvt 1-0b-x
build send tank/home z_2 9 resume 1-0b-x none backup/home => /sbin/zfs send -t 1-0b-x | /sbin/zfs receive -s -u backup/home
build snapshot tank/home z_1 => /sbin/zfs snapshot tank/home@z_1
build create b/c => /sbin/zfs create -o zrepl:placeholder=on -o mountpoint=none b/c
build destroy tank/home @z_1 => /sbin/zfs destroy tank/home@z_1
build destroy tank @a,b,c => /sbin/zfs destroy tank@a,b,c
build destroy tank/home #m => /sbin/zfs destroy tank/home#m
build bookmark tank/home @s n => /sbin/zfs bookmark tank/home@s tank/home#n
build bookmark tank/home #m n => /sbin/zfs bookmark tank/home#m tank/home#n
# words of a whole transfer, and of one from a bookmark
build send tank/home z_2 9 full backup/home force => /sbin/zfs send tank/home@z_2 | /sbin/zfs receive -s -u -F backup/home
build send tank/home z_2 9 m 7 backup/home => /sbin/zfs send -i tank/home#m tank/home@z_2 | /sbin/zfs receive -s -u backup/home
# the end that sends the whole is read, and the end that sends an increment
send tank/home@s => send tank/home @s
send -i tank/home#m tank/home@s => send tank/home #m @s
# the receiving end is read
receive -s -u tank/home => receive tank/home
receive -s -u -F tank/home => receive by force tank/home
# a path may be spelled as an option is: with one word left it is the path
receive -s -u -F => receive -F
receive -s -u -F -F => receive by force -F
# a job's name of 64 bytes in a tag, and one of 65
hold zrepl_STEP_J_abcdefghijklmnopqrstuvwxyz012345abcdefghijklmnopqrstuvwxyz012345 tank/home@z_1 => hold step abcdefghijklmnopqrstuvwxyz012345abcdefghijklmnopqrstuvwxyz012345 tank/home @z_1
hold zrepl_STEP_J_abcdefghijklmnopqrstuvwxyz012345abcdefghijklmnopqrstuvwxyz0123456 tank@s => bad word 1
# first words of no call, and no words
(empty) => unknown command
get => unknown command
frob => unknown command
LIST -H => unknown command
lis => unknown command
-i tank#m tank@s => unknown command
(none) => unknown command
# words that are nearly a call, and how many of them begin one
list => bad word 1
list -h => bad word 1
list -H => bad word 2
list -H -p => bad word 3
list -H -p -r => bad word 3
list -H -p -t snapshot => bad word 4
list -H -p -d 2 => bad word 4
list -H -p -d 1 -t snapshot => bad word 6
list -H -p -t filesystem,volume -o => bad word 6
list -H -p -t filesystem,volume -o name => bad word 6
holds => bad word 1
holds tank@s => bad word 1
holds -H => bad word 2
holds -H tank#m => bad word 2
holds -H tank@s tank@t => bad word 3
destroy => bad word 1
destroy (empty) => bad word 1
destroy tank/a => bad word 1
destroy tank@ => bad word 1
destroy tank@a,a => bad word 1
destroy tank@a,b,a => bad word 1
destroy tank@a, => bad word 1
destroy tank@,a => bad word 1
destroy tank@a,,b => bad word 1
destroy tank@a,@b => bad word 1
destroy tank@a,tank@b => bad word 1
destroy tank@a,b/c => bad word 1
destroy tank#a,b => bad word 1
destroy tank@a tank@b => bad word 2
holds -H tank@a,b => bad word 2
destroy @s => bad word 1
destroy tank@s@t => bad word 1
destroy tank#m@s => bad word 1
destroy tank@a tank@b => bad word 2
destroy tank#m x => bad word 2
snapshot => bad word 1
snapshot tank => bad word 1
snapshot tank#m => bad word 1
snapshot tank@a tank@b => bad word 2
create => bad word 1
create b => bad word 1
create -o zrepl:placeholder=off -o mountpoint=none b => bad word 2
create -o zrepl:placeholder=on -o mountpoint=none => bad word 5
create -o zrepl:placeholder=on -o mountpoint=none b@s => bad word 5
create -o zrepl:placeholder=on -o mountpoint=none b c => bad word 6
hold => bad word 1
hold x tank@s => bad word 1
hold zrepl_STEP_J_ tank@s => bad word 1
hold zrepl_STEP_J_a/b tank@s => bad word 1
hold zrepl_CURSOR_J_a tank@s => bad word 1
hold zrepl_STEP_J_a => bad word 2
hold zrepl_STEP_J_a tank => bad word 2
hold zrepl_STEP_J_a tank@s x => bad word 3
release tank@s => bad word 1
release zrepl_last_received_J_a tank#m => bad word 2
bookmark => bad word 1
bookmark a => bad word 1
bookmark a@s => bad word 2
bookmark a@s b#m => bad word 2
bookmark a#m b#n => bad word 2
bookmark a@s a@t => bad word 2
bookmark a/b@s a#m => bad word 2
bookmark a@s a#m x => bad word 3
send => bad word 1
send a => bad word 1
send a#m => bad word 1
send a@s b@s => bad word 2
send -t => bad word 2
send -t - => bad word 2
send -t a b => bad word 3
send -nvt => bad word 2
send -nvt - => bad word 2
send -nvt a b => bad word 3
send -nv a => bad word 1
send -i => bad word 2
send -i a@r a@s => bad word 2
send -i a#m => bad word 3
send -i a#m b@s => bad word 3
send -i a#m a#n => bad word 3
send -i a#m a@s x => bad word 4
receive => bad word 1
receive -u -s a => bad word 1
receive -s -u => bad word 3
receive -A => bad word 2
receive -A a@s => bad word 2
receive -A a b => bad word 3
receive -s -A a => bad word 2
receive -s -u a@s => bad word 3
receive -s -u a b => bad word 4
receive -s -u -F a//b => bad word 4
receive -s -u -F a b => bad word 5
list -H -p -t filesystem,volume -o name,zrepl:placeholder,receive_resume_token tank => bad word 7
list -H -p -t filesystem,volume -o tank//home => bad word 6
list -H -p -d 1 -t snapshot,bookmark -s createtxg -o name,guid,createtxg,creation,userrefs => bad word 11
list -H -p -d 1 -t snapshot,bookmark -s createtxg -o name,guid,createtxg,creation,userrefs tank//home => bad word 11
list -H -p -d 1 -t snapshot,bookmark -s createtxg -o name,guid,createtxg,creation,userrefs tank/home tank => bad word 12";

/// The words of a line, one blank between them.
fn words(alloc: Global, line: &str) -> Result<Words, Unread> {
    let mut words = Words::new(alloc);
    if line != "(none)" {
        for word in line.split(' ') {
            words.push_all(alloc, &[if word == "(empty)" { "" } else { word }])?;
        }
    }
    Ok(words)
}

fn push_words(out: &mut String, words: &Words) -> Result<(), Unread> {
    let mut front = "";
    for word in words.as_slice() {
        out.push_str(front)?;
        out.push_str(word.as_str())?;
        front = " ";
    }
    Ok(())
}

fn push_argv(out: &mut String, argv: &Argv) -> Result<(), Unread> {
    match argv {
        Argv::One(words) => push_words(out, words),
        Argv::Pipe(send, receive) => {
            push_words(out, send)?;
            out.push_str(" | ")?;
            push_words(out, receive)
        }
    }
}

/// The words of a command's children.
fn written(alloc: Global, cmd: &Cmd) -> Result<String, Unread> {
    let argv = argv_of(alloc, "/sbin/zfs", cmd)?;
    let mut out = String::new(alloc);
    push_argv(&mut out, &argv)?;
    Ok(out)
}

fn is_written(alloc: Global, cmd: &Cmd, line: &str) -> Result<bool, Unread> {
    let again = written(alloc, cmd)?;
    Ok(again.as_str().strip_prefix("/sbin/zfs ") == Some(line))
}

/// A verb, a dataset and the name of one of its versions.
fn named(alloc: Global, verb: &str, set: &Path, sign: char, name: &[u8]) -> Result<String, Unread> {
    let (set, name) = (shown(set.as_bytes()), shown(name));
    Ok(format!(in alloc; "{verb} {set} {sign}{name}")?)
}

/// A verb, a dataset and the names of two of its versions.
fn twice_named(
    alloc: Global,
    (verb, set): (&str, &Path),
    (sign, name): (char, &[u8]),
    (other_sign, other): (char, &[u8]),
) -> Result<String, Unread> {
    let (set, name, other) = (shown(set.as_bytes()), shown(name), shown(other));
    Ok(format!(in alloc; "{verb} {set} {sign}{name} {other_sign}{other}")?)
}

/// What is done with the hold of a job on a snapshot.
fn tagged(
    alloc: Global,
    verb: &str,
    kind: TagKind,
    job: &JobName,
    (set, snap): (&Path, &SnapName),
) -> Result<String, Unread> {
    let kind = match kind {
        TagKind::Step => "step",
        TagKind::Last => "last",
    };
    let (job, set) = (shown(job.as_bytes()), shown(set.as_bytes()));
    Ok(format!(in alloc; "{verb} {kind} {job} {set} @{}", shown(snap.as_bytes()))?)
}

fn marked(alloc: Global, set: &Path, of: &VersionName, name: &MarkName) -> Result<String, Unread> {
    let name = ('#', name.as_bytes());
    match of {
        VersionName::Snap(of) => {
            twice_named(alloc, ("bookmark", set), ('@', of.as_bytes()), name)
        }
        VersionName::Mark(of) => {
            twice_named(alloc, ("bookmark", set), ('#', of.as_bytes()), name)
        }
    }
}

/// A command that changes the holds or the bookmarks of a dataset.
fn change_text(alloc: Global, cmd: &Cmd) -> Result<String, Unread> {
    match cmd {
        Cmd::Hold(kind, job, set, snap) => tagged(alloc, "hold", *kind, job, (set, snap)),
        Cmd::Release(kind, job, set, snap) => tagged(alloc, "release", *kind, job, (set, snap)),
        Cmd::Bookmark(set, of, name) => marked(alloc, set, of, name),
        _ => text(alloc, "a transfer"),
    }
}

/// A destroy of snapshots.
fn group_text(alloc: Global, set: &Path, names: &[SnapName]) -> Result<String, Unread> {
    let mut out = format!(in alloc; "destroy {}", shown(set.as_bytes()))?;
    let mut sign = " @";
    for name in names {
        write!(out, "{sign}{}", shown(name.as_bytes()))?;
        sign = ",";
    }
    Ok(out)
}

/// A command and its parts, in their order.
fn cmd_text(alloc: Global, cmd: &Cmd) -> Result<String, Unread> {
    match cmd {
        Cmd::Sets => text(alloc, "sets"),
        Cmd::Versions(set) => Ok(format!(in alloc; "versions {}", shown(set.as_bytes()))?),
        Cmd::Holds(set, snap) => named(alloc, "holds", set, '@', snap.as_bytes()),
        Cmd::Snapshot(set, snap) => named(alloc, "snapshot", set, '@', snap.as_bytes()),
        Cmd::DestroySnaps(set, names) => group_text(alloc, set, names.as_slice()),
        Cmd::DestroyMark(set, mark) => named(alloc, "destroy", set, '#', mark.as_bytes()),
        Cmd::Token(token) => Ok(format!(in alloc; "token {}", shown(token.as_bytes()))?),
        Cmd::Create(set) => Ok(format!(in alloc; "create {}", shown(set.as_bytes()))?),
        Cmd::Abort(set) => Ok(format!(in alloc; "abort {}", shown(set.as_bytes()))?),
        _ => change_text(alloc, cmd),
    }
}

/// A command that these words are read as; other words that it is written in are told in its place.
fn one_text(alloc: Global, cmd: &Cmd, line: &str) -> Result<String, Unread> {
    if is_written(alloc, cmd, line)? {
        cmd_text(alloc, cmd)
    } else {
        written(alloc, cmd)
    }
}

fn call_text(alloc: Global, call: &ZfsCall, line: &str) -> Result<String, Unread> {
    match call {
        ZfsCall::One(cmd) => one_text(alloc, cmd, line),
        ZfsCall::SendFull(set, snap) => named(alloc, "send", set, '@', snap.as_bytes()),
        ZfsCall::SendFrom(set, mark, snap) => {
            let (from, to) = (('#', mark.as_bytes()), ('@', snap.as_bytes()));
            twice_named(alloc, ("send", set), from, to)
        }
        ZfsCall::SendToken(token) => {
            Ok(format!(in alloc; "send by {}", shown(token.as_bytes()))?)
        }
        ZfsCall::Receive(set, force) => {
            let how = if *force { " by force" } else { "" };
            Ok(format!(in alloc; "receive{how} {}", shown(set.as_bytes()))?)
        }
    }
}

fn read_text(
    alloc: Global,
    read: &Result<ZfsCall, ArgvFault>,
    line: &str,
) -> Result<String, Unread> {
    match read {
        Ok(call) => call_text(alloc, call, line),
        Err(ArgvFault::UnknownCommand) => text(alloc, "unknown command"),
        Err(ArgvFault::BadWord(count)) => placed(alloc, "bad word", *count),
        Err(ArgvFault::NoMemory) => Err(Unread),
    }
}

/// The words of a command that is built from names.
// What is wide is let go by hand: at the end of a scope its parts would be let go in place.
fn built_said(alloc: Global, command: &str) -> Result<String, Unread> {
    let cmd = command_of(alloc, command).ok_or(Unread)?;
    let said = written(alloc, &cmd);
    drop(cmd);
    said
}

fn call_said(alloc: Global, ask: &str) -> Result<String, Unread> {
    let words = words(alloc, ask)?;
    let read = read_argv(alloc, words.as_slice());
    let said = read_text(alloc, &read, ask);
    drop(read);
    said
}

fn said(alloc: Global, ask: &str) -> Result<String, Unread> {
    match ask.strip_prefix("build ") {
        Some(command) => built_said(alloc, command),
        None => call_said(alloc, ask),
    }
}

#[test]
fn words_of_calls(rt: HostRuntime) {
    for line in CASES.lines() {
        if let Some(ask) = ask_of(line) {
            let said = said(rt.alloc(), ask);
            assert!(rt; is_wanted(line, &said), "{line}: {}", told(&said));
        }
    }
}
