//! Where a job puts what it replicates: the target of a source, its bytes, and which identities there are.
//! A line has the root, the identity of a push, and the source.

use std::alloc::Global;
use std::str::Split;
use tests_lines::{Unread, ask_of, bytes_of, column, fault, is_wanted, placed, shown, text, told};
use zr_jobs::{
    Destination, Identity, IdentityFault, TargetFault, read_identity, target_length, target_of,
};
use zr_names::{Path, read_path};

const CASES: &str = r"
# a push goes below the root and the identity
push | b | c | tank/a => b/c/tank/a, 10 bytes
push | b | c | tank => b/c/tank, 8 bytes
push | pool/sinks | host 1.example | tank/home/ann => pool/sinks/host 1.example/tank/home/ann, 39 bytes
push | b | b | b => b/b/b, 5 bytes
# a pull goes below the root
pull | b | tank/a => b/tank/a, 8 bytes
pull | pool/copies | tank => pool/copies/tank, 16 bytes
pull | b | b => b/b, 3 bytes
# a target has 147 bytes at most
push | b | c | \*a142; => b/c/aaaaaaaaaaaaaaaaaaaaaaaaaaaaaaaaaaaaaaaaaaaaaaaaaaaaaaaaaaaaaaaaaaaaaaaaaaaaaaaaaaaaaaaaaaaaaaaaaaaaaaaaaaaaaaaaaaaaaaaaaaaaaaaaaaaaaaaaaaaaaa, 146 bytes
push | b | c | \*a143; => b/c/aaaaaaaaaaaaaaaaaaaaaaaaaaaaaaaaaaaaaaaaaaaaaaaaaaaaaaaaaaaaaaaaaaaaaaaaaaaaaaaaaaaaaaaaaaaaaaaaaaaaaaaaaaaaaaaaaaaaaaaaaaaaaaaaaaaaaaaaaaaaaaa, 147 bytes
push | b | c | \*a144; => too long: 148
push | b | c | \*a145; => too long: 149
push | b | c | \*a255; => too long: 259
pull | b | \*a144; => b/aaaaaaaaaaaaaaaaaaaaaaaaaaaaaaaaaaaaaaaaaaaaaaaaaaaaaaaaaaaaaaaaaaaaaaaaaaaaaaaaaaaaaaaaaaaaaaaaaaaaaaaaaaaaaaaaaaaaaaaaaaaaaaaaaaaaaaaaaaaaaaaa, 146 bytes
pull | b | \*a145; => b/aaaaaaaaaaaaaaaaaaaaaaaaaaaaaaaaaaaaaaaaaaaaaaaaaaaaaaaaaaaaaaaaaaaaaaaaaaaaaaaaaaaaaaaaaaaaaaaaaaaaaaaaaaaaaaaaaaaaaaaaaaaaaaaaaaaaaaaaaaaaaaaaa, 147 bytes
pull | b | \*a146; => too long: 148
pull | b | \*a255; => too long: 257
# the longest parts together are 576 bytes
push | \*a255; | \*i64; | \*a255; => too long: 576
# identities are job names but dots
identity | c => c
identity | host 1.example => host 1.example
identity | ... => ...
identity | .c => .c
identity | c. => c.
identity | . => dots
identity | .. => dots
identity | \e => empty
identity | c/d => bad byte 1
identity | ../c => bad byte 2
# an identity has 64 bytes at most
identity | \*i64; => iiiiiiiiiiiiiiiiiiiiiiiiiiiiiiiiiiiiiiiiiiiiiiiiiiiiiiiiiiiiiiii
identity | \*i65; => too long: 65";

fn path(alloc: Global, text: &str) -> Result<Path, Unread> {
    Ok(read_path(alloc, bytes_of(alloc, text)?.as_slice())?)
}

fn identity(alloc: Global, text: &str) -> Result<Identity, Unread> {
    read_identity(alloc, bytes_of(alloc, text)?.as_slice())
        .ok()
        .ok_or(Unread)
}

fn pushed(alloc: Global, columns: &mut Split<'_, &'static str>) -> Result<Destination, Unread> {
    let root = path(alloc, column(columns))?;
    match identity(alloc, column(columns)) {
        Ok(identity) => Ok(Destination::Push { root, identity }),
        Err(unread) => Err(unread),
    }
}

fn target_text(alloc: Global, place: &Destination, source: &str) -> Result<String, Unread> {
    let source = path(alloc, source)?;
    match target_of(alloc, place, &source) {
        Ok(target) => target_shown(alloc, &target, target_length(place, &source)),
        Err(TargetFault::NameTooLong(bytes)) => placed(alloc, "too long:", bytes),
        Err(TargetFault::NoMemory) => Err(Unread),
    }
}

fn target_shown(alloc: Global, target: &Path, bytes: usize) -> Result<String, Unread> {
    Ok(format!(in alloc; "{}, {bytes} bytes", shown(target.as_bytes()))?)
}

fn push_text(alloc: Global, columns: &mut Split<'_, &'static str>) -> Result<String, Unread> {
    let place = pushed(alloc, columns)?;
    target_text(alloc, &place, column(columns))
}

fn pull_text(alloc: Global, columns: &mut Split<'_, &'static str>) -> Result<String, Unread> {
    let place = Destination::Pull {
        root: path(alloc, column(columns))?,
    };
    target_text(alloc, &place, column(columns))
}

fn identity_text(alloc: Global, read: &Result<Identity, IdentityFault>) -> Result<String, Unread> {
    match read {
        Ok(identity) => text(alloc, shown(identity.as_bytes())),
        Err(IdentityFault::Dots) => text(alloc, "dots"),
        Err(IdentityFault::Name(why)) => fault(alloc, *why),
    }
}

fn identity_of(alloc: Global, ask: &str) -> Result<String, Unread> {
    let read = read_identity(alloc, bytes_of(alloc, ask)?.as_slice());
    identity_text(alloc, &read)
}

fn said(alloc: Global, ask: &str) -> Result<String, Unread> {
    let mut columns = ask.split(" | ");
    match column(&mut columns) {
        "push" => push_text(alloc, &mut columns),
        "pull" => pull_text(alloc, &mut columns),
        "identity" => identity_of(alloc, column(&mut columns)),
        _ => Err(Unread),
    }
}

#[test]
fn targets_and_identities(rt: HostRuntime) {
    for line in CASES.lines() {
        if let Some(ask) = ask_of(line) {
            let said = said(rt.alloc(), ask);
            assert!(rt; is_wanted(line, &said), "{line}: {}", told(&said));
        }
    }
}
