//! Writes listings as ZFS prints them, for the model program.

ghost use Rattle.std.specs.Prelude.{◌≡◌, ◌≢◌, ◌∷◌, ◌++◌, AllPairs, IfOk, IfSome, OnOk, flat_map};
ghost use Rattle.std.specs.Fmt.{decimal};
ghost use Rattle.zr_names.specs.Names.{IsName, name_is_bad, tag_is_bad, token_is_bad};
ghost use Rattle.zr_names.specs.declared.names.TheConstants.{NAME_LIMIT, TOKEN_LIMIT};
ghost use Rattle.zr_listing.specs.Columns.{full_name};
ghost use Rattle.zr_listing.specs.Order.{bare_name};
ghost use Rattle.zr_listing.specs.Listing.{IsHoldListing, IsSetListing, IsVersionListing};
ghost use Rattle.zr_listing.specs.Printing.{ended, hold_line, IsSetRow, IsVersionRow, MarksAreFree, refs_text, set_line, token_text, version_line};
ghost use Rattle.zr_command.specs.Listings.{IsSetList, IsVersionList};

use std::alloc::{AllocError, Global};
use zr_command::{SetRow, VersionName, VersionRow};
use zr_names::{NoMemory, Path, SnapName, Tag, TokenText};

/// Prints a tab and a number.
fn push_number(alloc: Global, out: &mut Vec<u8>, n: u64) -> Result<(), AllocError>
    ensures { OnOk result (out.new.items ≡ out.old.items ++ 9 ∷ decimal n) }
{
    out.push(b'\t')?;
    let text = n.to_string(alloc)?;
    out.extend_from_slice(text.as_bytes())
}

fn push_token(out: &mut Vec<u8>, token: &Option<TokenText>) -> Result<(), AllocError>
    ensures text { OnOk result (out.new.items ≡ out.old.items ++ token_text token.now) }
    ensures valid { OnOk result (IfSome token.now (IsName token_is_bad TOKEN_LIMIT)) }
{
    match token {
        Some(token) => out.extend_from_slice(token.as_bytes()),
        None => out.extend_from_slice(b"-"),
    }
}

fn push_set(out: &mut Vec<u8>, row: &SetRow) -> Result<(), AllocError>
    ensures text { OnOk result (out.new.items ≡ out.old.items ++ ended (set_line row.now)) }
    ensures valid { OnOk result (IsSetRow row.now) }
{
    out.extend_from_slice(row.path.as_bytes())?;
    out.push(b'\t')?;
    out.extend_from_slice(if row.placeholder { b"on" } else { b"-" })?;
    out.push(b'\t')?;
    push_token(out, &row.token)?;
    out.push(b'\n')?;
    Ok(())
}

/// Prints a listing of datasets.
pub fn print_sets(alloc: Global, rows: &[SetRow]) -> Result<Vec<u8>, NoMemory>
    ensures text { IfOk result
        (λ text. text.items ≡ flat_map (λ row. ended (set_line row)) rows.now) }
    ensures read_back { IfOk result
        (λ text. IsSetList rows.now → IsSetListing text.items rows.now) }
{
    let mut out = Vec::new(alloc);
    for row in rows {
        push_set(&mut out, row)?;
    }
    Ok(out)
}

fn push_name(out: &mut Vec<u8>, path: &[u8], name: &VersionName) -> Result<(), AllocError>
    ensures text { OnOk result (out.new.items ≡ out.old.items ++ full_name path.now name.now) }
    ensures valid { OnOk result (IsName name_is_bad NAME_LIMIT (bare_name name.now)) }
{
    out.extend_from_slice(path)?;
    match name {
        VersionName::Snap(name) => {
            out.push(b'@')?;
            out.extend_from_slice(name.as_bytes())
        }
        VersionName::Mark(name) => {
            out.push(b'#')?;
            out.extend_from_slice(name.as_bytes())
        }
    }
}

fn push_refs(
    alloc: Global,
    out: &mut Vec<u8>,
    name: &VersionName,
    refs: u64,
) -> Result<(), AllocError>
    ensures { OnOk result (out.new.items ≡ out.old.items ++ 9 ∷ refs_text name.now refs) }
{
    match name {
        VersionName::Snap(_) => push_number(alloc, out, refs),
        VersionName::Mark(_) => out.extend_from_slice(b"\t-"),
    }
}

fn push_version(
    alloc: Global,
    out: &mut Vec<u8>,
    path: &[u8],
    row: &VersionRow,
) -> Result<(), AllocError>
    ensures text { OnOk result
        (out.new.items ≡ out.old.items ++ ended (version_line path.now row.now)) }
    ensures valid { OnOk result (IsVersionRow row.now) }
{
    push_name(out, path, &row.name)?;
    push_number(alloc, out, row.guid.0)?;
    push_number(alloc, out, row.txg)?;
    push_number(alloc, out, row.creation)?;
    push_refs(alloc, out, &row.name, row.refs)?;
    out.push(b'\n')?;
    Ok(())
}

/// Prints a listing of the versions of the dataset at this path; a bookmark's holds are printed as `-`.
pub fn print_versions(alloc: Global, path: &Path, rows: &[VersionRow]) -> Result<Vec<u8>, NoMemory>
    ensures text { IfOk result
        (λ text. text.items ≡ flat_map (λ row. ended (version_line path.now row)) rows.now) }
    ensures read_back { IfOk result (λ text.
        IsVersionList rows.now → MarksAreFree rows.now
        → IsVersionListing path.now text.items rows.now) }
{
    let mut out = Vec::new(alloc);
    let dataset = path.as_bytes();
    for row in rows {
        push_version(alloc, &mut out, dataset, row)?;
    }
    Ok(out)
}

fn push_hold(out: &mut Vec<u8>, path: &[u8], snap: &[u8], tag: &Tag) -> Result<(), AllocError>
    ensures text { OnOk result
        (out.new.items ≡ out.old.items ++ ended (hold_line path.now snap.now tag.now)) }
    ensures valid { OnOk result (IsName tag_is_bad NAME_LIMIT tag.now) }
{
    out.extend_from_slice(path)?;
    out.push(b'@')?;
    out.extend_from_slice(snap)?;
    out.push(b'\t')?;
    out.extend_from_slice(tag.as_bytes())?;
    out.extend_from_slice(b"\t0\n")
}

/// Prints a listing of the holds of the snapshot of this name at this path, `0` in place of each date.
pub fn print_holds(
    alloc: Global,
    path: &Path,
    snap: &SnapName,
    tags: &[Tag],
) -> Result<Vec<u8>, NoMemory>
    ensures text { IfOk result
        (λ text. text.items ≡ flat_map (λ tag. ended (hold_line path.now snap.now tag)) tags.now) }
    ensures read_back { IfOk result (λ text.
        AllPairs (λ a b. a ≢ b) tags.now → IsHoldListing path.now snap.now text.items tags.now) }
{
    let mut out = Vec::new(alloc);
    let dataset = path.as_bytes();
    let name = snap.as_bytes();
    for tag in tags {
        push_hold(&mut out, dataset, name, tag)?;
    }
    Ok(out)
}
