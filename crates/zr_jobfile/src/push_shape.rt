//! The shape of a job file with a push job and the sink job that it pushes to.
ghost use Rattle.std.specs.Prelude.{◌≡◌, ◌≢◌, ◌↔◌, ℕ, List, false, IsTrue, codes, IfSome, IfNone};
ghost use Rattle.toml.specs.Data.{array, Data, member, Members, no_items, no_members, string};
ghost use Rattle.toml.specs.View.{members_view, table_view, view};
ghost use Rattle.zr_jobfile.specs.PushFile.{connect_end, connect_tree, local_end, no_rules_end, no_rules_tree, push_end, push_file, push_tree, PushJob, serve_tree, sink_tree, SinkJob, two_items, two_jobs_file};

use crate::shape::{
    is_done, is_end, is_last_type, members_of, next_member, next_pattern, next_text,
};
use std::collections::btree_map::Iter;
use std::marker::Model;
use toml::{Table, Value};

/// What is free in a push job.
#[derive(Drop)]
pub(crate) struct PushParts<'a> {
    pub(crate) name: &'a str,
    pub(crate) listener: &'a str,
    pub(crate) identity: &'a str,
    pub(crate) path: &'a str,
}

impl<'a> Model for PushParts<'a> {
    ghost use Rattle.zr_jobfile.specs.PushFile.{PushJob};

    ghost Value = { PushJob };

    ghost view = { λ p. record { name = p.name.now; listener = p.listener.now; identity = p.identity.now; path = p.path.now } };
}

/// What is free in a sink job.
#[derive(Drop)]
pub(crate) struct SinkParts<'a> {
    pub(crate) name: &'a str,
    pub(crate) root: &'a str,
    pub(crate) listener: &'a str,
}

impl<'a> Model for SinkParts<'a> {
    ghost use Rattle.zr_jobfile.specs.PushFile.{SinkJob};

    ghost Value = { SinkJob };

    ghost view = { λ s. record { name = s.name.now; root = s.root.now; listener = s.listener.now } };
}

/// What a client says of itself where it connects.
#[derive(Drop)]
struct Client<'a> {
    identity: &'a str,
    listener: &'a str,
}

/// The listener with which one end of a connection ends.
fn last_listener<'a>(members: &mut Iter<'a, String, Value>) -> Option<&'a str>
    ensures found { IfSome result (λ listener. members_view members.old ≡ local_end listener.now) }
    ensures missing { IfNone result
        ((listener : List ℕ) → members_view members.old ≢ local_end listener) }
{
    let listener = next_text(members, "listener_name")?;
    if is_last_type(members, "local") {
        Some(listener)
    } else {
        None
    }
}

/// The client with which the connecting end ends.
fn last_client<'a>(members: &mut Iter<'a, String, Value>) -> Option<Client<'a>>
    ensures found { IfSome result
        (λ client. members_view members.old ≡ connect_end client.identity.now client.listener.now) }
    ensures missing { IfNone result
        ((identity listener : List ℕ) → members_view members.old ≢ connect_end identity listener) }
{
    let identity = next_text(members, "client_identity")?;
    let listener = last_listener(members)?;
    Some(Client { identity, listener })
}

fn client_of<'a>(value: &'a Value) -> Option<Client<'a>>
    ensures found { IfSome result
        (λ client. view value.now ≡ connect_tree client.identity.now client.listener.now) }
    ensures missing { IfNone result
        ((identity listener : List ℕ) → view value.now ≢ connect_tree identity listener) }
{
    last_client(&mut members_of(value)?)
}

fn served_listener<'a>(value: &'a Value) -> Option<&'a str>
    ensures found { IfSome result (λ listener. view value.now ≡ serve_tree listener.now) }
    ensures missing { IfNone result ((listener : List ℕ) → view value.now ≢ serve_tree listener) }
{
    last_listener(&mut members_of(value)?)
}

/// The client of a push job, where its connection comes next.
fn next_client<'a>(members: &mut Iter<'a, String, Value>) -> Option<Client<'a>>
    ensures found { IfSome result
        (λ client. members_view members.old
        ≡ member (codes "connect") (connect_tree client.identity.now client.listener.now)
        (members_view members.new)) }
    ensures missing { IfNone result
        ((identity listener : List ℕ) (rest : Members)
        → members_view members.old
        ≢ member (codes "connect") (connect_tree identity listener) rest) }
{
    match next_member(members, "connect") {
        Some(connect) => client_of(connect),
        None => None,
    }
}

/// The listener of a sink job, where it comes next.
fn next_served<'a>(members: &mut Iter<'a, String, Value>) -> Option<&'a str>
    ensures found { IfSome result
        (λ listener. members_view members.old
        ≡ member (codes "serve") (serve_tree listener.now) (members_view members.new)) }
    ensures missing { IfNone result
        ((listener : List ℕ) (rest : Members)
        → members_view members.old ≢ member (codes "serve") (serve_tree listener) rest) }
{
    match next_member(members, "serve") {
        Some(serve) => served_listener(serve),
        None => None,
    }
}

fn is_empty(value: &Value) -> bool
    ensures { IsTrue result ↔ (view value.now ≡ array no_items) }
{
    match value.as_array() {
        Some(items) => items.as_slice().is_empty(),
        None => false,
    }
}

/// Whether the next member has this key and an empty array.
fn is_next_empty(members: &mut Iter<'_, String, Value>, key: &str) -> bool
    ensures found { IsTrue result
        → members_view members.old ≡ member key.now (array no_items) (members_view members.new) }
    ensures missing { result ≡ false → (rest : Members)
        → members_view members.old ≢ member key.now (array no_items) rest }
{
    match next_member(members, key) {
        Some(value) => is_empty(value),
        None => false,
    }
}

/// Whether nothing is left but this key and an empty array.
fn is_last_empty(members: &mut Iter<'_, String, Value>, key: &str) -> bool
    ensures { IsTrue result ↔ (members_view members.old
        ≡ member key.now (array no_items) no_members) }
{
    is_next_empty(members, key) && is_done(members)
}

/// Whether nothing is left but the two empty lists of rules.
fn is_without_rules(members: &mut Iter<'_, String, Value>) -> bool
    ensures { IsTrue result ↔ (members_view members.old ≡ no_rules_end) }
{
    is_next_empty(members, "keep_receiver") && is_last_empty(members, "keep_sender")
}

fn has_no_rules(value: &Value) -> bool
    ensures { IsTrue result ↔ (view value.now ≡ no_rules_tree) }
{
    match members_of(value) {
        Some(mut members) => is_without_rules(&mut members),
        None => false,
    }
}

/// Whether a push job ends here, with no rules and manual snapshotting.
fn is_push_end(members: &mut Iter<'_, String, Value>) -> bool
    ensures { IsTrue result ↔ (members_view members.old ≡ push_end) }
{
    match next_member(members, "pruning") {
        Some(pruning) => has_no_rules(pruning) && is_end(members, "push"),
        None => false,
    }
}

/// The name with which a push job ends, before what is not free in it.
fn last_name<'a>(members: &mut Iter<'a, String, Value>) -> Option<&'a str>
    ensures found { IfSome result
        (λ name. members_view members.old ≡ member (codes "name") (string name.now) push_end) }
    ensures missing { IfNone result
        ((name : List ℕ) → members_view members.old
        ≢ member (codes "name") (string name) push_end) }
{
    let name = next_text(members, "name")?;
    if is_push_end(members) {
        Some(name)
    } else {
        None
    }
}

/// The parts of a push job.
fn push_parts<'a>(value: &'a Value) -> Option<PushParts<'a>>
    ensures found { IfSome result (λ push. view value.now ≡ push_tree push) }
    ensures missing { IfNone result ((push : PushJob) → view value.now ≢ push_tree push) }
{
    let mut members = members_of(value)?;
    let client = next_client(&mut members)?;
    let path = next_pattern(&mut members)?;
    let name = last_name(&mut members)?;
    Some(PushParts {
        name,
        listener: client.listener,
        identity: client.identity,
        path,
    })
}

/// The parts of a sink job.
fn sink_parts<'a>(value: &'a Value) -> Option<SinkParts<'a>>
    ensures found { IfSome result (λ sink. view value.now ≡ sink_tree sink) }
    ensures missing { IfNone result ((sink : SinkJob) → view value.now ≢ sink_tree sink) }
{
    let mut members = members_of(value)?;
    let name = next_text(&mut members, "name")?;
    let root = next_text(&mut members, "root_fs")?;
    let listener = next_served(&mut members)?;
    if is_last_type(&mut members, "sink") {
        Some(SinkParts {
            name,
            root,
            listener,
        })
    } else {
        None
    }
}

/// The two items of an array.
fn two_items<'a>(value: &'a Value) -> Option<(&'a Value, &'a Value)>
    ensures found { IfSome result
        (λ pair. view value.now ≡ two_items (view pair.0.now) (view pair.1.now)) }
    ensures missing { IfNone result
        ((first second : Data) → view value.now ≢ two_items first second) }
{
    match value.as_array()?.as_slice() {
        [first, second] => Some((first, second)),
        _ => None,
    }
}

/// The two jobs of a file.
fn two_jobs<'a>(tree: &'a Table) -> Option<(&'a Value, &'a Value)>
    ensures found { IfSome result
        (λ pair. table_view tree.now ≡ two_jobs_file (view pair.0.now) (view pair.1.now)) }
    ensures missing { IfNone result
        ((first second : Data) → table_view tree.now ≢ two_jobs_file first second) }
{
    let mut members = tree.iter();
    let jobs = next_member(&mut members, "jobs")?;
    if is_done(&mut members) {
        two_items(jobs)
    } else {
        None
    }
}

/// The parts of a file with a push job and then a sink job.
pub(crate) fn push_file_parts<'a>(tree: &'a Table) -> Option<(PushParts<'a>, SinkParts<'a>)>
    ensures found { IfSome result (λ pair. table_view tree.now ≡ push_file pair.0 pair.1) }
    ensures missing { IfNone result
        ((push : PushJob) (sink : SinkJob) → table_view tree.now ≢ push_file push sink) }
{
    let (push, sink) = two_jobs(tree)?;
    let push = push_parts(push)?;
    let sink = sink_parts(sink)?;
    Some((push, sink))
}
