//! The values that a table gives for its fields, each by its type.

ghost use Rattle.std.specs.Prelude.{◌≡◌};
ghost use Rattle.std.specs.Option.{option_map};
ghost use Rattle.zr_names.specs.Tree.{members_tree, tree};
ghost use Rattle.zr_jobwalk.specs.Values.{flag_in, number_in, table_in, text_in};

use crate::fault::JobFault;
use crate::field::Field;
use crate::name::DottedName;
use crate::table::Table;
use crate::texts::{self, Unread};
use std::alloc::{AllocError, Global};
use zr_jobs::Identity;
use zr_names::{JobName, Node, NodePair, Path, Prefix};
use zr_schedule::When;

#[tactic(auto, using(crate::proofs::Trees::of_null, crate::proofs::Trees::of_flag, crate::proofs::Trees::of_number, crate::proofs::Trees::of_text, crate::proofs::Trees::of_map, crate::proofs::Trees::of_sequence, crate::proofs::Trees::of_other))]
fn text_in(node: &Node) -> Option<&[u8]>
    ensures { option_map (λ text. text.now) result ≡ text_in (tree node.now) }
{
    match node {
        Node::Text(text) => Some(text.as_bytes()),
        Node::Null | Node::Flag(_) | Node::Number(_) => None,
        Node::Map(_) | Node::Seq(_) | Node::Other => None,
    }
}

#[tactic(auto, using(crate::proofs::Trees::of_null, crate::proofs::Trees::of_flag, crate::proofs::Trees::of_number, crate::proofs::Trees::of_text, crate::proofs::Trees::of_map, crate::proofs::Trees::of_sequence, crate::proofs::Trees::of_other))]
pub(crate) fn flag_in(node: &Node) -> Option<bool>
    ensures { result ≡ flag_in (tree node.now) }
{
    match node {
        Node::Flag(flag) => Some(*flag),
        Node::Null | Node::Number(_) | Node::Text(_) => None,
        Node::Map(_) | Node::Seq(_) | Node::Other => None,
    }
}

#[tactic(auto, using(crate::proofs::Trees::of_null, crate::proofs::Trees::of_flag, crate::proofs::Trees::of_number, crate::proofs::Trees::of_text, crate::proofs::Trees::of_map, crate::proofs::Trees::of_sequence, crate::proofs::Trees::of_other))]
fn number_in(node: &Node) -> Option<u64>
    ensures { result ≡ number_in (tree node.now) }
{
    match node {
        Node::Number(number) => Some(*number),
        Node::Null | Node::Flag(_) | Node::Text(_) => None,
        Node::Map(_) | Node::Seq(_) | Node::Other => None,
    }
}

#[tactic(auto, using(crate::proofs::Trees::of_null, crate::proofs::Trees::of_flag, crate::proofs::Trees::of_number, crate::proofs::Trees::of_text, crate::proofs::Trees::of_map, crate::proofs::Trees::of_sequence, crate::proofs::Trees::of_other))]
pub(crate) fn table_in(node: &Node) -> Option<&[NodePair]>
    ensures { option_map (λ pairs. members_tree pairs.now) result ≡ table_in (tree node.now) }
{
    match node {
        Node::Map(pairs) => Some(pairs.as_slice()),
        Node::Null | Node::Flag(_) | Node::Number(_) => None,
        Node::Text(_) | Node::Seq(_) | Node::Other => None,
    }
}

impl<'a> Table<'a> {
    ghost use Rattle.std.specs.Prelude.{◌≡◌, ◌≢◌, ◌++◌, [], Some, IfOk, IfErr, codes, is_none};
    ghost use Rattle.zr_names.specs.Tree.{tree};
    ghost use Rattle.zr_jobwalk.specs.Faults.{HasFault, IsBad, NoTable, NoText, dotted, field_of};
    ghost use Rattle.zr_jobwalk.specs.Tables.{members_in, section};
    ghost use Rattle.zr_jobwalk.specs.Values.{Has, HasTable, HasText, IsFlag, IsNumber, IsText};
    ghost use Rattle.zr_jobwalk.specs.Texts.{IsEvery, IsInterval, IsJobName, IsLocal, IsMinutes, IsPath, IsPrefix, NamesClient};

    /// The text of a field that has to be there.
    pub fn text(&self, field: Field) -> Result<&'a [u8], JobFault>
        ensures text { IfOk result (λ text. HasText (field_of (section self.now) field) text.now) }
        ensures fault { IfErr result
            (λ fault. fault ≢ JobFault.NoMemory → HasFault NoText (section self.now) field fault) }
    {
        let Some(node) = self.given(field.name().as_bytes()) else {
            return Err(self.missing(field));
        };
        match text_in(node) {
            Some(text) => Ok(text),
            None => Err(self.bad_value(field)),
        }
    }

    /// Why the text of a field was not taken.
    pub fn unread(&self, field: Field, unread: Unread) -> JobFault
        ensures bad { result ≢ JobFault.NoMemory → unread ≡ Unread.Bad }
        ensures told { result ≢ JobFault.NoMemory
            → result ≡ JobFault.BadValue (dotted (section self.now) field) }
    {
        match unread {
            Unread::Bad => self.bad_value(field),
            Unread::NoMemory => JobFault::NoMemory,
        }
    }

    /// Refuses another text than `local`.
    pub(crate) fn local(&self, field: Field) -> Result<(), JobFault>
        ensures local { IfOk result
            (λ unit. Has (IsText IsLocal) (field_of (section self.now) field) unit) }
        ensures fault { IfErr result (λ fault. fault ≢ JobFault.NoMemory
            → HasFault (IsBad (IsText IsLocal)) (section self.now) field fault) }
    {
        let text = self.text(field)?;
        match texts::local(text) {
            Ok(()) => Ok(()),
            Err(unread) => Err(self.unread(field, unread)),
        }
    }

    /// The name of a job or of a listener.
    pub fn job_name(&self, field: Field) -> Result<JobName, JobFault>
        ensures name { IfOk result
            (λ name. Has (IsText IsJobName) (field_of (section self.now) field) name) }
        ensures fault { IfErr result (λ fault. fault ≢ JobFault.NoMemory
            → HasFault (IsBad (IsText IsJobName)) (section self.now) field fault) }
    {
        let text = self.text(field)?;
        match texts::job_name(self.alloc, text) {
            Ok(name) => Ok(name),
            Err(unread) => Err(self.unread(field, unread)),
        }
    }

    /// The name by which a server knows a client.
    pub(crate) fn identity(&self, field: Field) -> Result<Identity, JobFault>
        ensures name { IfOk result
            (λ name. Has (IsText NamesClient) (field_of (section self.now) field) name) }
        ensures fault { IfErr result (λ fault. fault ≢ JobFault.NoMemory
            → HasFault (IsBad (IsText NamesClient)) (section self.now) field fault) }
    {
        let text = self.text(field)?;
        match texts::identity(self.alloc, text) {
            Ok(identity) => Ok(identity),
            Err(unread) => Err(self.unread(field, unread)),
        }
    }

    /// The outermost table. What is no map is as a map without keys.
    pub fn root(alloc: Global, node: &'a Node) -> Table<'a>
        ensures front { result.front ≡ [] }
        ensures members { (section result).members ≡ members_in (tree node.now) }
    {
        Table {
            alloc,
            front: DottedName::empty(alloc),
            pairs: table_in(node).unwrap_or(&[]),
        }
    }

    /// Whether there is nothing for a field.
    pub fn lacks(&self, field: Field) -> bool
        ensures { result ≡ is_none (field_of (section self.now) field) }
    {
        self.given(field.name().as_bytes()).is_none()
    }

    /// The table of a field that has to be there.
    pub fn table(&self, field: Field) -> Result<Table<'a>, JobFault>
        ensures members { IfOk result
            (λ table. HasTable (field_of (section self.now) field) (section table).members) }
        ensures front { IfOk result
            (λ table. (section table).front ≡ dotted (section self.now) field ++ codes ".") }
        ensures fault { IfErr result
            (λ fault. fault ≢ JobFault.NoMemory → HasFault NoTable (section self.now) field fault) }
    {
        let Some(node) = self.given(field.name().as_bytes()) else {
            return Err(self.missing(field));
        };
        match table_in(node) {
            Some(pairs) => Ok(self.inner(field, pairs)?),
            None => Err(self.bad_value(field)),
        }
    }

    fn inner(&self, field: Field, pairs: &'a [NodePair]) -> Result<Table<'a>, AllocError>
        ensures members { IfOk result (λ table. table.pairs.now ≡ pairs.now) }
        ensures front { IfOk result
            (λ table. table.front ≡ dotted (section self.now) field ++ codes ".") }
    {
        let name = self.dotted(field)?;
        let front = name.with(self.alloc, ".")?;
        Ok(Table {
            alloc: self.alloc,
            front,
            pairs,
        })
    }

    /// A field that is true or false.
    pub fn flag(&self, field: Field) -> Result<bool, JobFault>
        ensures flag { IfOk result (λ flag. Has IsFlag (field_of (section self.now) field) flag) }
        ensures fault { IfErr result (λ fault. fault ≢ JobFault.NoMemory
            → HasFault (IsBad IsFlag) (section self.now) field fault) }
    {
        let Some(node) = self.given(field.name().as_bytes()) else {
            return Err(self.missing(field));
        };
        match flag_in(node) {
            Some(flag) => Ok(flag),
            None => Err(self.bad_value(field)),
        }
    }

    /// A field with a whole number from `low` to `high`.
    pub fn number(&self, field: Field, low: u32, high: u32) -> Result<u32, JobFault>
        ensures number { IfOk result
            (λ n. Has (IsNumber low high) (field_of (section self.now) field) n) }
        ensures fault { IfErr result (λ fault. fault ≢ JobFault.NoMemory
            → HasFault (IsBad (IsNumber low high)) (section self.now) field fault) }
    {
        let Some(node) = self.given(field.name().as_bytes()) else {
            return Err(self.missing(field));
        };
        match number_in(node) {
            Some(n) if u64::from(low) <= n && n <= u64::from(high) => Ok(n as u32),
            Some(_) | None => Err(self.bad_value(field)),
        }
    }

    /// What the names of snapshots begin with; it is there.
    pub(crate) fn prefix(&self, field: Field) -> Result<Option<Prefix>, JobFault>
        ensures value { IfOk result
            (λ value. Has (IsText IsPrefix) (field_of (section self.now) field) value) }
        ensures fault { IfErr result (λ fault. fault ≢ JobFault.NoMemory
            → HasFault (IsBad (IsText IsPrefix)) (section self.now) field fault) }
    {
        let text = self.text(field)?;
        match texts::prefix(self.alloc, text) {
            Ok(value) => Ok(value),
            Err(unread) => Err(self.unread(field, unread)),
        }
    }

    /// The path of a dataset.
    pub fn path(&self, field: Field) -> Result<Path, JobFault>
        ensures value { IfOk result
            (λ value. Has (IsText IsPath) (field_of (section self.now) field) value) }
        ensures fault { IfErr result (λ fault. fault ≢ JobFault.NoMemory
            → HasFault (IsBad (IsText IsPath)) (section self.now) field fault) }
    {
        let text = self.text(field)?;
        match texts::path(self.alloc, text) {
            Ok(value) => Ok(value),
            Err(unread) => Err(self.unread(field, unread)),
        }
    }

    /// An interval, or `manual`.
    pub fn interval(&self, field: Field) -> Result<When, JobFault>
        ensures value { IfOk result
            (λ value. Has (IsText IsInterval) (field_of (section self.now) field) value) }
        ensures fault { IfErr result (λ fault. fault ≢ JobFault.NoMemory
            → HasFault (IsBad (IsText IsInterval)) (section self.now) field fault) }
    {
        let text = self.text(field)?;
        match texts::interval(text) {
            Ok(value) => Ok(value),
            Err(unread) => Err(self.unread(field, unread)),
        }
    }

    /// An interval.
    pub(crate) fn every(&self, field: Field) -> Result<When, JobFault>
        ensures value { IfOk result
            (λ value. Has (IsText IsEvery) (field_of (section self.now) field) value) }
        ensures fault { IfErr result (λ fault. fault ≢ JobFault.NoMemory
            → HasFault (IsBad (IsText IsEvery)) (section self.now) field fault) }
    {
        let text = self.text(field)?;
        match texts::every(text) {
            Ok(value) => Ok(value),
            Err(unread) => Err(self.unread(field, unread)),
        }
    }

    /// The minutes of a cron text.
    pub(crate) fn minutes(&self, field: Field) -> Result<When, JobFault>
        ensures value { IfOk result
            (λ value. Has (IsText IsMinutes) (field_of (section self.now) field) value) }
        ensures fault { IfErr result (λ fault. fault ≢ JobFault.NoMemory
            → HasFault (IsBad (IsText IsMinutes)) (section self.now) field fault) }
    {
        let text = self.text(field)?;
        match texts::minutes(text) {
            Ok(value) => Ok(value),
            Err(unread) => Err(self.unread(field, unread)),
        }
    }
}
