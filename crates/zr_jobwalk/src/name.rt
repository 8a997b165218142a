//! The dotted names of fields, as `jobs[0].connect.type`.

ghost use Rattle.std.specs.Prelude.{◌≡◌, ◌∷◌, [], encode_utf8};
ghost use Rattle.zr_jobwalk.specs.Fields.{shown_byte};

use std::alloc::{AllocError, Global};
use std::marker::Model;

/// The name of a field with those of the tables that it stands in. Contracts see its bytes.
#[derive(Debug, Drop)]
pub struct DottedName {
    text: String,
}

impl Model for DottedName {
    ghost use Rattle.std.specs.Prelude.{List, ℕ, string_bytes};

    ghost Value = { List ℕ };

    ghost view = { λ name. string_bytes name.text };
}

/// A byte as names show it.
#[tactic(auto, using(std::proofs::lemmas::Str::encode_ascii))]
fn shown_byte(byte: u8) -> char
    ensures value { result ≡ shown_byte byte }
    ensures one_byte { encode_utf8 result ≡ shown_byte byte ∷ [] }
{
    if byte < b' ' || byte > b'~' {
        '?'
    } else {
        char::from(byte)
    }
}

impl DottedName {
    ghost use Rattle.std.specs.Prelude.{◌≡◌, ◌++◌, ◌∷◌, [], IfOk, codes};
    ghost use Rattle.zr_jobwalk.specs.Fields.{shown};
    ghost use Rattle.std.specs.Fmt.{decimal};

    /// What the names of the outermost fields begin with: nothing.
    pub(crate) fn empty(alloc: Global) -> DottedName
        ensures { result ≡ [] }
    {
        DottedName {
            text: String::new(alloc),
        }
    }

    pub fn as_str(&self) -> &str
        ensures { result.now ≡ self.now }
    {
        self.text.as_str()
    }

    /// The name with this text behind it.
    pub(crate) fn with(&self, alloc: Global, more: &str) -> Result<DottedName, AllocError>
        ensures { IfOk result (λ name. name ≡ self.now ++ more.now) }
    {
        let mut text = String::from_str(alloc, self.as_str())?;
        text.push_str(more)?;
        Ok(DottedName { text })
    }

    /// The name with a key behind it that may have any bytes.
    pub(crate) fn with_key(&self, alloc: Global, key: &[u8]) -> Result<DottedName, AllocError>
        ensures { IfOk result (λ name. name ≡ self.now ++ shown key.now) }
    {
        let mut text = String::from_str(alloc, self.as_str())?;
        for byte in key {
            text.push(shown_byte(*byte))?;
        }
        Ok(DottedName { text })
    }

    /// The name of a part of the array of this name.
    pub(crate) fn part(&self, alloc: Global, index: usize) -> Result<DottedName, AllocError>
        ensures { IfOk result (λ name. name ≡ self.now ++ codes "[" ++ decimal index ++ codes "]") }
    {
        let mut text = String::from_str(alloc, self.as_str())?;
        write!(text, "[{index}]")?;
        Ok(DottedName { text })
    }
}
