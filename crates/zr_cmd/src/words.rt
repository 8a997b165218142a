//! A list of words, which contracts see as the list of their bytes.

use std::alloc::{AllocError, Global};
use std::marker::Model;

/// A list of words. Contracts see it as the list of their bytes.
#[derive(Drop)]
pub struct Words {
    words: Vec<String>,
}

impl Model for Words {
    ghost use Rattle.std.specs.Prelude.{List, ℕ, map};
    ghost use Rattle.std.specs.String.{string_bytes};

    ghost Value = { List (List ℕ) };

    ghost view = { λ w. map string_bytes w.words.items };
}

impl Words {
    ghost use Rattle.std.specs.Prelude.{◌≡◌, [], ◌∷◌, ◌++◌, map, IfOk, OnOk};
    ghost use Rattle.std.specs.String.{string_bytes};

    pub fn new(alloc: Global) -> Words
        ensures { result ≡ [] }
    {
        Words {
            words: Vec::new(alloc),
        }
    }

    pub fn as_slice(&self) -> &[String]
        ensures { map string_bytes result.now ≡ self.now }
    {
        self.words.as_slice()
    }

    /// Takes one more word.
    pub fn push(&mut self, word: String) -> Result<(), AllocError>
        ensures { OnOk result (self.new ≡ self.old ++ string_bytes word ∷ []) }
    {
        self.words.push(word)?;
        Ok(())
    }

    /// Takes more words.
    pub fn push_all(&mut self, alloc: Global, texts: &[&str]) -> Result<(), AllocError>
        ensures { OnOk result (self.new ≡ self.old ++ map (λ text. text.now) texts.now) }
    {
        for text in texts {
            self.push(String::from_str(alloc, text)?)?;
        }
        Ok(())
    }
}
