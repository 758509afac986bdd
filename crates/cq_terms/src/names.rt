//! Names, each numbered by its first appearance.

ghost use Rattle.std.specs.Prelude.{◌≡◌, ◌<◌, ◌-◌, ◌^◌, ◌↔◌, [], length, slice_get, Some, OnOk, IfOk, OnErr, IfSome, IsNone, IsTrue, Contains};
ghost use Rattle.std.specs.List.{IsDistinct};
ghost use Rattle.std.specs.Str.{bytes_eq};
ghost use Rattle.cq_terms.specs.Names.{with_text, place_of};

use crate::NoMemory;
use indexmap::IndexSet;
use std::alloc::Global;
use std::marker::Model;

/// A list of distinct texts, each seen as its bytes. The number of a text is its place.
#[derive(Debug, Drop)]
pub struct Names {
    texts: IndexSet<String>,
}

impl Model for Names {
    ghost use Rattle.std.specs.Prelude.{ℕ, List, map, string_bytes, length, ◌<◌, ◌^◌};

    ghost Value = { List (List ℕ) };

    ghost view = { λ n. map string_bytes n.texts.keys };

    ghost invariant = { λ n. length n.texts.keys < 2 ^ 32 };
}

impl Names {
    /// The empty list, which takes no memory.
    pub fn new(alloc: Global) -> Self
        ensures { result ≡ [] }
    {
        Names {
            texts: IndexSet::new(alloc),
        }
    }

    /// Answers the place of the text, which goes last where it is new.
    pub fn put(&mut self, text: &str) -> Result<u32, NoMemory>
        requires room { length self.old < 2 ^ 32 - 1 }

        ensures exact { OnOk result (self.new ≡ with_text self.old text.now) }
        ensures place { IfOk result (λ id. slice_get self.new id ≡ Some text.now) }
        ensures unchanged { OnErr result (self.new ≡ self.old) }
    {
        if let Some(id) = self.texts.get_index_of(text) {
            return Ok(id as u32);
        }
        let owned = String::from_str(*self.texts.allocator(), text)?;
        let (id, _) = self.texts.insert_full(owned)?;
        Ok(id as u32)
    }

    /// Answers the place of the text, or `None` where it isn't in the list.
    pub fn find(&self, text: &str) -> Option<u32>
        ensures exact { result ≡ place_of self.now text.now }
        ensures found { IfSome result (λ id. slice_get self.now id ≡ Some text.now) }
        ensures none { IsNone result ↔ ¬ (Contains self.now text.now) }
    {
        let id = self.texts.get_index_of(text)?;
        Some(id as u32)
    }

    /// How many texts there are.
    pub fn len(&self) -> usize
        ensures exact { result ≡ length self.now }
        ensures bound { length self.now < 2 ^ 32 }
        ensures distinct { IsDistinct bytes_eq self.now }
    {
        self.texts.len()
    }

    /// Whether there is none.
    pub fn is_empty(&self) -> bool
        ensures { IsTrue result ↔ (self.now ≡ []) }
    {
        self.texts.is_empty()
    }

    /// Lends the text at a place.
    pub fn text(&self, id: u32) -> &str
        requires named { id < length self.now }

        ensures lent { slice_get self.now id ≡ Some result.now }
    {
        self.texts[id as usize].as_str()
    }
}

/// The names of an input: concepts, roles and individuals, numbered apart.
#[derive(Debug, Drop)]
pub struct Vocab {
    /// The concept names.
    pub concepts: Names,
    /// The role names.
    pub roles: Names,
    /// The names of individuals.
    pub inds: Names,
}

impl Vocab {
    /// The vocabulary without names, which takes no memory.
    pub fn new(alloc: Global) -> Self
        ensures concepts { result.concepts ≡ [] }
        ensures roles { result.roles ≡ [] }
        ensures inds { result.inds ≡ [] }
    {
        Vocab {
            concepts: Names::new(alloc),
            roles: Names::new(alloc),
            inds: Names::new(alloc),
        }
    }
}
