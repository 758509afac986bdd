//! Lists of numbers, of lists and of texts, seen as the lists that they are.

ghost use Rattle.std.specs.Prelude.{◌≡◌, ◌↔◌, ◌++◌, ◌∷◌, [], length, map, string_bytes, Contains, IsTrue, IfOk, OnOk, OnErr};
ghost use Rattle.cq_terms.specs.Lists.{IsAscending, IsSorted};

use crate::NoMemory;
use smallvec::SmallVec;
use std::alloc::Global;
use std::marker::Model;

/// A list of numbers below 2^32, of which up to four take no memory of their own.
#[derive(Debug, Drop)]
pub struct Ids {
    items: SmallVec<u32, 4>,
}

impl Model for Ids {
    ghost use Rattle.std.specs.Prelude.{List, ℕ};

    ghost Value = { List ℕ };

    ghost view = { λ a. a.items.items };
}

impl Ids {
    /// The empty list, which takes no memory.
    pub fn new(alloc: Global) -> Self
        ensures { result ≡ [] }
    {
        Ids {
            items: SmallVec::new(alloc),
        }
    }

    /// The list of these numbers.
    pub fn from_slice(alloc: Global, numbers: &[u32]) -> Result<Self, NoMemory>
        ensures exact { IfOk result (λ ids. ids ≡ numbers.now) }
    {
        let items = SmallVec::from_slice(alloc, numbers)?;
        Ok(Ids { items })
    }

    /// The ascending list of these numbers, each once.
    pub fn sorted(alloc: Global, numbers: &[u32]) -> Result<Self, NoMemory>
        ensures exact { IfOk result (IsSorted numbers.now) }
    {
        let mut items = SmallVec::from_slice(alloc, numbers)?;
        items.sort_unstable();
        items.dedup();
        Ok(Ids { items })
    }

    /// Appends a number.
    pub fn push(&mut self, item: u32) -> Result<(), NoMemory>
        ensures exact { OnOk result (self.new ≡ self.old ++ item ∷ []) }
        ensures unchanged { OnErr result (self.new ≡ self.old) }
    {
        self.items.push(item)?;
        Ok(())
    }

    /// How many numbers there are.
    pub fn len(&self) -> usize
        ensures { result ≡ length self.now }
    {
        self.items.len()
    }

    /// Whether there is none.
    pub fn is_empty(&self) -> bool
        ensures { IsTrue result ↔ (self.now ≡ []) }
    {
        self.items.is_empty()
    }

    /// Lends the numbers.
    pub fn as_slice(&self) -> &[u32]
        ensures lent { result.now ≡ self.now }
    {
        self.items.as_slice()
    }
}

/// Whether the ascending list has the number, by halving.
pub fn has_sorted(list: &[u32], number: u32) -> bool
    requires ascending { IsAscending list.now }

    ensures exact { IsTrue result ↔ Contains list.now number }
{
    list.binary_search(&number).is_ok()
}

/// A list of numbers below 2^64, of which up to four take no memory of their own.
#[derive(Debug, Drop)]
pub struct Longs {
    items: SmallVec<u64, 4>,
}

impl Model for Longs {
    ghost use Rattle.std.specs.Prelude.{List, ℕ};

    ghost Value = { List ℕ };

    ghost view = { λ a. a.items.items };
}

impl Longs {
    /// The empty list, which takes no memory.
    pub fn new(alloc: Global) -> Self
        ensures { result ≡ [] }
    {
        Longs {
            items: SmallVec::new(alloc),
        }
    }

    /// The list of these numbers.
    pub fn from_slice(alloc: Global, numbers: &[u64]) -> Result<Self, NoMemory>
        ensures exact { IfOk result (λ longs. longs ≡ numbers.now) }
    {
        Ok(Longs {
            items: SmallVec::from_slice(alloc, numbers)?,
        })
    }

    /// Appends a number.
    pub fn push(&mut self, item: u64) -> Result<(), NoMemory>
        ensures exact { OnOk result (self.new ≡ self.old ++ item ∷ []) }
        ensures unchanged { OnErr result (self.new ≡ self.old) }
    {
        self.items.push(item)?;
        Ok(())
    }

    /// How many numbers there are.
    pub fn len(&self) -> usize
        ensures { result ≡ length self.now }
    {
        self.items.len()
    }

    /// Whether there is none.
    pub fn is_empty(&self) -> bool
        ensures { IsTrue result ↔ (self.now ≡ []) }
    {
        self.items.is_empty()
    }

    /// Lends the numbers.
    pub fn as_slice(&self) -> &[u64]
        ensures lent { result.now ≡ self.now }
    {
        self.items.as_slice()
    }
}

/// A list of lists of numbers.
#[derive(Debug, Drop)]
pub struct IdLists {
    items: Vec<Ids>,
}

impl Model for IdLists {
    ghost use Rattle.std.specs.Prelude.{List, ℕ};

    ghost Value = { List (List ℕ) };

    ghost view = { λ a. a.items.items };
}

impl IdLists {
    /// The empty list, which takes no memory.
    pub fn new(alloc: Global) -> Self
        ensures { result ≡ [] }
    {
        IdLists {
            items: Vec::new(alloc),
        }
    }

    /// Appends a list.
    pub fn push(&mut self, item: Ids) -> Result<(), NoMemory>
        ensures exact { OnOk result (self.new ≡ self.old ++ item ∷ []) }
        ensures unchanged { OnErr result (self.new ≡ self.old) }
    {
        self.items.push(item)?;
        Ok(())
    }

    /// How many lists there are.
    pub fn len(&self) -> usize
        ensures { result ≡ length self.now }
    {
        self.items.len()
    }

    /// Whether there is none.
    pub fn is_empty(&self) -> bool
        ensures { IsTrue result ↔ (self.now ≡ []) }
    {
        self.items.is_empty()
    }

    /// Lends the lists.
    pub fn as_slice(&self) -> &[Ids]
        ensures lent { result.now ≡ self.now }
    {
        self.items.as_slice()
    }
}

/// A list of texts, each seen as its bytes.
#[derive(Debug, Drop)]
pub struct Texts {
    items: Vec<String>,
}

impl Model for Texts {
    ghost use Rattle.std.specs.Prelude.{List, ℕ, map, string_bytes};

    ghost Value = { List (List ℕ) };

    ghost view = { λ a. map string_bytes a.items.items };
}

impl Texts {
    /// The empty list, which takes no memory.
    pub fn new(alloc: Global) -> Self
        ensures { result ≡ [] }
    {
        Texts {
            items: Vec::new(alloc),
        }
    }

    /// Appends a text.
    pub fn push(&mut self, item: String) -> Result<(), NoMemory>
        ensures exact { OnOk result (self.new ≡ self.old ++ string_bytes item ∷ []) }
        ensures unchanged { OnErr result (self.new ≡ self.old) }
    {
        self.items.push(item)?;
        Ok(())
    }

    /// How many texts there are.
    pub fn len(&self) -> usize
        ensures { result ≡ length self.now }
    {
        self.items.len()
    }

    /// Whether there is none.
    pub fn is_empty(&self) -> bool
        ensures { IsTrue result ↔ (self.now ≡ []) }
    {
        self.items.is_empty()
    }

    /// Lends the texts.
    pub fn as_slice(&self) -> &[String]
        ensures lent { map string_bytes result.now ≡ self.now }
    {
        self.items.as_slice()
    }
}
