//! The declared names of one kind, numbered in the order of their declaration.
ghost use Rattle.std.specs.Prelude.{◌≡◌, ◌<◌, ◌++◌, ◌∷◌, [], length, OnOk, OnErr, IfSome, IsFalse};
ghost use Rattle.k_words.specs.Words.{word_at};
ghost use Rattle.k_words.specs.Names.{declares, numbered};
ghost use Rattle.k_words.specs.Chained.{chain_of};

use k_io::NoMemory;
use std::alloc::Global;
use std::marker::Model;

/// How many chains there are. Of the 256 names of the longest list four are on each, where they
/// spread evenly.
pub(crate) const CHAINS: usize = 64;

/// A name, and the way on along its chain.
#[derive(Drop)]
pub(crate) struct Declared {
    name: Vec<u8>,
    // One more than the number of the name before it on its chain; 0 where it is the first.
    before: usize,
}

/// Names, numbered from 0 in the order of their declaration. Source: own.
///
/// Contracts see the list of the names. A name and its number are found along the chain of the
/// names with the same hash, from the last to the first, without a look at the others.
pub struct NameList {
    names: Vec<Declared>,
    // One more than the number of the last name on each chain; 0 where there is none.
    last: [usize; CHAINS],
}

impl Drop for NameList {
    fn drop(self) {
        let NameList { names: _, last: _ } = self;
    }
}

impl Model for NameList {
    ghost use Rattle.std.specs.Prelude.{List, ℕ};
    ghost use Rattle.k_words.specs.Chained.{texts, befores, AreChained};

    ghost Value = { List (List ℕ) };

    ghost view = { λ l. texts l.names.items };

    ghost invariant = { λ l. AreChained (texts l.names.items) (befores l.names.items) l.last };
}

/// The chain of a name: a hash of its bytes.
fn chain(name: &[u8]) -> usize
    ensures value { result ≡ chain_of name.now }
    ensures below { result < CHAINS }
{
    let mut hash = 0;
    for byte in name {
        hash = (hash * 37 + usize::from(*byte)) % CHAINS;
    }
    hash
}

impl NameList {
    /// No names. Source: own.
    pub fn new(alloc: Global) -> NameList
        ensures { result ≡ [] }
    {
        NameList {
            names: Vec::new(alloc),
            last: [0; CHAINS],
        }
    }

    /// How many names there are. Source: own.
    pub fn len(&self) -> usize
        ensures { result ≡ length self.now }
    {
        self.names.len()
    }

    /// Whether the name was declared. Source: own.
    pub fn declares(&self, name: &[u8]) -> bool
        ensures { result ≡ declares self.now name.now }
    {
        self.number(name).is_some()
    }

    /// The number of a name; `None` where it was not declared. Source: own.
    pub fn number(&self, name: &[u8]) -> Option<usize>
        ensures number { result ≡ numbered self.now name.now }
        ensures within { IfSome result (λ n. n < length self.now) }
    {
        let mut link = self.last[chain(name)];
        while link != 0 {
            let declared = &self.names[link - 1];
            if declared.name.as_slice() == name {
                return Some(link - 1);
            }
            link = declared.before;
        }
        None
    }

    /// The name of a number. Source: own.
    pub fn name(&self, number: usize) -> &[u8]
        requires { number < length self.now }
        ensures { result.now ≡ word_at self.now number }
    {
        self.names[number].name.as_slice()
    }

    /// Declares a name that was not declared, with the next number. Source: own.
    pub fn declare(&mut self, alloc: Global, name: &[u8]) -> Result<(), NoMemory>
        requires { IsFalse (declares self.old name.now) }
        ensures ok { OnOk result (self.new ≡ self.old ++ name.now ∷ []) }
        ensures unchanged { OnErr result (self.new ≡ self.old) }
    {
        let owned = Vec::from_slice(alloc, name)?;
        let chain = chain(name);
        let before = self.last[chain];
        self.names.push(Declared {
            name: owned,
            before,
        })?;
        self.last[chain] = self.names.len();
        Ok(())
    }
}
