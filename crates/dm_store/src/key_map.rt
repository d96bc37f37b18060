//! A map from keys, with contracts over the finite map that it holds.

ghost use Rattle.std.specs.Prelude.{◌≡◌, take, None, IfOk, OnOk, OnErr};
ghost use Rattle.std.specs.Option.{option_copied};
ghost use Rattle.std.specs.FinMap as map;
ghost use Rattle.std.specs.Ordering.{nat_cmp};
ghost use Rattle.std.specs.Coded.{coded_ℕ};

use std::alloc::{AllocError, Allocator, Global};
use std::collections::{BTreeMap, btree_map};
use std::marker::Model;

/// Values by their key, which contracts see as a finite map from numbers to what they see of the values.
#[derive(Drop)]
pub struct KeyMap<V, A: Allocator + Copy = Global> {
    tree: BTreeMap<u16, V, A>,
}

impl<V, A: Allocator + Copy> Model for KeyMap<V, A> {
    ghost Value = { map.FinMap nat_cmp V };

    ghost coded = { map.code coded_ℕ V.code };

    ghost view = { λ k. map.from_entries k.tree.entries };
}

impl<V, A: Allocator + Copy> KeyMap<V, A> {
    /// A map that holds nothing. It takes no memory.
    pub fn new(alloc: A) -> Self
        ensures { result ≡ map.empty }
    {
        KeyMap {
            tree: BTreeMap::new(alloc),
        }
    }

    /// How many keys there are.
    pub fn len(&self) -> usize
        ensures { result ≡ map.len self.now }
    {
        self.tree.len()
    }

    /// The value at a key.
    pub fn get(&self, key: u16) -> Option<&V>
        ensures { option_copied result ≡ map.get self.now key }
    {
        self.tree.get(&key)
    }

    /// The entries, by rising key.
    pub fn iter(&self) -> btree_map::Iter<'_, u16, V>
        ensures { result ≡ map.entries self.now }
    {
        self.tree.iter()
    }

    /// The keys, rising: all, or the first `count` where there are more.
    ///
    /// # Errors
    /// Where the allocator refuses its memory.
    pub fn first_keys(&self, alloc: A, count: usize) -> Result<Vec<u16, A>, AllocError>
        ensures { IfOk result (λ keys. keys.items ≡ take count (map.keys self.now)) }
    {
        let mut keys = Vec::new(alloc);
        for (key, _) in self.iter() {
            if keys.len() == count {
                return Ok(keys);
            }
            keys.push(*key)?;
        }
        Ok(keys)
    }

    /// Puts a value at a key, and gives the one that was there. It takes memory only where the key is new.
    ///
    /// # Errors
    /// Where the allocator refuses the memory of a new key; the map is then as it was.
    pub fn insert(&mut self, key: u16, value: V) -> Result<Option<V>, AllocError>
    where
        V: Drop,
        ensures ok { OnOk result (self.new ≡ map.insert self.old key value) }
        ensures before { IfOk result (λ before. before ≡ map.get self.old key) }
        ensures absent { OnErr result (map.get self.old key ≡ None) }
        ensures err { OnErr result (self.new ≡ self.old) }
    {
        Ok(self.tree.insert(key, value)?)
    }

    /// Takes away the value at a key, and gives it.
    pub fn remove(&mut self, key: u16) -> Option<V>
        ensures after { self.new ≡ map.remove self.old key }
        ensures before { result ≡ map.get self.old key }
    {
        self.tree.remove(&key)
    }
}
