ghost use Rattle.std.specs.Prelude.{◌≡◌, [], IfOk, OnOk, OnErr};
ghost use Rattle.book_check.specs.Seen.{Adds, is_seen};

use book_commodity::OutOfMemory;
use std::alloc::Global;
use std::collections::BTreeSet;
use std::marker::Model;

/// The keys that a walk has come by, each once. Contracts see them as the list in the order of keys.
#[derive(Drop)]
pub(crate) struct Seen<K: Ord> {
    keys: BTreeSet<K>,
}

impl<K: Ord> Model for Seen<K> {
    ghost use Rattle.std.specs.Prelude.{List};

    ghost Value = { List K };

    ghost view = { λ s. s.keys.keys };
}

impl<K: Ord + Drop> Seen<K> {
    /// No keys; it takes no memory.
    pub(crate) fn new(alloc: Global) -> Seen<K>
        ensures { result ≡ [] }
    {
        Seen {
            keys: BTreeSet::new(alloc),
        }
    }

    /// Adds the key, and says whether an equal one was there before.
    pub(crate) fn insert(&mut self, key: K) -> Result<bool, OutOfMemory>
        ensures before { IfOk result (λ before. before ≡ is_seen K.cmp self.old key) }
        ensures adds { OnOk result (Adds K.cmp self.old key self.new) }
        ensures unchanged { OnErr result (self.new ≡ self.old) }
    {
        let is_new = self.keys.insert(key)?;
        Ok(!is_new)
    }

    /// Whether an equal key is there.
    pub(crate) fn has(&self, key: &K) -> bool
        ensures { result ≡ is_seen K.cmp self.now key.now }
    {
        self.keys.contains(key)
    }
}
