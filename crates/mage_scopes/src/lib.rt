//! Names in nested scopes, and what each stands for, looked up in logarithmic time in each scope.
#![tactic(auto, unfolding(crate::specs::Scopes::scopes_of))]

ghost use Rattle.std.specs.Prelude.{◌≡◌, ◌∷◌, [], IfOk, OnOk, OnErr, option_copied};
ghost use Rattle.mage_scopes.specs.Scopes.{scopes_of, nothing, found, entered, left, with_name, replaced};

use mage_base::Memory;
use std::alloc::Global;
use std::collections::BTreeMap;

/// Names in nested scopes, and what each stands for. The names are borrowed from the source.
#[derive(Drop)]
pub struct Scopes<'a, V> {
    maps: Vec<BTreeMap<&'a [u8], V>>,
}

impl<'a, V: Drop> Scopes<'a, V> {
    /// One scope, with no name. `Memory` where there is none for it.
    pub fn none(alloc: Global) -> Result<Self, Memory>
        ensures { IfOk result (λ scopes. scopes_of scopes ≡ nothing ∷ []) }
    {
        let mut maps = Vec::new(alloc);
        maps.push(BTreeMap::new(alloc))?;
        Ok(Scopes { maps })
    }

    /// Enters a scope with no name, inside all others. `Memory` where there is none for it; then nothing changes.
    pub fn enter(&mut self) -> Result<(), Memory>
        ensures ok { OnOk result (scopes_of self.new ≡ entered (scopes_of self.old)) }
        ensures err { OnErr result (scopes_of self.new ≡ scopes_of self.old) }
    {
        let alloc = *self.maps.allocator();
        self.maps.push(BTreeMap::new(alloc))?;
        Ok(())
    }

    /// Leaves the innermost scope, with all its names. Where there is none, nothing changes.
    pub fn leave(&mut self)
        ensures { scopes_of self.new ≡ left (scopes_of self.old) }
    {
        let _ = self.maps.pop();
    }

    /// What the name stands for, in the first scope from the outermost that has it.
    pub fn get(&self, name: &[u8]) -> Option<&V>
        ensures { option_copied result ≡ found (scopes_of self.now) name.now }
    {
        for map in self.maps.iter() {
            if let Some(value) = map.get(name) {
                return Some(value);
            }
        }
        None
    }

    /// Declares the name in the innermost scope, in place of one there that is spelled so. `Memory` where there is
    /// none for it; then nothing changes. Where there is no scope, the value is dropped.
    pub fn declare(&mut self, name: &'a [u8], value: V) -> Result<(), Memory>
        ensures ok { OnOk result
            (scopes_of self.new ≡ with_name (scopes_of self.old) name.now value) }
        ensures err { OnErr result (scopes_of self.new ≡ scopes_of self.old) }
    {
        let Some(map) = self.maps.last_mut() else {
            return Ok(());
        };
        map.insert(name, value)?;
        Ok(())
    }

    /// Puts the value in place of what the name stands for, in the first scope from the outermost that has it,
    /// and gives back what it stood for. Where no scope has the name, the value is dropped. It takes no memory.
    pub fn replace(&mut self, name: &[u8], value: V) -> Option<V>
        ensures was { result ≡ found (scopes_of self.old) name.now }
        ensures now { scopes_of self.new ≡ replaced (scopes_of self.old) name.now value }
    {
        for map in self.maps.iter_mut() {
            if let Some(held) = map.get_mut(name) {
                return Some(std::mem::replace(held, value));
            }
        }
        None
    }
}

#[cfg(test)]
mod tests;
