//! A symbol table with nested scopes, for a compiler of small expressions. A variable's place is how many
//! variables were in scope where it was declared; a name means the variable of that name that was declared
//! last.
ghost use Rattle.std.specs.Prelude.{◌≡◌, ◌<◌, ◌∷◌, ◌++◌, [], All, IsFalse, IsTrue, OnErr, IfOk, Some, length};
ghost use Rattle.lasso_guide.specs.Scopes.{Closes, IsLast, IsNamed, names_in};

use lasso::{FixedState, Key, LassoResult, Rodeo};
use std::alloc::{AllocError, Global};

/// The variables in scope.
#[derive(Drop)]
pub struct Scopes<K: Key + Drop> {
    names: Rodeo<K, FixedState, Global>,
    // The name of each variable in scope, at its place.
    variables: Vec<K>,
    // For each open scope, how many variables there were when it was opened.
    opened: Vec<usize>,
    ghost named: { All (λ variable. K.number variable < length names.texts) variables.items },
}

impl<K: Key + Drop> Scopes<K> {
    /// No variable, and no scope but the outermost. It fails only if it is out of memory.
    pub fn new(alloc: Global) -> LassoResult<Self>
        ensures { IfOk result (λ scopes. (scopes.variables.items ≡ []) × (scopes.opened.items ≡ [])) }
    {
        Ok(Scopes {
            names: Rodeo::new(alloc)?,
            variables: Vec::new(alloc),
            opened: Vec::new(alloc),
        })
    }

    /// Opens a scope within those that are open.
    pub fn open(&mut self) -> Result<(), AllocError>
        ensures opened { IfOk result (λ _. self.new.opened.items ≡ self.old.opened.items ++ length self.old.variables.items ∷ []) }
        ensures kept { OnErr result (self.new.opened.items ≡ self.old.opened.items) }
        ensures names { names_in K.number self.new.names self.new.variables ≡ names_in K.number self.old.names self.old.variables }
    {
        self.opened.push(self.variables.len())?;
        Ok(())
    }

    /// Closes the innermost scope, and takes its variables out of scope. Returns `false` if only the
    /// outermost scope is open, which stays open.
    pub fn close(&mut self) -> bool
        ensures outermost { IsFalse result → (self.old.opened.items ≡ []) × (self.new.variables.items ≡ self.old.variables.items) }
        ensures closed { IsTrue result →
            Closes K.number self.old.names self.old.variables self.old.opened self.new.names self.new.variables self.new.opened }
    {
        match self.opened.pop() {
            Some(count) => {
                self.variables.truncate(count);
                true
            }
            None => false,
        }
    }

    /// Declares a variable in the innermost scope, and returns its place. After an error the variables in
    /// scope are the same.
    pub fn declare(&mut self, name: &str) -> LassoResult<usize>
        ensures place { IfOk result (λ place. place ≡ length self.old.variables.items) }
        ensures declared { IfOk result (λ _. names_in K.number self.new.names self.new.variables
            ≡ names_in K.number self.old.names self.old.variables ++ Some name.now ∷ []) }
        ensures kept { OnErr result (names_in K.number self.new.names self.new.variables ≡ names_in K.number self.old.names self.old.variables) }
        ensures opened { self.new.opened.items ≡ self.old.opened.items }
    {
        let place = self.variables.len();
        self.variables.reserve(1)?;
        let variable = self.names.try_get_or_intern(name)?;
        self.variables.push_reserved(variable);
        Ok(place)
    }

    /// The place of the variable that the name means here, or `None` if no variable in scope has the name.
    pub fn place_of(&self, name: &str) -> Option<usize>
        ensures { IsLast (λ place. IsNamed (names_in K.number self.now.names self.now.variables) place name.now) (length self.now.variables.items) result }
    {
        // contracts learn from `len` that no text comes twice
        let _count = self.names.len();
        let wanted = self.names.get(name)?.into_usize();
        let mut found = None;
        for place in 0..self.variables.len() {
            if self.variables[place].into_usize() == wanted {
                found = Some(place);
            }
        }
        found
    }
}
