//! A table of symbols: each name that is declared has one symbol, which stands for it as long as the table
//! exists.
ghost use Rattle.std.specs.Prelude.{◌≡◌, ℕ, ◌<◌, ◌↔◌, length, Some, IfOk, IfErr, IsTrue, slice_get};
ghost use Rattle.lasso.specs.Texts.{Text};

use lasso::{FixedState, Key, LassoResult, Rodeo};
use std::alloc::Global;

/// The names of symbols, in the order in which they were first declared.
#[derive(Drop)]
pub struct SymbolTable<K: Key> {
    names: Rodeo<K, FixedState, Global>,
}

impl<K: Key> SymbolTable<K> {
    /// A table with no name. The only error is out of memory.
    pub fn new(alloc: Global) -> LassoResult<Self>
        ensures { IfOk result (λ table. length table.names.texts ≡ 0) }
    {
        Ok(SymbolTable {
            names: Rodeo::new(alloc)?,
        })
    }

    /// The symbol of the name, which it stands for from now on. Each symbol from before keeps its name. A
    /// refusal changes no name.
    pub fn declare(&mut self, name: &str) -> LassoResult<K>
        ensures named { IfOk result (λ symbol. slice_get self.new.names.texts (K.number symbol) ≡ Some name.now) }
        ensures kept { (n : ℕ) (text : Text) → slice_get self.old.names.texts n ≡ Some text → slice_get self.new.names.texts n ≡ Some text }
        ensures refused { IfErr result (λ _. self.new.names.texts ≡ self.old.names.texts) }
    {
        self.names.try_get_or_intern(name)
    }

    /// Whether the symbol stands for a name of this table.
    pub fn is_declared(&self, symbol: K) -> bool
        ensures { IsTrue result ↔ (K.number symbol < length self.now.names.texts) }
    {
        self.names.contains_key(symbol)
    }

    /// The name that the symbol stands for: `is_declared` is the test.
    pub fn name_of(&self, symbol: K) -> &str
        requires { K.number symbol < length self.now.names.texts }
        ensures { slice_get self.now.names.texts (K.number symbol) ≡ Some result.now }
    {
        self.names.resolve(symbol)
    }
}

/// Declares both names and answers the name of the first symbol: that is the first name, whatever was
/// declared since.
pub fn first_name<'t, K: Key>(
    table: &'t mut SymbolTable<K>,
    first: &str,
    second: &str,
) -> LassoResult<&'t str>
    ensures { IfOk result (λ name. name.now ≡ first.now) }
{
    let symbol = table.declare(first)?;
    table.declare(second)?;
    Ok(table.name_of(symbol))
}
