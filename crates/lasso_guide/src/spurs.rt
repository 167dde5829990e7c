//! A symbol table whose keys are `Spur`s. In a contract a `Spur` is the number that it keeps, and
//! `spur_number` is the position that it stands for.
ghost use Rattle.std.specs.Prelude.{◌≡◌, ℕ, [], Some, IfErr, IfOk, option_map, slice_get};
ghost use Rattle.lasso.specs.Spurs.{spur_number};
ghost use Rattle.lasso.specs.Texts.{Text};

use lasso::{LassoResult, Rodeo, Spur, SpurRodeo};
use std::alloc::Global;

/// The names of symbols, in the order in which they were first declared.
#[derive(Drop)]
pub struct SpurTable {
    names: SpurRodeo,
}

impl SpurTable {
    /// A table with no name. It fails only if it is out of memory.
    pub fn new(alloc: Global) -> LassoResult<Self>
        ensures { IfOk result (λ table. table.names.texts ≡ []) }
    {
        Ok(SpurTable {
            names: Rodeo::new(alloc)?,
        })
    }

    /// The symbol of the name, which it stands for from now on. Each symbol from before keeps its name. A
    /// refusal changes no name.
    pub fn declare(&mut self, name: &str) -> LassoResult<Spur>
        ensures named { IfOk result (λ symbol. slice_get self.new.names.texts (spur_number symbol) ≡ Some name.now) }
        ensures kept { (n : ℕ) (text : Text) → slice_get self.old.names.texts n ≡ Some text → slice_get self.new.names.texts n ≡ Some text }
        ensures refused { IfErr result (λ _. self.new.names.texts ≡ self.old.names.texts) }
    {
        self.names.try_get_or_intern(name)
    }

    /// The name that the symbol stands for, or `None` if this table has not declared it.
    pub fn name_of(&self, symbol: Spur) -> Option<&str>
        ensures { option_map (λ name. name.now) result ≡ slice_get self.now.names.texts (spur_number symbol) }
    {
        self.names.try_resolve(symbol)
    }
}
