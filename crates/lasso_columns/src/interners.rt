//! The interners of blocks and parts: `Spur` keys, the hasher of fixed seed and the global allocator. They are
//! the types of these names in the crate `lasso`.

use lasso_parts::keys::Spur;
use lasso_parts::util::FixedState;
use lasso_single::reader::RodeoReader;
use lasso_single::rodeo::Rodeo;
use std::alloc::Global;

/// An interner, as `lasso::SpurRodeo`.
pub type SpurRodeo = Rodeo<Spur, FixedState, Global>;

/// A frozen form of it, as `lasso::SpurRodeoReader`.
pub type SpurRodeoReader = RodeoReader<Spur, FixedState, Global>;
