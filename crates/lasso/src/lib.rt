//! lasso, a proved string interner: it stores each distinct text once and hands out a small key. This
//! crate names what most callers take at its root, and the modules of the crates below it by their names;
//! it adds the interfaces that code over any interner takes.
//!
//! A `Rodeo` interns texts in one thread:
//!
//! ```rust
//! let mut rodeo = Rodeo::default(rt.alloc())?;
//! let hello = rodeo.try_get_or_intern("Hello, world!")?;
//! let again = rodeo.try_get_or_intern("Hello, world!")?;
//! assert!(rt; hello == again);
//! assert!(rt; hello.into_usize() == 0);
//! assert!(rt; rodeo.try_resolve(hello) == Some("Hello, world!"));
//! ```
//!
//! A `RodeoReader` keeps its texts and still finds keys of texts:
//!
//! ```rust
//! let mut rodeo = Rodeo::default(rt.alloc())?;
//! let hello = rodeo.try_get_or_intern("Hello, world!")?;
//! let reader: SpurRodeoReader = rodeo.into_reader();
//! assert!(rt; reader.try_resolve(hello) == Some("Hello, world!"));
//! ```
//!
//! A `RodeoResolver` keeps texts of keys alone:
//!
//! ```rust
//! let mut rodeo = Rodeo::default(rt.alloc())?;
//! let hello = rodeo.try_get_or_intern("Hello, world!")?;
//! let resolver: SpurRodeoResolver = rodeo.into_resolver();
//! assert!(rt; resolver.try_resolve(hello) == Some("Hello, world!"));
//! ```
//!
//! A `ThreadedRodeo` interns texts from many threads, each of which may have a pass:
//!
//! ```rust
//! let rodeo: SpurThreadedRodeo = ThreadedRodeo::default(rt.alloc())?;
//! let mut pass = rodeo.pass();
//! let key = rodeo.try_get_or_intern_as(&rt, &mut pass, "Hello, world!")?;
//! assert!(rt; rodeo.try_resolve_as(&mut pass, key) == Some("Hello, world!"));
//! ```
//!
//! Each is filled from an iterator too:
//!
//! ```rust
//! let colours = ["red", "green", "red", "blue"];
//! let rodeo: SpurRodeo = Rodeo::from_iter(rt.alloc(), colours)?;
//! assert!(rt; rodeo.len() == 3);
//! ```
#![tactic(auto)]

pub mod interface;
pub mod keyed;
pub mod laws;

pub use interface::{
    Interner, IntoReader, IntoReaderAndResolver, IntoResolver, Reader, Resolver, SpurInterner,
    SpurReader, SpurResolver,
};
pub use lasso_log::log::{Pass, Snapshot};
pub use lasso_log::{log, shared_memory};
pub use lasso_parts::hasher::{TextHasher, TextState};
pub use lasso_parts::iter::{Iter, Strings};
pub use lasso_parts::json::{JsonError, JsonKey};
pub use lasso_parts::keys::{Key, LargeSpur, MicroSpur, MiniSpur, Spur};
pub use lasso_parts::util::{
    Capacity, FixedState, LassoError, LassoErrorKind, LassoResult, MemoryLimits,
};
pub use lasso_parts::{arena, bucket, entries, hasher, index, iter, json, keys, util};
pub use lasso_shared::threaded::{SpurThreadedRodeo, ThreadedRodeo};
pub use lasso_shared::{machine, shards, threaded};
pub use lasso_single::commands::{Command, Reply, run_commands};
pub use lasso_single::keyword_lists::{are_distinct, have_keys};
pub use lasso_single::reader::RodeoReader;
pub use lasso_single::resolver::RodeoResolver;
pub use lasso_single::rodeo::Rodeo;
pub use lasso_single::{coding, commands, keyword_lists, reader, resolver, rodeo};
use std::alloc::Global;

/// A `Rodeo` with `Spur` keys, the hasher of fixed seed and the global allocator.
pub type SpurRodeo = Rodeo<Spur, FixedState, Global>;

/// A `RodeoReader` with `Spur` keys, the hasher of fixed seed and the global allocator.
pub type SpurRodeoReader = RodeoReader<Spur, FixedState, Global>;

/// A `RodeoResolver` with `Spur` keys and the global allocator.
pub type SpurRodeoResolver = RodeoResolver<Spur, Global>;
