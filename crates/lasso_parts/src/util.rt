//! Errors, capacities and limits.
ghost use Rattle.std.specs.Prelude.{◌≡◌, ◌<◌, ◌^◌, ◌-◌, ◌↔◌, IsTrue, Some};
ghost use Rattle.lasso_parts.specs.Errors.{kind_text, error_text};
ghost use Rattle.lasso_parts.specs.declared.util.LassoErrorKind.TheVariants.{FailedAllocation};

use crate::hasher::TextState;
use std::alloc::{AllocError, AllocFailed};
use std::error::Error;
use std::fmt;
use std::marker::Model;

/// The hasher of the constructors that name none. `FixedState::new()` has the fixed seed.
pub type FixedState = TextState;

/// The result of a call that may fail.
pub type LassoResult<T> = Result<T, LassoError>;

/// Why a call failed.
#[derive(Clone, Copy, Debug, PartialEq, Eq, Hash)]
pub enum LassoErrorKind {
    /// The text's bytes would take more memory than the limit allows.
    MemoryLimitReached,
    /// The key type has no key for one text more.
    KeySpaceExhaustion,
    /// The allocator gave no memory, or a sum of bytes is past what memory can have.
    FailedAllocation,
}

impl LassoErrorKind {
    /// Whether it is `MemoryLimitReached`.
    ///
    /// ```rust
    /// let kind = LassoErrorKind::MemoryLimitReached;
    /// assert!(rt; kind.is_memory_limit());
    /// assert!(rt; !kind.is_failed_alloc());
    /// ```
    pub fn is_memory_limit(self) -> bool
        ensures { IsTrue result ↔ (self ≡ LassoErrorKind.MemoryLimitReached) }
    {
        self == LassoErrorKind::MemoryLimitReached
    }

    /// Whether it is `KeySpaceExhaustion`.
    ///
    /// ```rust
    /// let kind = LassoErrorKind::KeySpaceExhaustion;
    /// assert!(rt; kind.is_keyspace_exhaustion());
    /// assert!(rt; !kind.is_memory_limit());
    /// ```
    pub fn is_keyspace_exhaustion(self) -> bool
        ensures { IsTrue result ↔ (self ≡ LassoErrorKind.KeySpaceExhaustion) }
    {
        self == LassoErrorKind::KeySpaceExhaustion
    }

    /// Whether it is `FailedAllocation`.
    ///
    /// ```rust
    /// let kind = LassoErrorKind::FailedAllocation;
    /// assert!(rt; kind.is_failed_alloc());
    /// assert!(rt; !kind.is_keyspace_exhaustion());
    /// ```
    pub fn is_failed_alloc(self) -> bool
        ensures { IsTrue result ↔ (self ≡ LassoErrorKind.FailedAllocation) }
    {
        self == LassoErrorKind::FailedAllocation
    }
}

impl fmt::Display for LassoErrorKind {
    ghost output = { λ kind. Some (kind_text kind) };

    fn fmt<W: fmt::Write>(&self, f: &mut fmt::Formatter<W>) -> fmt::Result {
        match self {
            LassoErrorKind::MemoryLimitReached => {
                f.write_str("The configured memory limit was reached")
            }
            LassoErrorKind::KeySpaceExhaustion => f.write_str("The key space was exhausted"),
            LassoErrorKind::FailedAllocation => f.write_str("Failed to allocate memory"),
        }
    }
}

/// An error. Contracts see it as its kind.
#[derive(Clone, Debug, PartialEq, Eq, Hash, Drop)]
pub struct LassoError {
    kind: LassoErrorKind,
}

impl Model for LassoError {
    ghost use Rattle.lasso_parts.specs.declared.util.LassoErrorKind.{LassoErrorKind};

    ghost Value = { LassoErrorKind };

    ghost view = { λ error. error.kind };

    ghost inverse = { λ kind. record { kind = kind } };
}

impl LassoError {
    /// The refusal of that kind.
    ///
    /// ```rust
    /// let error = LassoError::new(LassoErrorKind::FailedAllocation);
    /// assert!(rt; error.kind() == LassoErrorKind::FailedAllocation);
    /// ```
    pub fn new(kind: LassoErrorKind) -> Self
        ensures { result ≡ kind }
    {
        LassoError { kind }
    }

    /// Why the call was refused.
    pub fn kind(&self) -> LassoErrorKind
        ensures { result ≡ self.now }
    {
        self.kind
    }
}

impl fmt::Display for LassoError {
    ghost output = { λ error. Some (error_text error) };

    fn fmt<W: fmt::Write>(&self, f: &mut fmt::Formatter<W>) -> fmt::Result {
        let kind = self.kind;
        write!(f, "Lasso encountered an error: {kind}")
    }
}

impl Error for LassoError {}

impl From<AllocError> for LassoError {
    ghost from_gives = { λ _ error. error ≡ FailedAllocation };

    fn from(_: AllocError) -> Self {
        LassoError::new(LassoErrorKind::FailedAllocation)
    }
}

impl<T: Drop> From<AllocFailed<T>> for LassoError {
    ghost from_gives = { λ _ error. error ≡ FailedAllocation };

    fn from(_: AllocFailed<T>) -> Self {
        LassoError::new(LassoErrorKind::FailedAllocation)
    }
}

/// The first room of an interner: for how many texts, and for how many bytes. The bytes are never 0.
///
/// ```rust
/// let capacity = Capacity::default();
/// assert!(rt; capacity.strings() == 50);
/// assert!(rt; capacity.bytes() == 4096);
/// ```
#[derive(Clone, Copy, Debug, PartialEq, Eq, PartialOrd, Ord, Hash)]
pub struct Capacity {
    strings: usize,
    bytes: usize,
}

impl Model for Capacity {
    ghost use Rattle.std.specs.Prelude.{◌<◌};
    ghost use Rattle.lasso_parts.specs.Sizes.{Sizes};

    ghost Value = { Sizes };

    ghost view = { λ c. record { strings = c.strings; bytes = c.bytes } };

    ghost invariant = { λ c. 0 < c.bytes };

    ghost inverse = { λ sizes. record { strings = sizes.strings; bytes = sizes.bytes } };
}

impl Capacity {
    /// Room for `strings` texts and `bytes` bytes.
    ///
    /// ```rust
    /// let capacity = Capacity::new(3, 9);
    /// assert!(rt; capacity.strings() == 3);
    /// assert!(rt; capacity.bytes() == 9);
    /// ```
    pub fn new(strings: usize, bytes: usize) -> Self
        requires { 0 < bytes }
        ensures strings { result.strings ≡ strings }
        ensures bytes { result.bytes ≡ bytes }
    {
        Capacity { strings, bytes }
    }

    /// Room for `strings` texts, and for 4096 bytes.
    ///
    /// ```rust
    /// let capacity = Capacity::for_strings(10);
    /// assert!(rt; capacity.strings() == 10);
    /// assert!(rt; capacity.bytes() == 4096);
    /// ```
    pub fn for_strings(strings: usize) -> Self
        ensures strings { result.strings ≡ strings }
        ensures bytes { result.bytes ≡ 4096 }
    {
        Capacity::new(strings, 4096)
    }

    /// Room for 50 texts, and for `bytes` bytes.
    ///
    /// ```rust
    /// let capacity = Capacity::for_bytes(7);
    /// assert!(rt; capacity.strings() == 50);
    /// assert!(rt; capacity.bytes() == 7);
    /// ```
    pub fn for_bytes(bytes: usize) -> Self
        requires { 0 < bytes }
        ensures strings { result.strings ≡ 50 }
        ensures bytes { result.bytes ≡ bytes }
    {
        Capacity::new(50, bytes)
    }

    /// The least room: for no text, and for one byte.
    ///
    /// ```rust
    /// let capacity = Capacity::minimal();
    /// assert!(rt; capacity.strings() == 0);
    /// assert!(rt; capacity.bytes() == 1);
    /// ```
    pub fn minimal() -> Self
        ensures strings { result.strings ≡ 0 }
        ensures bytes { result.bytes ≡ 1 }
    {
        Capacity::new(0, 1)
    }

    /// For how many texts there is room.
    pub fn strings(&self) -> usize
        ensures { result ≡ self.now.strings }
    {
        self.strings
    }

    /// For how many bytes there is room: at least one.
    pub fn bytes(&self) -> usize
        ensures value { result ≡ self.now.bytes }
        ensures some { 0 < result }
    {
        self.bytes
    }
}

impl Default for Capacity {
    ghost is_default = { λ c. (c.strings ≡ 50) × (c.bytes ≡ 4096) };

    fn default() -> Self {
        Capacity::new(50, 4096)
    }
}

/// The most bytes that an interner's buckets may take. Contracts see it as that number.
///
/// ```rust
/// let limits = MemoryLimits::default();
/// assert!(rt; limits.max_memory_usage() == usize::MAX);
/// ```
#[derive(Clone, Copy, Debug, PartialEq, Eq, PartialOrd, Ord, Hash)]
pub struct MemoryLimits {
    max_memory_usage: usize,
}

impl Model for MemoryLimits {
    ghost use Rattle.std.specs.Prelude.{ℕ};

    ghost Value = { ℕ };

    ghost view = { λ limits. limits.max_memory_usage };

    ghost inverse = { λ bytes. record { max_memory_usage = bytes } };
}

impl MemoryLimits {
    /// A limit of `max_memory_usage` bytes.
    ///
    /// ```rust
    /// let limits = MemoryLimits::new(12);
    /// assert!(rt; limits.max_memory_usage() == 12);
    /// ```
    pub fn new(max_memory_usage: usize) -> Self
        ensures { result ≡ max_memory_usage }
    {
        MemoryLimits { max_memory_usage }
    }

    /// A limit of `max_memory_usage` bytes: the same as `new`.
    ///
    /// ```rust
    /// let limits = MemoryLimits::for_memory_usage(13);
    /// assert!(rt; limits.max_memory_usage() == 13);
    /// ```
    pub fn for_memory_usage(max_memory_usage: usize) -> Self
        ensures { result ≡ max_memory_usage }
    {
        MemoryLimits::new(max_memory_usage)
    }

    /// The limit in bytes.
    pub fn max_memory_usage(&self) -> usize
        ensures { result ≡ self.now }
    {
        self.max_memory_usage
    }
}

impl Default for MemoryLimits {
    ghost is_default = { λ limits. limits ≡ 2 ^ 64 - 1 };

    fn default() -> Self {
        MemoryLimits::new(usize::MAX)
    }
}
