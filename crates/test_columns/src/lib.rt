//! Tests of `lasso_columns` through its public calls: long columns; columns that several threads encode, together
//! or in parts; streams; and dictionaries that are merged, written and read.
#![tactic(auto)]

#[cfg(test)]
mod calls;
#[cfg(test)]
mod dictionaries;
#[cfg(test)]
mod long_columns;
#[cfg(test)]
mod parts;
#[cfg(test)]
mod shared;
#[cfg(test)]
mod shared_columns;
#[cfg(test)]
mod streams;
