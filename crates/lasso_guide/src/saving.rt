//! Saves an interner as JSON text, and loads it again. It has the same list, so each key stands for the same
//! text as before.
ghost use Rattle.std.specs.Prelude.{◌≡◌, Some, Ok, IfOk, true, string_bytes};
ghost use Rattle.serde_json.specs.Data.{Data};
ghost use Rattle.serde_json.specs.Read.{read as read_text};
ghost use Rattle.lasso.specs.Json.{read_array};

use lasso::json::json_reads_back;
use lasso::{FixedState, JsonError, Key, Rodeo};
use serde_json::Value;
use std::alloc::Global;
use std::error::Error;
use std::fmt;

/// Why a saved text was not loaded.
#[derive(Debug, Drop)]
pub enum LoadError {
    /// It is not JSON text, or there is no memory for its value.
    Text(serde_json::Error),
    /// Its value is not a list of texts for these keys, or there is no memory for them.
    List(JsonError),
}

impl fmt::Display for LoadError {
    fn fmt<W: fmt::Write>(&self, f: &mut fmt::Formatter<W>) -> fmt::Result {
        match self {
            LoadError::Text(error) => write!(f, "no JSON text: {error}"),
            LoadError::List(error) => write!(f, "no list of texts: {error}"),
        }
    }
}

impl Error for LoadError {}

/// The texts of the interner as a JSON text, which is read as their list.
pub fn save<K: Key>(
    rodeo: &Rodeo<K, FixedState, Global>,
    alloc: Global,
) -> Result<String, JsonError>
    ensures { IfOk result (λ saved. (d : Data) × (read_text (string_bytes saved) ≡ Some d) × (read_array K.key_at true d ≡ Ok rodeo.now.texts)) }
{
    // a distinct list that fits the keys, as `len` says this one is, is read back
    json_reads_back::<K>();
    let _count = rodeo.len();
    let value = rodeo.serialize(alloc)?;
    Ok(value.to_string(alloc)?)
}

/// An interner with the list that the JSON text is read as.
pub fn load<K: Key>(alloc: Global, text: &str) -> Result<Rodeo<K, FixedState, Global>, LoadError>
    ensures { IfOk result (λ loaded. (d : Data) × (read_text text.now ≡ Some d) × (read_array K.key_at true d ≡ Ok loaded.texts)) }
{
    let value = Value::from_str(alloc, text).map_err(LoadError::Text)?;
    Rodeo::deserialize(alloc, &value).map_err(LoadError::List)
}

/// The interner saved and loaded again has the same list.
pub fn reload<K: Key>(
    rodeo: &Rodeo<K, FixedState, Global>,
    alloc: Global,
) -> Result<Rodeo<K, FixedState, Global>, LoadError>
    ensures { IfOk result (λ loaded. loaded.texts ≡ rodeo.now.texts) }
{
    let saved = save(rodeo, alloc).map_err(LoadError::List)?;
    load(alloc, saved.as_str())
}
