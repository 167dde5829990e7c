//! Laws of the definitions, each as the contract of a function that does nothing.
ghost use Rattle.lasso_c.specs.Laws.{DecodingGivesNullsBack, DecodingUndoesEncoding, LoadingUndoesSaving};

/// Decoding the codes and the dictionary that encoding writes gives the texts that were encoded, and needs just their sizes.
/// The dictionary has no text twice.
pub fn decoding_undoes_encoding()
    ensures { DecodingUndoesEncoding }
{}

/// Saving an interner's texts by `lasso_dictionary` from 0, and loading them by `lasso_new` and `lasso_intern_batch`, gives each
/// text its code again. An interner has each of its texts once.
pub fn loading_undoes_saving()
    ensures { LoadingUndoesSaving }
{}

/// Decoding the codes that encoding gives the rows of a column gives the rows: an empty one for each null, and a bitmap with 0 for each
/// null and 1 for each text. The code of nulls has to be none of the dictionary's, as `LASSO_NULL`.
pub fn decoding_gives_nulls_back()
    ensures { DecodingGivesNullsBack }
{}
