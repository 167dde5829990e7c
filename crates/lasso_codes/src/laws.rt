//! Laws of columns. Each law is the contract of a function that does nothing.
ghost use Rattle.lasso_codes.specs.Decode.{DecodingGivesLines};
ghost use Rattle.lasso_codes.specs.Merge.{DictionariesAreDistinct, MergedColumnsDecode, MergingKeepsLines};
ghost use Rattle.lasso_codes.specs.Recode.{DictionariesMergeInSteps, JoiningGivesOneColumn, MergingGivesOneDictionary, RecodingKeepsLines};

/// Decoding what `encode` wrote gives the lines of its input, whatever follows the column.
pub fn decoding_gives_lines()
    ensures { DecodingGivesLines }
{}

/// A merged column decodes to the lines of each of the columns, in order.
#[tactic(auto, using(crate::proofs::MergedLines::merging_keeps_lines_lem))]
pub fn merging_keeps_lines()
    ensures { MergingKeepsLines }
{}

/// Columns that were merged can be decoded if a null has a word.
pub fn merged_columns_decode()
    ensures { MergedColumnsDecode }
{}

/// A dictionary that is written has no text twice.
#[tactic(auto, using(crate::proofs::MergedLines::dictionaries_are_distinct_lem))]
pub fn dictionaries_are_distinct()
    ensures { DictionariesAreDistinct }
{}

/// Recoding what `encode` wrote, by any list, gives the entries that its lines have in the list.
pub fn recoding_keeps_lines()
    ensures { RecodingKeepsLines }
{}

/// The merged dictionary of an input's parts is that of all their lines.
#[tactic(auto, using(crate::proofs::RecodedLines::merging_gives_one_dictionary_lem))]
pub fn merging_gives_one_dictionary()
    ensures { MergingGivesOneDictionary }
{}

/// Dictionaries can be merged in steps: a merged one stands for those that it was made of.
#[tactic(auto, using(crate::proofs::RecodedLines::dictionaries_merge_in_steps_lem))]
pub fn dictionaries_merge_in_steps()
    ensures { DictionariesMergeInSteps }
{}

/// Parts of an input that were encoded, recoded by the dictionary of all lines and joined are the column of all lines.
#[tactic(auto, using(crate::proofs::RecodedLines::joining_gives_one_column_lem))]
pub fn joining_gives_one_column()
    ensures { JoiningGivesOneColumn }
{}
