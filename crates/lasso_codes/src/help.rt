//! What `--help` and `--version` print.
use crate::arguments::Verb;

/// The text of `lasso_codes --help`.
pub const HELP: &str = "\
usage: lasso_codes VERB [OPTION..] < INPUT > OUTPUT

Verbs:
  counts      each distinct line after how often it came, most frequent first
  decode      the lines of columns
  dictionary  the distinct lines of columns, as a column without entries
  distinct    each distinct line once, where it first came
  encode      a column: each distinct line once, and for each line its code
  join        a column of a dictionary and of entries by its codes
  merge       columns as one column
  recode      the entries of columns by the codes of a dictionary

On a terminal, a line tells how much was read so far; --quiet turns it off.

lasso_codes VERB --help lists the options of a verb.
lasso_codes --version prints the version.
";

/// The text of `lasso_codes --version`.
pub const VERSION: &str = "lasso_codes 0.1.0\n";

const COUNTS_HELP: &str = "\
usage: lasso_codes counts [OPTION..] < INPUT > OUTPUT

Writes each distinct line after how often it came, the most frequent first.
Lines that came equally often are in the order of their bytes.

  --limit N    the most bytes that the distinct lines may take
  --top N      write at most N lines
  --workers N  count by 1 to 64 threads; pays for long input whose lines repeat
  --utf8       refuse a line that is not UTF-8
  --quiet      show no progress on a terminal

N is a number below 2^64, or one with K, M or G after it, as 64K for 65536.
";

const DECODE_HELP: &str = "\
usage: lasso_codes decode [OPTION..] < COLUMNS > LINES

Writes the lines of columns, one or several one after another.

  --limit N    the most bytes that the texts of a column may take
  --null WORD  write a null as WORD; without it, a null is a fault
  --utf8       refuse a text that is not UTF-8
  --quiet      show no progress on a terminal

N is a number below 2^64, or one with K, M or G after it, as 64K for 65536.
";

const DICTIONARY_HELP: &str = "\
usage: lasso_codes dictionary [OPTION..] < COLUMNS > DICTIONARY

Writes the distinct lines of columns, one or several one after another, as a
column without entries.

  --limit N  the most bytes that the texts of all columns may take
  --binary   write the header of a column of codes of four bytes
  --utf8     refuse a text that is not UTF-8
  --quiet    show no progress on a terminal

N is a number below 2^64, or one with K, M or G after it, as 64K for 65536.
";

const DISTINCT_HELP: &str = "\
usage: lasso_codes distinct [OPTION..] < INPUT > OUTPUT

Writes each distinct line once, where it first came.

  --limit N  the most bytes that the distinct lines may take
  --utf8     refuse a line that is not UTF-8
  --quiet    show no progress on a terminal

N is a number below 2^64, or one with K, M or G after it, as 64K for 65536.
";

const ENCODE_HELP: &str = "\
usage: lasso_codes encode [OPTION..] < LINES > COLUMN

Writes a column: a header, each distinct line once, and for each line its code,
which is the position of the line among the distinct ones, from 0.

  --limit N    the most bytes that the distinct lines may take
  --null WORD  a line that is WORD is a null: it is no text of the column
  --binary     write codes as four bytes each, the least first
  --workers N  encode by 1 to 64 threads; pays for long input whose lines repeat
  --utf8       refuse a line that is not UTF-8
  --quiet      show no progress on a terminal

N is a number below 2^64, or one with K, M or G after it, as 64K for 65536.
";

const JOIN_HELP: &str = "\
usage: lasso_codes join [OPTION..] < INPUT > COLUMN

Reads what recode reads. Writes one column of the dictionary and of the entries
by its codes.

  --limit N  the most bytes that the texts of a column may take
  --binary   write codes as four bytes each, the least first
  --utf8     refuse a text that is not UTF-8
  --quiet    show no progress on a terminal

N is a number below 2^64, or one with K, M or G after it, as 64K for 65536.
";

const MERGE_HELP: &str = "\
usage: lasso_codes merge [OPTION..] < COLUMNS > COLUMN

Writes one column of the lines of columns, one or several one after another.

  --limit N  the most bytes that the texts of all columns may take
  --binary   write codes as four bytes each, the least first
  --utf8     refuse a text that is not UTF-8
  --quiet    show no progress on a terminal

N is a number below 2^64, or one with K, M or G after it, as 64K for 65536.
";

const RECODE_HELP: &str = "\
usage: lasso_codes recode [OPTION..] < INPUT > ENTRIES

Reads a dictionary, which is a column without entries, and then columns, one or
several. Writes their entries by its codes, as a column without texts.
The dictionary has each text of the columns; the entries of a column without
texts are its codes already.

  --limit N  the most bytes that the texts of a column may take
  --binary   write codes as four bytes each, the least first
  --utf8     refuse a text that is not UTF-8
  --quiet    show no progress on a terminal

N is a number below 2^64, or one with K, M or G after it, as 64K for 65536.
";

/// The text of `lasso_codes VERB --help`.
pub fn verb_help(verb: Verb) -> &'static str {
    match verb {
        Verb::Counts => COUNTS_HELP,
        Verb::Decode => DECODE_HELP,
        Verb::Dictionary => DICTIONARY_HELP,
        Verb::Distinct => DISTINCT_HELP,
        Verb::Encode => ENCODE_HELP,
        Verb::Join => JOIN_HELP,
        Verb::Merge => MERGE_HELP,
        Verb::Recode => RECODE_HELP,
    }
}
