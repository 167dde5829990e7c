//! Lists of keywords that are known before the first text is interned.
ghost use Rattle.std.specs.Prelude.{◌≡◌, ◌↔◌, IsTrue, is_some, length, map};
ghost use Rattle.lasso_parts.specs.Texts.{position_of, Fits, IsDistinct};
ghost use Rattle.lasso_single.specs.KeywordLists.{all_differ};

use lasso_parts::keys::Key;

/// Whether no keyword comes twice. Each keyword is compared with those before it, so the time grows with the square of
/// their number. Nothing is allocated.
///
/// ```rust
/// assert!(rt; are_distinct(&["if", "else", "while"]));
/// assert!(rt; !are_distinct(&["if", "else", "if"]));
/// ```
pub fn are_distinct(keywords: &[&str]) -> bool
    ensures value { result ≡ all_differ (map (λ t. t.now) keywords.now) }
    ensures distinct { IsTrue result ↔ IsDistinct (map (λ t. t.now) keywords.now) }
{
    for i in 0..keywords.len() {
        if is_among(&keywords[..i], keywords[i]) {
            return false;
        }
    }
    true
}

// Whether the keyword is one of these.
fn is_among(keywords: &[&str], keyword: &str) -> bool
    ensures { result ≡ is_some (position_of (map (λ t. t.now) keywords.now) keyword.now) }
{
    keywords.contains(&keyword)
}

/// Whether the key type has a key for each position below `count`.
pub fn have_keys<K: Key>(count: usize) -> bool
    ensures { IsTrue result ↔ Fits K.key_at count }
{
    for position in 0..count {
        if K::try_from_usize(position).is_none() {
            return false;
        }
    }
    true
}
