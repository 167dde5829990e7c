//! Columns of many rows and of long texts, by each call that interns some and may run out of memory.
use crate::handle::Lasso;
use crate::interner::{
    lasso_get, lasso_intern, lasso_intern_batch, lasso_intern_batch_nulls, lasso_len,
};
use crate::large::{lasso_intern_batch_large, lasso_intern_batch_nulls_large};
use crate::shared::batches::lasso_shared_intern_batch;
use crate::shared::handle::LassoShared;
use crate::shared::making::lasso_shared_new;
use crate::shared::{lasso_shared_get, lasso_shared_intern, lasso_shared_len};
use crate::tests::checks::{Seen, UNSET, is_as_told, told};
use crate::tests::steps::{Step, clones, walk_on};
use crate::{lasso_encode, lasso_encode_nulls};
use std::alloc::Global;
use std::process::Abort;
use std::test::Fail;

// The code of a null.
const NULL: u32 = u32::MAX;

// Distinct texts, as a column without nulls, and as one in which each fourth row is a null.
#[derive(Drop)]
struct Column {
    bytes: Vec<u8>,
    offsets: Vec<u32>,
    large: Vec<u64>,
    bits: Vec<u8>,
    // The codes of the rows without nulls, and with nulls.
    plain: Vec<u32>,
    codes: Vec<u32>,
    // The dictionary with nulls. That without nulls is the column itself.
    texts: Vec<u8>,
    ends: Vec<u32>,
}

// A column without a row.
fn no_row(alloc: Global) -> Result<Column, Fail> {
    Ok(Column {
        bytes: Vec::new(alloc),
        offsets: vec![in alloc; 0u32]?,
        large: vec![in alloc; 0u64]?,
        bits: Vec::new(alloc),
        plain: Vec::new(alloc),
        codes: Vec::new(alloc),
        texts: Vec::new(alloc),
        ends: vec![in alloc; 0u32]?,
    })
}

fn number(count: usize) -> Result<u32, Fail> {
    match u32::try_from(count) {
        Ok(number) => Ok(number),
        Err(_) => Err(Fail::from("too many bytes")),
    }
}

// Appends a row with this text.
fn push(column: &mut Column, text: &[u8]) -> Result<(), Fail> {
    let row = column.plain.len();
    column.bytes.extend_from_slice(text)?;
    column.offsets.push(number(column.bytes.len())?)?;
    column.large.push(column.bytes.len() as u64)?;
    column.plain.push(number(row)?)?;
    if row % 8 == 0 {
        column.bits.push(0b0111_0111)?;
    }
    if row % 4 == 3 {
        column.codes.push(NULL)?;
        return Ok(());
    }
    let code = column.ends.len().saturating_sub(1);
    column.codes.push(number(code)?)?;
    column.texts.extend_from_slice(text)?;
    column.ends.push(number(column.texts.len())?)?;
    Ok(())
}

// The numbers below the count, each after the letters, as texts.
fn numbers_below(alloc: Global, letters: &str, count: usize) -> Result<Column, Fail> {
    let mut column = no_row(alloc)?;
    for number in 0..count {
        let text = format!(in alloc; "{letters}{number}")?;
        push(&mut column, text.as_bytes())?;
    }
    Ok(column)
}

// One byte more or less than buckets and buffers have, and far more.
static LENGTHS: [usize; 12] = [
    1,
    4095,
    4096,
    4097,
    5000,
    8193,
    65_535,
    65_536,
    65_537,
    200_001,
    1 << 20,
    2_000_000,
];

// Texts of these lengths.
fn long_texts(alloc: Global) -> Result<Column, Fail> {
    let mut column = no_row(alloc)?;
    for length in &LENGTHS {
        let text = vec![in alloc; b'a'; *length]?;
        push(&mut column, &text)?;
    }
    Ok(column)
}

// The calls that intern a column.
#[derive(Clone, Copy)]
enum Call {
    Batch,
    Nulls,
    BatchLarge,
    NullsLarge,
}

static CALLS: [Call; 4] = [Call::Batch, Call::Nulls, Call::BatchLarge, Call::NullsLarge];

// Interns the column by the call.
fn interns(lasso: &mut Lasso, column: &Column, call: Call, codes: &mut [u32]) -> Seen {
    let (bytes, bits) = (column.bytes.as_slice(), column.bits.as_slice());
    let (small, large) = (column.offsets.as_slice(), column.large.as_slice());
    let mut report = UNSET;
    let (status, want) = match call {
        Call::Batch => (
            lasso_intern_batch(lasso, bytes, small, codes, &mut report),
            column.plain.as_slice(),
        ),
        Call::Nulls => (
            lasso_intern_batch_nulls(lasso, bytes, small, bits, NULL, codes, &mut report),
            column.codes.as_slice(),
        ),
        Call::BatchLarge => (
            lasso_intern_batch_large(lasso, bytes, large, codes, &mut report),
            column.plain.as_slice(),
        ),
        Call::NullsLarge => (
            lasso_intern_batch_nulls_large(lasso, bytes, large, bits, NULL, codes, &mut report),
            column.codes.as_slice(),
        ),
    };
    let is_told = told(status, &report) == (0, (want.len(), 0, 0));
    (status, is_told && *codes == *want)
}

// Interns the column by each call, into a new interner each time.
fn each_call_interns<R: Abort + AllocGlobal>(rt: &R, column: &Column) -> Result<(), Fail> {
    let mut codes = vec![in rt.alloc(); 9u32; column.plain.len()]?;
    let mut lasso = Lasso::none(rt.alloc());
    let mut row = 0usize;
    for call in &CALLS {
        row = row.saturating_add(1);
        walk_on(rt, &mut lasso, &[Step::Makes(usize::MAX)])?;
        is_as_told(rt, interns(&mut lasso, column, *call, &mut codes), row)?;
    }
    Ok(())
}

// Encodes the column without nulls.
fn encodes(alloc: Global, column: &Column) -> Result<Seen, Fail> {
    let mut codes = vec![in alloc; 9u32; column.plain.len()]?;
    let mut texts = vec![in alloc; 9u8; column.bytes.len()]?;
    let mut ends = vec![in alloc; 9u32; column.offsets.len()]?;
    let mut report = UNSET;
    let status = lasso_encode(
        alloc,
        &column.bytes,
        &column.offsets,
        &mut codes,
        &mut texts,
        &mut ends,
        &mut report,
    );
    let want = (0, (column.plain.len(), column.bytes.len(), 0));
    let is_dictionary = texts == column.bytes && ends == column.offsets;
    Ok((
        status,
        told(status, &report) == want && is_dictionary && codes == column.plain,
    ))
}

// Encodes the column with nulls.
fn encodes_nulls(alloc: Global, column: &Column) -> Result<Seen, Fail> {
    let mut codes = vec![in alloc; 9u32; column.codes.len()]?;
    let mut texts = vec![in alloc; 9u8; column.texts.len()]?;
    let mut ends = vec![in alloc; 9u32; column.ends.len()]?;
    let mut report = UNSET;
    let status = lasso_encode_nulls(
        alloc,
        &column.bytes,
        &column.offsets,
        &column.bits,
        NULL,
        &mut codes,
        &mut texts,
        &mut ends,
        &mut report,
    );
    let count = column.ends.len().saturating_sub(1);
    let want = (0, (count, column.texts.len(), 0));
    let is_dictionary = texts == column.texts && ends == column.ends;
    Ok((
        status,
        told(status, &report) == want && is_dictionary && codes == column.codes,
    ))
}

// Interns and encodes the column by each call.
fn each_call_takes<R: Abort + AllocGlobal>(rt: &R, column: &Column) -> Result<(), Fail> {
    each_call_interns(rt, column)?;
    is_as_told(rt, encodes(rt.alloc(), column)?, 5)?;
    is_as_told(rt, encodes_nulls(rt.alloc(), column)?, 6)
}

#[test]
fn each_call_takes_many_rows(rt: HostRuntime) -> Result<(), Fail> {
    let column = numbers_below(rt.alloc(), "", 20_000)?;
    each_call_takes(&rt, &column)
}

#[test]
fn each_call_takes_long_texts(rt: HostRuntime) -> Result<(), Fail> {
    let column = long_texts(rt.alloc())?;
    each_call_takes(&rt, &column)
}

#[test]
fn an_interner_of_five_thousand_texts_is_cloned(rt: HostRuntime) -> Result<(), Fail> {
    let column = numbers_below(rt.alloc(), "", 5000)?;
    let mut codes = vec![in rt.alloc(); 9u32; 5000]?;
    let (mut lasso, mut clone) = (Lasso::none(rt.alloc()), Lasso::none(rt.alloc()));
    walk_on(&rt, &mut lasso, &[Step::Makes(usize::MAX)])?;
    is_as_told(
        &rt,
        interns(&mut lasso, &column, Call::Batch, &mut codes),
        1,
    )?;
    is_as_told(&rt, clones(rt.alloc(), &mut lasso, &mut clone, 0), 2)?;
    is_as_told(
        &rt,
        interns(&mut clone, &column, Call::Batch, &mut codes),
        3,
    )?;
    walk_on(&rt, &mut clone, &[Step::Counts(5000)])
}

// Interns the text, which is new, and looks it up.
fn interns_one(lasso: &mut Lasso, text: &[u8], code: u32) -> Seen {
    let (mut interned, mut found) = (77, 77);
    let status = lasso_intern(lasso, text, &mut interned);
    let looked_up = lasso_get(lasso, text, &mut found);
    let is_found = (looked_up, found) == (0, code);
    (status, (status, interned) == (0, code) && is_found)
}

// Interns numbers after the letters one by one, into a new interner.
fn interns_each<R: Abort + AllocGlobal>(
    rt: &R,
    lasso: &mut Lasso,
    letters: &str,
    count: u32,
) -> Result<(), Fail> {
    walk_on(rt, lasso, &[Step::Makes(usize::MAX)])?;
    for code in 0..count {
        let text = format!(in rt.alloc(); "{letters}{code}")?;
        is_as_told(rt, interns_one(lasso, text.as_bytes(), code), 1)?;
    }
    Ok(())
}

#[test]
fn many_texts_are_interned_one_by_one(rt: HostRuntime) -> Result<(), Fail> {
    let mut lasso = Lasso::none(rt.alloc());
    interns_each(&rt, &mut lasso, "", 30_000)?;
    for length in &LENGTHS {
        let text = vec![in rt.alloc(); b'a'; *length]?;
        let code = number(lasso_len(&mut lasso))?;
        is_as_told(&rt, interns_one(&mut lasso, &text, code), *length)?;
    }
    Ok(())
}

// Makes a handle of a new shared interner.
fn makes_shared(alloc: Global) -> Result<LassoShared, Fail> {
    let mut shared = LassoShared::none(alloc);
    match lasso_shared_new(alloc, &mut shared) {
        0 => Ok(shared),
        _ => Err(Fail::from("no shared interner was made")),
    }
}

// Interns the text, which is new, by the handle, and looks it up.
fn shares_one(shared: &mut LassoShared, text: &[u8], code: u32) -> Seen {
    let (mut interned, mut found) = (77, 77);
    let status = lasso_shared_intern(shared, text, &mut interned);
    let looked_up = lasso_shared_get(shared, text, &mut found);
    let is_found = (looked_up, found) == (0, code);
    (status, (status, interned) == (0, code) && is_found)
}

#[test]
fn many_texts_are_shared_one_by_one(rt: HostRuntime) -> Result<(), Fail> {
    let mut shared = makes_shared(rt.alloc())?;
    for code in 0..30_000u32 {
        let text = format!(in rt.alloc(); "{code}")?;
        is_as_told(&rt, shares_one(&mut shared, text.as_bytes(), code), 1)?;
    }
    for length in &LENGTHS {
        let text = vec![in rt.alloc(); b'a'; *length]?;
        let code = number(lasso_shared_len(&mut shared))?;
        is_as_told(&rt, shares_one(&mut shared, &text, code), *length)?;
    }
    Ok(())
}

// Interns the column by one call, into a new shared interner.
fn shares<R: Abort + AllocGlobal>(rt: &R, column: &Column) -> Result<(), Fail> {
    let mut shared = makes_shared(rt.alloc())?;
    let mut codes = vec![in rt.alloc(); 9u32; column.plain.len()]?;
    let mut report = UNSET;
    let status = lasso_shared_intern_batch(
        &mut shared,
        &column.bytes,
        &column.offsets,
        &mut codes,
        &mut report,
    );
    let is_told = told(status, &report) == (0, (column.plain.len(), 0, 0));
    is_as_told(rt, (status, is_told && codes == column.plain), 1)
}

#[test]
fn batches_of_many_and_long_texts_are_shared(rt: HostRuntime) -> Result<(), Fail> {
    shares(&rt, &numbers_below(rt.alloc(), "", 30_000)?)?;
    shares(&rt, &long_texts(rt.alloc())?)?;
    for letters in &LETTERS {
        shares(&rt, &numbers_below(rt.alloc(), letters, 300)?)?;
    }
    Ok(())
}

// Characters of two, three and four bytes, and more bytes than an entry of the list has.
static LETTERS: [&str; 4] = [
    "\u{e9}",
    "\u{6f22}\u{5b57}",
    "\u{1f40e}",
    "gr\u{fc}n, gr\u{fc}ner, am gr\u{fc}nsten",
];

#[test]
fn each_call_takes_texts_that_are_not_ascii(rt: HostRuntime) -> Result<(), Fail> {
    let mut lasso = Lasso::none(rt.alloc());
    for letters in &LETTERS {
        interns_each(&rt, &mut lasso, letters, 300)?;
        let column = numbers_below(rt.alloc(), letters, 300)?;
        each_call_takes(&rt, &column)?;
    }
    Ok(())
}
