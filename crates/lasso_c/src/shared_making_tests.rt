//! Makers of shared interners, meetings of their handles, and copies of their texts, on inputs that were worked by hand.
use crate::handle::Lasso;
use crate::lending::LassoText;
use crate::shared::handle::LassoShared;
use crate::shared::lending::lasso_shared_text;
use crate::shared::limits::{lasso_shared_limit, lasso_shared_memory};
use crate::shared::making::{
    lasso_shared_new, lasso_shared_new_keyed, lasso_shared_new_seeded, lasso_shared_new_sized,
    lasso_shared_new_sized_keyed, lasso_shared_new_sized_seeded,
};
use crate::shared::{
    lasso_shared_copy, lasso_shared_free, lasso_shared_intern, lasso_shared_join, lasso_shared_len,
    lasso_shared_meet, lasso_shared_see,
};
use crate::tests::checks::{is_so, is_so_at};
use crate::tests::steps::{Step, walk_on};
use std::alloc::Global;
use std::process::Abort;
use std::test::Fail;

// A way to make a shared interner: with room for texts, a first bucket of some bytes and a limit, and with a seed or keys.
#[derive(Clone, Copy)]
enum Maker {
    Usual,
    Sized([usize; 3]),
    Seeded(u64, u64),
    SizedSeeded([usize; 3], u64, u64),
    Keyed(u64, u64),
    SizedKeyed([usize; 3], u64, u64),
}

fn make(alloc: Global, shared: &mut LassoShared, maker: Maker) -> u32 {
    match maker {
        Maker::Usual => lasso_shared_new(alloc, shared),
        Maker::Sized([texts, bytes, limit]) => {
            lasso_shared_new_sized(alloc, shared, texts, bytes, limit)
        }
        Maker::Seeded(one, other) => lasso_shared_new_seeded(alloc, shared, one, other),
        Maker::SizedSeeded([texts, bytes, limit], one, other) => {
            lasso_shared_new_sized_seeded(alloc, shared, texts, bytes, limit, one, other)
        }
        Maker::Keyed(one, other) => lasso_shared_new_keyed(alloc, shared, one, other),
        Maker::SizedKeyed([texts, bytes, limit], one, other) => {
            lasso_shared_new_sized_keyed(alloc, shared, texts, bytes, limit, one, other)
        }
    }
}

static MAKERS: [Maker; 9] = [
    Maker::Usual,
    Maker::Sized([0, 0, 100]),
    Maker::Sized([100_000, 65536, usize::MAX]),
    Maker::Seeded(0, 0),
    Maker::Seeded(7, u64::MAX),
    Maker::SizedSeeded([1, 100, 100], u64::MAX, 7),
    Maker::Keyed(0, 0),
    Maker::Keyed(7, u64::MAX),
    Maker::SizedKeyed([1000, 1, 1000], u64::MAX, 7),
];

// Interns the text, which has to have this code then. Out of memory the test ends.
fn intern(
    rt: &impl Abort,
    shared: &mut LassoShared,
    text: &[u8],
    want: u32,
    row: usize,
) -> Result<(), Fail> {
    let mut code = 77;
    let status = lasso_shared_intern(shared, text, &mut code);
    if status == 9 {
        return Err(Fail::from("out of memory"));
    }
    is_so_at(rt, (status, code) == (0, want), row);
    Ok(())
}

// What the buckets of a new interner take, and may take.
#[test]
fn a_first_bucket_has_its_bytes_whatever_the_limit(rt: HostRuntime) -> Result<(), Fail> {
    let alloc: Global = rt.alloc();
    let mut shared = LassoShared::none(alloc);
    let mut row = 0usize;
    for (maker, want) in [
        (Maker::Usual, (4096, usize::MAX)),
        (Maker::Seeded(1, 2), (4096, usize::MAX)),
        (Maker::Keyed(1, 2), (4096, usize::MAX)),
        (Maker::Sized([9, 0, 0]), (1, 0)),
        (Maker::Sized([0, 10, 5]), (10, 5)),
        (Maker::SizedSeeded([9, 100, 1000], 1, 2), (100, 1000)),
        (
            Maker::SizedKeyed([9, 65536, usize::MAX], 1, 2),
            (65536, usize::MAX),
        ),
    ] {
        row = row.saturating_add(1);
        if make(alloc, &mut shared, maker) != 0 {
            return Err(Fail::from("out of memory"));
        }
        let (mut taken, mut limit) = (77, 77);
        is_so_at(&rt, lasso_shared_memory(&mut shared, &mut taken) == 0, row);
        is_so_at(&rt, lasso_shared_limit(&mut shared, &mut limit) == 0, row);
        is_so_at(&rt, (taken, limit) == want, row);
    }
    Ok(())
}

// Of an interner of one thread: the texts that were copied, in one bucket of their seven bytes, and one more.
static COPIED: [Step; 9] = [
    Step::Counts(2),
    Step::Takes(7, usize::MAX),
    Step::Lends(0, (0, b"red")),
    Step::Lends(1, (0, b"blue")),
    Step::Lends(2, (4, b"none")),
    Step::Finds(b"blue", (0, 1)),
    Step::Finds(b"green", (13, 77)),
    Step::Interns(b"green", (0, 2)),
    Step::Finds(b"red", (0, 0)),
];

#[test]
fn each_maker_makes_an_interner_that_is_copied(rt: HostRuntime) -> Result<(), Fail> {
    let alloc: Global = rt.alloc();
    let (mut shared, mut lasso) = (LassoShared::none(alloc), Lasso::none(alloc));
    let mut row = 0usize;
    for maker in MAKERS {
        row = row.saturating_add(1);
        if make(alloc, &mut shared, maker) != 0 {
            return Err(Fail::from("out of memory"));
        }
        intern(&rt, &mut shared, b"red", 0, row)?;
        intern(&rt, &mut shared, b"blue", 1, row)?;
        intern(&rt, &mut shared, b"red", 0, row)?;
        is_so_at(&rt, lasso_shared_see(&mut shared) == 0, row);
        intern(&rt, &mut shared, b"green", 2, row)?;
        if lasso_shared_copy(alloc, &mut shared, &mut lasso) != 0 {
            return Err(Fail::from("out of memory"));
        }
        walk_on(&rt, &mut lasso, &COPIED)?;
    }
    Ok(())
}

#[test]
fn an_empty_list_is_copied(rt: HostRuntime) -> Result<(), Fail> {
    let alloc: Global = rt.alloc();
    let (mut shared, mut lasso) = (LassoShared::none(alloc), Lasso::none(alloc));
    is_so(
        &rt,
        lasso_shared_copy(alloc, &mut shared, &mut lasso) == 12,
        "a copy of nothing",
    );
    is_so(&rt, lasso_shared_len(&mut shared) == 0, "no texts");
    if make(alloc, &mut shared, Maker::Usual) != 0
        || lasso_shared_copy(alloc, &mut shared, &mut lasso) != 0
    {
        return Err(Fail::from("out of memory"));
    }
    walk_on(
        &rt,
        &mut lasso,
        &[
            Step::Counts(0),
            Step::Takes(4096, usize::MAX),
            Step::Interns(b"red", (0, 0)),
        ],
    )
}

#[test]
fn an_interner_too_large_for_memory_is_refused(rt: HostRuntime) -> Result<(), Fail> {
    let alloc: Global = rt.alloc();
    let mut shared = LassoShared::none(alloc);
    if make(alloc, &mut shared, Maker::Usual) != 0 {
        return Err(Fail::from("out of memory"));
    }
    intern(&rt, &mut shared, b"red", 0, 1)?;
    for maker in [
        Maker::Sized([usize::MAX, 1, usize::MAX]),
        Maker::Sized([1, usize::MAX, usize::MAX]),
        Maker::SizedSeeded([usize::MAX, 1, usize::MAX], 7, 7),
        Maker::SizedSeeded([1, usize::MAX, 10], 7, 7),
        Maker::SizedKeyed([usize::MAX, 1, usize::MAX], 7, 7),
        Maker::SizedKeyed([1, usize::MAX, 10], 7, 7),
    ] {
        is_so(&rt, make(alloc, &mut shared, maker) == 9, "the status");
        is_so(&rt, lasso_shared_len(&mut shared) == 1, "what is held");
    }
    Ok(())
}

// Whether the handle lends this text for the code, or none.
fn lends(shared: &mut LassoShared, code: u32, want: &[u8]) -> bool {
    let mut text = LassoText { bytes: b"none" };
    let _status = lasso_shared_text(shared, code, &mut text);
    text.bytes == want
}

#[test]
fn a_handle_meets_another(rt: HostRuntime) -> Result<(), Fail> {
    let alloc: Global = rt.alloc();
    let (mut one, mut other) = (LassoShared::none(alloc), LassoShared::none(alloc));
    is_so(
        &rt,
        lasso_shared_meet(&mut one, &mut other) == 12,
        "neither",
    );
    if make(alloc, &mut one, Maker::Usual) != 0 {
        return Err(Fail::from("out of memory"));
    }
    is_so(
        &rt,
        lasso_shared_meet(&mut one, &mut other) == 12,
        "no other",
    );
    is_so(
        &rt,
        lasso_shared_meet(&mut other, &mut one) == 12,
        "the other alone",
    );
    if lasso_shared_join(alloc, &mut one, &mut other) != 0 {
        return Err(Fail::from("out of memory"));
    }
    intern(&rt, &mut one, b"red", 0, 1)?;
    is_so(&rt, lends(&mut other, 0, b"none"), "before they met");
    is_so(
        &rt,
        lasso_shared_meet(&mut other, &mut one) == 0,
        "the status",
    );
    is_so(&rt, lends(&mut other, 0, b"red"), "after they met");
    is_so(&rt, lends(&mut one, 0, b"none"), "the one that was met");
    lasso_shared_free(alloc, &mut one);
    if make(alloc, &mut one, Maker::Usual) != 0 {
        return Err(Fail::from("out of memory"));
    }
    intern(&rt, &mut other, b"blue", 1, 2)?;
    is_so(
        &rt,
        lasso_shared_meet(&mut other, &mut one) == 0,
        "of another interner",
    );
    is_so(&rt, lends(&mut other, 1, b"blue"), "the list as it is");
    is_so(&rt, lasso_shared_len(&mut one) == 0, "the other interner");
    Ok(())
}
