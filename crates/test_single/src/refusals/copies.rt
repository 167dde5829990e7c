//! `clone` and `clone_from`.
use crate::refusals::*;

// By which of its two names a call is made.
#[derive(Clone, Copy)]
pub enum Name {
    Plain,
    Try,
}

fn cloned<'m>(rodeo: &Metered<'m, Spur>, name: Name) -> LassoResult<Metered<'m, Spur>> {
    match name {
        Name::Plain => rodeo.clone(),
        Name::Try => rodeo.try_clone(),
    }
}

impl<'m, R: Host> Tried<'m, Spur, R> {
    // A clone of an interner in this state, made again if a request of the first is refused.
    pub fn cloned(&self, name: Name, state: State) -> Result<Self, Fail> {
        let (rt, memory) = (self.rt, self.memory);
        let rodeo = match cloned(&self.rodeo, name) {
            Ok(copy) => copy,
            Err(refusal) => {
                is_out_of_memory(rt, memory, refusal.kind());
                self.is_in(state);
                cloned(&self.rodeo, name)?
            }
        };
        Ok(Tried { rt, memory, rodeo })
    }

    fn copy(&mut self, source: &Self, name: Name) -> Option<LassoErrorKind> {
        refusal_of(match name {
            Name::Plain => self.rodeo.clone_from(&source.rodeo),
            Name::Try => self.rodeo.try_clone_from(&source.rodeo),
        })
    }

    // Copies the source over the interner, again while a request of the copy is refused. Each refused copy
    // leaves no text, and only the first bucket, of `first` bytes. Returns why the last copy was refused, if
    // it was.
    pub fn copies(&mut self, source: &Self, name: Name, first: usize) -> Option<LassoErrorKind> {
        let mut refusal = self.copy(source, name);
        for _refusal in 0..REFUSALS {
            if !self.memory.has_refused_anew() {
                break;
            }
            is_so(self.rt, refusal == Some(MEMORY), "a copy out of memory");
            self.is_in((&[], first));
            refusal = self.copy(source, name);
        }
        refusal
    }

    // The copy is refused by the limit, and leaves the interner in this state. It then gives the rows.
    fn is_limited(&mut self, source: &Self, first: usize, state: State, rows: &[Row]) {
        let refusal = self.copies(source, Name::Try, first);
        is_so(self.rt, refusal == Some(LIMIT), "a copy past the limit");
        self.is_in(state);
        self.gives_each(state, rows);
    }
}

const ABC_GDFG: &[&str] = &["abc", "gdfg"];

// The clone copies the static text too. Its one bucket has 7 bytes, more than the source's limit of 5.
fn clones_static<R: Host>(rt: &R, memory: &Memory) -> Result<(), Fail> {
    static ROWS: [Row; 2] = [
        (Intern("abc"), Ok(0), (&["abc"], 10)),
        (InternStatic("gdfg"), Ok(1), (ABC_GDFG, 10)),
    ];
    static OF_COPY: [Row; 1] = [(Intern("x"), Err(LIMIT), (ABC_GDFG, 7))];
    static OF_SOURCE: [Row; 1] = [(Intern("x"), Ok(2), (&["abc", "gdfg", "x"], 10))];
    if let Some(mut source) = Tried::<Spur, R>::new(rt, memory, 10, 5) {
        source.gives_each((&[], 10), &ROWS);
        let mut copy = source.cloned(Name::Try, (ABC_GDFG, 10))?;
        copy.gives_each((ABC_GDFG, 7), &OF_COPY);
        source.gives_each((ABC_GDFG, 10), &OF_SOURCE);
    }
    Ok(())
}

const ABC_DEFG: &[&str] = &["abc", "defg"];

// A source of two texts in one bucket of 8 bytes.
fn two<'m, R: Host>(rt: &'m R, memory: &'m Memory) -> Option<Tried<'m, Spur, R>> {
    static ROWS: [Row; 2] = [
        (Intern("abc"), Ok(0), (&["abc"], 8)),
        (Intern("defg"), Ok(1), (ABC_DEFG, 8)),
    ];
    let mut source = Tried::new(rt, memory, 8, usize::MAX)?;
    source.gives_each((&[], 8), &ROWS);
    Some(source)
}

// Copies over an interner without a text, and over one with a text. The limit of 4 bytes refuses the copy. The
// target then has no text, and only its first bucket, of 4 bytes.
fn over_no_text_and_one<R: Host>(rt: &R, memory: &Memory) {
    static OLD: [Row; 1] = [(Intern("old"), Ok(0), (&["old"], 4))];
    static ROWS: [Row; 1] = [(Intern("wxyz"), Ok(0), (&["wxyz"], 4))];
    let Some(source) = two(rt, memory) else {
        return;
    };
    for old in [&OLD[..0], OLD.as_slice()] {
        if let Some(mut target) = Tried::new(rt, memory, 4, 4) {
            target.gives_each((&[], 4), old);
            target.is_limited(&source, 4, (&[], 4), &ROWS);
            source.is_in((ABC_DEFG, 8));
        }
    }
}

// "abc" goes into the first bucket. "defg" takes a second one, of 8 bytes, where "wxyz" fits too. "wxyz" is added
// again if a request of the first call is refused, which leaves the texts.
fn into_a_new_bucket<R: Host>(rt: &R, memory: &Memory) -> Result<(), Fail> {
    let (Some(source), Some(mut target)) = (two(rt, memory), Tried::new(rt, memory, 4, usize::MAX))
    else {
        return Ok(());
    };
    let refusal = target.copies(&source, Name::Try, 4);
    is_so(rt, refusal.is_none(), "a copy into a new bucket");
    target.is_in((ABC_DEFG, 12));
    if let Some(kind) = refusal_of(target.rodeo.extend(["wxyz", "abc"])) {
        is_out_of_memory(rt, memory, kind);
        target.is_in((ABC_DEFG, 12));
        target.rodeo.extend(["wxyz", "abc"])?;
    }
    target.is_in((&["abc", "defg", "wxyz"], 12));
    source.is_in((ABC_DEFG, 8));
    Ok(())
}

fn copies_interners<R: Host>(rt: &R, memory: &Memory) -> Result<(), Fail> {
    clones_static(rt, memory)?;
    over_no_text_and_one(rt, memory);
    into_a_new_bucket(rt, memory)
}

#[test]
fn copied_interners(rt: HostRuntime) -> Result<(), Fail> {
    each_refused(&rt, copies_interners)
}

// "abc" goes into the first bucket of 4 bytes, the nine bytes get a bucket of their own, and "defgh" gets one
// of 8 bytes. These 21 bytes are the limit, which refuses "ijkl". Then the bucket of 8 bytes is kept, and
// that of 9 bytes is freed. Nothing is allocated after the bucket of 8 bytes, so a copy that runs out of
// memory leaves only the first bucket.
fn past_the_first_bucket<R: Host>(rt: &R, memory: &Memory) -> Result<(), Fail> {
    static ROWS: [Row; 2] = [
        (Intern("wxyz"), Ok(0), (&["wxyz"], 12)),
        (Intern("ijklmnop"), Ok(1), (&["wxyz", "ijklmnop"], 12)),
    ];
    let four = Rodeo::from_iter(memory, ["abc", "qqqqqqqqq", "defgh", "ijkl"]);
    let Some(source) = Tried::of(rt, memory, four) else {
        return Ok(());
    };
    if let Some(mut target) = Tried::new(rt, memory, 4, 21) {
        target.is_limited(&source, 4, (&[], 12), &ROWS);
    }
    Ok(())
}

#[test]
fn a_copy_refused_past_the_first_bucket(rt: HostRuntime) -> Result<(), Fail> {
    each_refused(&rt, past_the_first_bucket)
}

// The copy allocates its list, its index and its buckets from the target's allocator.
#[test]
fn a_copy_stays_in_the_memory_of_its_target(rt: HostRuntime) -> Result<(), Fail> {
    let (of_source, of_target) = (Refusing::new(rt.alloc(), 0), Refusing::new(rt.alloc(), 0));
    let source = Metered::<Spur>::from_iter(&of_source, ["abc", "defg"])?;
    let mut target = Metered::<Spur>::from_iter(&of_target, ["old"])?;
    let bytes = of_source.bytes_out();
    target.try_clone_from(&source)?;
    is_so(&rt, of_source.bytes_out() == bytes, "the source's memory");
    is_so(&rt, target.len() == 2, "the texts");
    Ok(())
}
