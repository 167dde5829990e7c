//! Source texts and their tokens, words that are counted, and sets of texts.
use crate::steps::{fresh, is_so};
use lasso::{FixedState, Key, MemoryLimits, Rodeo, Spur, SpurRodeo};
use lasso_guide::any::have_one_key;
use lasso_guide::closures::counts;
use lasso_guide::compiler::{CompileError, Instruction, Token, compile};
use lasso_guide::errors::{DeclareError, declare};
use lasso_guide::lexer::{Lexer, Token as Piece};
use lasso_guide::symbols::{SymbolTable, first_name};
use lasso_guide::text_set::TextSet;
use lasso_guide::word_counts::{WordCount, count_words};
use std::alloc::Global;
use std::test::Fail;

static PIECES: [&str; 12] = [
    "while", "x1", "<", "20", "{", "x1", "=", "x1", "+", "straße", ";", "}",
];

#[test]
fn pieces_of_a_loop(rt: HostRuntime) -> Result<(), Fail> {
    let mut lexer = Lexer::new(rt.alloc())?;
    let tokens = lexer.tokens(rt.alloc(), " while x1<20{x1 = x1+straße;}\n")?;
    is_so(&rt, tokens.len() == PIECES.len(), "the number of pieces");
    for (token, piece) in tokens.iter().zip(PIECES) {
        let is_right = match token {
            Piece::Name(key) => lexer.name_of(*key) == Some(piece),
            Piece::Number(digits) => *digits == "20" && piece == "20",
            Piece::Symbol(symbol) => *symbol == piece && "<{=+;}".contains(piece),
        };
        is_so(&rt, is_right, piece);
    }
    Ok(())
}

// Words that four threads count.

static COUNTED: [&str; 10] = [
    "to", "be", "or", "not", "to", "be", "that", "is", "the", "question",
];

// The words of "to be or not to be that is the question".
#[test]
fn counts_of_a_text(rt: HostRuntime) -> Result<(), Fail> {
    let rodeo = fresh(rt.alloc())?;
    let counted: WordCount<Spur> = count_words(&rt, &rodeo, &mut rodeo.pass(), &COUNTED)?;
    is_so(&rt, counted.keys.len() == 10, "ten words");
    is_so(&rt, counted.counts.len() == 8, "eight texts");
    for (word, times) in [("to", 2), ("be", 2), ("or", 1), ("question", 1)] {
        let key = rodeo.get(&rt, word).ok_or("absent")?;
        let holds = counted.counts.get(key.into_usize()) == Some(&times);
        is_so(&rt, holds, word);
    }
    let holds = counted.keys.first() == counted.keys.get(4);
    is_so(&rt, holds, "to and to");
    Ok(())
}

#[test]
fn counts_of_few_words(rt: HostRuntime) -> Result<(), Fail> {
    let rodeo = fresh(rt.alloc())?;
    let none = count_words(&rt, &rodeo, &mut rodeo.pass(), &[])?;
    let holds = none.keys.is_empty() && none.counts.is_empty();
    is_so(&rt, holds, "no word");
    let twice = count_words(&rt, &rodeo, &mut rodeo.pass(), &["again", "again"])?;
    is_so(&rt, twice.keys.len() == 2, "two words");
    let holds = twice.counts.as_slice() == [2].as_slice();
    is_so(&rt, holds, "their count");
    Ok(())
}

// A set of texts has each text once, at the position at which it came.

#[test]
fn a_set_has_the_positions_of_its_texts(rt: HostRuntime) -> Result<(), Fail> {
    let mut set: TextSet<Spur, FixedState> = TextSet::new(
        rt.alloc(),
        FixedState::new(),
        usize::MAX,
    )?;
    assert!(rt; set.position("red").is_none());
    assert!(rt; set.insert("red")? == 0);
    assert!(rt; set.insert("")? == 1);
    assert!(rt; set.insert("red")? == 0);
    assert!(rt; set.insert("green")? == 2);
    assert!(rt; set.position("green") == Some(2));
    assert!(rt; set.position("") == Some(1));
    assert!(rt; set.position("blue").is_none());
    Ok(())
}

// Two lists, counted by two threads.

#[test]
fn texts_of_two_lists(rt: HostRuntime) {
    let found = counts(&rt, &["to", "be"], &["or", "not", "to"]);
    is_so(&rt, found.0 == 2 && found.1 == 3, "two lists");
    let found = counts(&rt, &[], &["be"]);
    is_so(&rt, found.0 == 0 && found.1 == 1, "an empty list");
}

// Two texts are compared by their keys.

#[test]
fn keys_tell_texts_apart(rt: HostRuntime) -> Result<(), Fail> {
    let mut rodeo: SpurRodeo = Rodeo::new(rt.alloc())?;
    assert!(rt; have_one_key::<Spur, _, _>(&rt, &mut rodeo, "to be", "to be")?);
    assert!(rt; !have_one_key::<Spur, _, _>(&rt, &mut rodeo, "to be", "not to be")?);
    let mut boxed = Box::new(rt.alloc(), rodeo)?;
    assert!(rt; !have_one_key::<Spur, _, _>(&rt, &mut boxed, "to be", "")?);
    Ok(())
}

// Names that are declared with values, and the code that small programs are compiled to.

// let x = 2; { let y = x; let x = x + y; x }; x
static SHADOWED: [Token<'static>; 12] = [
    Token::Number(2),
    Token::Let("x"),
    Token::Open,
    Token::Name("x"),
    Token::Let("y"),
    Token::Name("x"),
    Token::Name("y"),
    Token::Plus,
    Token::Let("x"),
    Token::Name("x"),
    Token::Close,
    Token::Name("x"),
];

static CODE: [Instruction; 10] = [
    Instruction::Push(2),
    Instruction::Store(0),
    Instruction::Load(0),
    Instruction::Store(1),
    Instruction::Load(0),
    Instruction::Load(1),
    Instruction::Add,
    Instruction::Store(2),
    Instruction::Load(2),
    Instruction::Load(0),
];

#[test]
fn an_inner_declaration_hides_an_outer_one(rt: HostRuntime) -> Result<(), Fail> {
    let code = compile(rt.alloc(), &SHADOWED).ok().ok_or("not compiled")?;
    is_so(&rt, code.as_slice() == CODE.as_slice(), "the code");
    Ok(())
}

// Whether the program is not compiled, as a name of it is not in scope.
fn lacks_a_name(alloc: Global, tokens: &[Token<'_>]) -> bool {
    matches!(compile(alloc, tokens).err(), Some(CompileError::NotInScope))
}

#[test]
fn a_name_out_of_scope_is_not_compiled(rt: HostRuntime) {
    static CLOSED: [Token<'static>; 5] = [
        Token::Open,
        Token::Number(1),
        Token::Let("y"),
        Token::Close,
        Token::Name("y"),
    ];
    is_so(&rt, lacks_a_name(rt.alloc(), &CLOSED), "a closed scope");
    let is_unknown = lacks_a_name(rt.alloc(), &[Token::Name("x")]);
    is_so(&rt, is_unknown, "an unknown name");
    let unopened = compile(rt.alloc(), &[Token::Close]).err();
    let is_outermost = matches!(unopened, Some(CompileError::NothingToClose));
    is_so(&rt, is_outermost, "the outermost scope");
}

// Symbols keep the names that they stand for.

#[test]
fn symbols_keep_their_names(rt: HostRuntime) -> Result<(), Fail> {
    let mut table: SymbolTable<Spur> = SymbolTable::new(rt.alloc())?;
    let x = table.declare("x")?;
    let y = table.declare("y")?;
    assert!(rt; x != y);
    assert!(rt; table.declare("x")? == x);
    assert!(rt; table.name_of(x) == "x");
    assert!(rt; table.name_of(y) == "y");
    assert!(rt; first_name(&mut table, "x", "z")? == "x");
    Ok(())
}

// Names that are declared with values.

// The first bucket has 4096 bytes, so a limit of 0 refuses the long name.
#[test]
fn names_with_values(rt: HostRuntime) -> Result<(), Fail> {
    let long = "x".repeat(rt.alloc(), 5000)?;
    let mut names: SpurRodeo = Rodeo::new(rt.alloc())?;
    let mut values = Vec::new(rt.alloc());
    let width = declare(&mut names, &mut values, "width", 3).ok();
    is_so(&rt, width == Spur::try_from_usize(0), "width");
    names.set_memory_limits(MemoryLimits::new(0));
    let is_refused = match declare(&mut names, &mut values, long.as_str(), 4) {
        Err(DeclareError::Refused(error)) => error.kind().is_memory_limit(),
        _ => false,
    };
    is_so(&rt, is_refused, "a long name");
    assert!(rt; values.as_slice() == [3].as_slice());
    Ok(())
}
