//! A compiler of small programs over nested scopes. Expressions are in postfix order, so the value of `x + 1`
//! is `x`, `1`, `Plus`.
ghost use Rattle.std.specs.Prelude.{◌≡◌, [], IfOk};
ghost use Rattle.lasso_guide.specs.Compiling.{IsCodeOf, Translates};
ghost use Rattle.lasso_guide.specs.Scopes.{names_in};
ghost use Rattle.lasso_guide.specs.declared.compiler.CompileError.TheVariants.{OutOfMemory, Refused};

use crate::scopes::Scopes;
use lasso::{Key, LassoError, Spur};
use std::alloc::{AllocError, AllocFailed, Global};

/// What a program is made of.
#[derive(Clone, Copy, Debug)]
pub enum Token<'t> {
    Number(u64),
    /// The value of the variable that the name means here.
    Name(&'t str),
    /// The sum of the two values that were computed last.
    Plus,
    /// Declares the name, with the value that was computed last.
    Let(&'t str),
    Open,
    Close,
}

/// The instructions for a machine with a stack and a place for each variable.
#[derive(Clone, Copy, PartialEq, Debug)]
pub enum Instruction {
    Push(u64),
    Load(usize),
    Add,
    Store(usize),
}

/// Why a program was not compiled.
#[derive(Debug, Drop)]
pub enum CompileError {
    /// A name of which no variable is in scope.
    NotInScope,
    /// A scope is closed, but only the outermost is open.
    NothingToClose,
    /// The interner refused a name.
    Refused(LassoError),
    OutOfMemory,
}

impl From<LassoError> for CompileError {
    ghost from_gives = { λ refusal error. error ≡ Refused refusal };

    fn from(refusal: LassoError) -> Self {
        CompileError::Refused(refusal)
    }
}

impl From<AllocError> for CompileError {
    ghost from_gives = { λ _ error. error ≡ OutOfMemory };

    fn from(_: AllocError) -> Self {
        CompileError::OutOfMemory
    }
}

impl<T: Drop> From<AllocFailed<T>> for CompileError {
    ghost from_gives = { λ _ error. error ≡ OutOfMemory };

    fn from(_: AllocFailed<T>) -> Self {
        CompileError::OutOfMemory
    }
}

/// The instructions of a program: each `Load` has the place of the variable that its name means there, and
/// each `Store` the place of the variable that is declared.
pub fn compile(alloc: Global, tokens: &[Token<'_>]) -> Result<Vec<Instruction>, CompileError>
    ensures { IfOk result (λ code. IsCodeOf [] [] tokens.now code.items) }
{
    let mut scopes: Scopes<Spur> = Scopes::new(alloc)?;
    let mut code = Vec::new(alloc);
    for token in tokens {
        translate(&mut scopes, token, &mut code)?;
    }
    Ok(code)
}

// Appends the instruction of a token, if it has one.
fn translate<K: Key + Drop>(
    scopes: &mut Scopes<K>,
    token: &Token<'_>,
    code: &mut Vec<Instruction>,
) -> Result<(), CompileError>
    ensures { IfOk result (λ _. Translates (names_in K.number scopes.old.names scopes.old.variables) scopes.old.opened.items code.old.items token.now
        (names_in K.number scopes.new.names scopes.new.variables) scopes.new.opened.items code.new.items) }
{
    match token {
        Token::Number(number) => {
            code.push(Instruction::Push(*number))?;
            Ok(())
        }
        Token::Name(name) => {
            let Some(place) = scopes.place_of(name) else {
                return Err(CompileError::NotInScope);
            };
            code.push(Instruction::Load(place))?;
            Ok(())
        }
        Token::Plus => {
            code.push(Instruction::Add)?;
            Ok(())
        }
        Token::Let(name) => {
            let place = scopes.declare(name)?;
            code.push(Instruction::Store(place))?;
            Ok(())
        }
        Token::Open => {
            scopes.open()?;
            Ok(())
        }
        Token::Close => {
            if scopes.close() {
                Ok(())
            } else {
                Err(CompileError::NothingToClose)
            }
        }
    }
}
