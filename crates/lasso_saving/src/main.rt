//! Saves an interner as a line of JSON, and loads it again. `lasso_saving save` interns the words of its input and writes
//! the line, `lasso_saving load` reads such a line and writes each text after the number of its key, and
//! `lasso_saving both` writes the line of its words, and then what loading it gives.
#![tactic(auto)]

use anyhow::{Result, bail};
use lasso::{Key, Rodeo, Spur, SpurRodeo};
use lasso_guide::saving::{load, save};
use std::{env, io};

fn main(rt: HostRuntime) -> Result<()> {
    let mut words = env::args(&rt)?;
    let _program = words.next();
    let words: Vec<String> = words.collect(rt.alloc())?;
    match words.as_slice() {
        [word] if word.as_str() == "save" => save_words(&rt),
        [word] if word.as_str() == "load" => load_line(&rt),
        [word] if word.as_str() == "both" => save_and_load(&rt),
        _ => bail!("usage: lasso_saving save|load|both"),
    }
}

// The words of the input, interned.
fn words_of_input(rt: &HostRuntime) -> Result<SpurRodeo> {
    let mut names: SpurRodeo = Rodeo::new(rt.alloc())?;
    for line in rt.lines(rt.alloc()) {
        for word in line?.split_whitespace() {
            names.try_get_or_intern(word)?;
        }
    }
    Ok(names)
}

// Writes each text of a saved line after the number of its key.
fn print_texts(rt: &HostRuntime, saved: &str) -> Result<()> {
    let names = load::<Spur>(rt.alloc(), saved)?;
    for (key, name) in names.iter() {
        println!(rt; "{} {name}", key.into_usize())?;
    }
    Ok(())
}

fn save_words(rt: &HostRuntime) -> Result<()> {
    let saved = save(&words_of_input(rt)?, rt.alloc())?;
    println!(rt; "{saved}")?;
    Ok(())
}

fn load_line(rt: &HostRuntime) -> Result<()> {
    let saved = io::read_to_string(rt.alloc(), rt.reader())?;
    print_texts(rt, saved.as_str())
}

fn save_and_load(rt: &HostRuntime) -> Result<()> {
    let saved = save(&words_of_input(rt)?, rt.alloc())?;
    println!(rt; "{saved}")?;
    print_texts(rt, saved.as_str())
}
