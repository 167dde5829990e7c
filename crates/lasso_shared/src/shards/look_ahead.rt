//! Looking ahead at the texts of a list, and taking them one after another.
//!
//! The hints of the pass are asked for all of them, and then each shard that has texts without a guess is locked
//! once for reading. Then the length of the list is read, and the texts at the guesses are looked at. No text is
//! interned by a look ahead.
//!
//! If hints find most texts, there is no look ahead: these texts are in near caches, and it would cost more than
//! it saves.
ghost use Rattle.std.specs.Prelude.{◌≡◌, [], Some, IfSome};
ghost use Rattle.lasso_parts.specs.Texts.{key_of};
ghost use Rattle.lasso_log.specs.Notes.{Since};
ghost use Rattle.lasso_log.specs.Replies.{Copied, Intern, Interned, Get, Found};
ghost use Rattle.lasso_log.specs.Views.{PassView, InternerId, SnapshotView, IsSamePass, list_of};
ghost use Rattle.lasso_shared.specs.PassCalls.{IsPassCall};

use crate::shards::Shards;
use crate::shards::guesses::{Guess, Guesses, TOGETHER};
use crate::shards::look_up::key_at;
use crate::shards::new_text::NewText;
use crate::shards::tag::SHARDS;
use lasso_log::log::{KnownList, Pass};
use lasso_parts::index::hash_text;
use lasso_parts::keys::Key;
use lasso_parts::same::is_alike;
use lasso_parts::util::LassoResult;
use std::hash::BuildHasher;
use std::sync::Wait;

/// What is known of the texts that come next: a list that was seen, and guesses at their positions in it.
#[derive(Drop)]
pub(super) struct Ahead<K: Key> {
    pub(super) list: KnownList<K>,
    pub(super) guesses: Guesses,
}

impl<K: Key, S: BuildHasher + Drop> Shards<K, S> {
    // No guess, and a list of which no length is known.
    #[inline(always)]
    pub(super) fn nothing_ahead(&self) -> Ahead<K>
        ensures { result.list.of ≡ self.now.log }
    {
        Ahead {
            list: self.log.unknown_list(),
            guesses: Guesses::new(),
        }
    }

    // Guesses the positions of texts that have no guess yet. Each of their shards is locked once, for reading.
    fn guess_in_shards<R: Wait>(&self, rt: &R, guesses: &mut Guesses) {
        let places = guesses.places_left();
        for number in 0..SHARDS {
            if places[number] != 0 {
                let guard = self.lock(number).read(rt);
                guesses.guess_in(&guard.get().shard.index, places[number]);
                guard.unlock();
            }
        }
    }

    // Reads the texts at the guesses, so that they are in the cache when they are compared.
    fn look_at_guesses(&self, list: &KnownList<K>, texts: &[&str], guesses: &mut Guesses)
        requires { list.now.of ≡ self.now.log }
    {
        let size = texts.len().min(TOGETHER);
        let mut there = [""; TOGETHER];
        for place in 0..size {
            if let Some(position) = guesses.each[place].position {
                there[place] = self.log.text_in(list, position).unwrap_or("");
            }
        }
        for place in 0..size {
            guesses.each[place].is_alike = is_alike(there[place], texts[place]);
        }
    }

    // Looks ahead at the first texts, if all guesses were taken and hints alone don't serve.
    #[inline(always)]
    pub(super) fn look_ahead<R: Wait>(
        &self,
        rt: &R,
        pass: &mut Pass<K>,
        texts: &[&str],
        ahead: &mut Ahead<K>,
    )
        requires of { (pass.old.of ≡ self.now.log) × (ahead.old.list.of ≡ self.now.log) }
        ensures of { ahead.new.list.of ≡ self.now.log }
        ensures same { IsSamePass pass.new pass.old }
        ensures since { Since pass.old.number pass.old.notes pass.new.notes [] }
    {
        if !ahead.guesses.are_taken() {
            return;
        }
        if pass.hints_serve() {
            ahead.guesses.leave_out();
        } else {
            self.look_further(rt, pass, texts, ahead);
        }
    }

    // Looks ahead at the first texts.
    #[inline(never)]
    fn look_further<R: Wait>(
        &self,
        rt: &R,
        pass: &mut Pass<K>,
        texts: &[&str],
        ahead: &mut Ahead<K>,
    )
        requires { pass.old.of ≡ self.now.log }
        ensures of { ahead.new.list.of ≡ self.now.log }
        ensures same { IsSamePass pass.new pass.old }
        ensures since { Since pass.old.number pass.old.notes pass.new.notes [] }
    {
        ahead.guesses.begin(&self.hasher, texts);
        ahead.guesses.ask_hints(pass);
        self.guess_in_shards(rt, &mut ahead.guesses);
        ahead.guesses.count_missing();
        ahead.list = self.log.known_list(pass);
        self.look_at_guesses(&ahead.list, texts, &mut ahead.guesses);
    }

    // The key of the text, if it is at the guess.
    #[inline(always)]
    pub(super) fn key_by_guess(
        &self,
        pass: &mut Pass<K>,
        list: &KnownList<K>,
        guess: Guess,
        text: &str,
    ) -> Option<K>
        requires of { (pass.old.of ≡ self.now.log) × (list.now.of ≡ self.now.log) }
        ensures same { IsSamePass pass.new pass.old }
        ensures since { Since pass.old.number pass.old.notes pass.new.notes [] }
        ensures found { IfSome result (λ k. key_of K.key_at (list_of self.now.log pass.new.notes) text.now ≡ Some k) }
    {
        let position = guess.likely_position()?;
        if !self.log.is_text_at(pass, list, position, text) {
            return None;
        }
        pass.prove_legal();
        guess.keep_in(pass, position);
        let known = pass.snapshot();
        Some(key_at(&known, position as usize))
    }

    // Interns the next text of those that were looked ahead at. A text without a guess was absent, so its shard is locked at
    // once. The reply is right for any other text too.
    #[inline(always)]
    pub(super) fn intern_next<R: Wait>(
        &self,
        rt: &R,
        pass: &mut Pass<K>,
        text: &str,
        ahead: &mut Ahead<K>,
    ) -> LassoResult<K>
        requires of { (pass.old.of ≡ self.now.log) × (ahead.old.list.of ≡ self.now.log) }
        ensures of { ahead.new.list.of ≡ self.now.log }
        ensures same { IsSamePass pass.new pass.old }
        ensures call { IsPassCall K.key_at self.now.log pass.old pass.new (Intern Copied text.now) (Interned result) }
    {
        if ahead.guesses.leaves_out_next() {
            return self.intern(rt, pass, NewText::Copied(text));
        }
        let guess = ahead.guesses.take();
        if let Some(key) = self.key_by_guess(pass, &ahead.list, guess, text) {
            return Ok(key);
        }
        if guess.position.is_some() {
            return self.intern(rt, pass, NewText::Copied(text));
        }
        self.intern_new(
            rt,
            pass,
            hash_text(&self.hasher, text),
            NewText::Copied(text),
        )
    }

    // Looks up the next text of those that were looked ahead at. The reply is right for any other text too.
    #[inline(always)]
    pub(super) fn get_next<R: Wait>(
        &self,
        rt: &R,
        pass: &mut Pass<K>,
        text: &str,
        ahead: &mut Ahead<K>,
    ) -> Option<K>
        requires of { (pass.old.of ≡ self.now.log) × (ahead.old.list.of ≡ self.now.log) }
        ensures of { ahead.new.list.of ≡ self.now.log }
        ensures same { IsSamePass pass.new pass.old }
        ensures call { IsPassCall K.key_at self.now.log pass.old pass.new (Get text.now) (Found result) }
    {
        if ahead.guesses.leaves_out_next() {
            return self.get(rt, pass, text);
        }
        let guess = ahead.guesses.take();
        if let Some(key) = self.key_by_guess(pass, &ahead.list, guess, text) {
            return Some(key);
        }
        self.get_under_read_lock(rt, pass, hash_text(&self.hasher, text), text)
    }
}
