// Words in room that is taken before.
ghost use Rattle.std.specs.Prelude.{◌≡◌, ◌↔◌, map, string_bytes, IfOk, IsTrue, slice_get, length, [], ◌∷◌};
ghost use Rattle.std.specs.Option.{option_copied};
ghost use Rattle.pir_ports.specs.WordList.{no_words, with_words, Fits};

use std::alloc::{AllocError, Global};
use std::marker::Model;

/// The part of a list from place `from` to before place `to`.
#[derive(Clone, Copy)]
pub struct Span {
    pub from: usize,
    pub to: usize,
}

/// Words in the order in which they came.
///
/// They lie one after another in one text, in room that `new` takes, so that keeping one needs no
/// memory.
#[derive(Drop)]
pub struct Words {
    text: Vec<u8>,
    spans: Vec<Span>,
    word_room: usize,
    byte_room: usize,
}

impl Model for Words {
    ghost use Rattle.pir_ports.specs.WordList.{WordList};

    ghost Value = { WordList };

    ghost use Rattle.pir_ports.specs.WordsInside.{list_of, IsSound};

    ghost view = { list_of };

    ghost invariant = { IsSound };
}

impl Words {
    /// No words, and room for `words` of them with `bytes` bytes in all.
    pub fn new(alloc: Global, words: usize, bytes: usize) -> Result<Self, AllocError>
        ensures { IfOk result (λ w. w ≡ no_words words bytes) }
    {
        Ok(Words {
            text: Vec::with_capacity(alloc, bytes)?,
            spans: Vec::with_capacity(alloc, words)?,
            word_room: words,
            byte_room: bytes,
        })
    }

    /// How many words there are.
    pub fn len(&self) -> usize
        ensures { result ≡ length self.now.words }
    {
        self.spans.len()
    }

    /// How many bytes of words there is still room for.
    pub fn byte_room(&self) -> usize
        ensures { result ≡ self.now.byte_room }
    {
        self.byte_room
    }

    /// Keeps one word more.
    pub fn push(&mut self, word: &str)
        requires { Fits (word.now ∷ []) self.old }
        ensures { self.new ≡ with_words (word.now ∷ []) self.old }
    {
        let from = self.text.len();
        match self.text.extend_from_slice(word.as_bytes()) {
            Ok(()) => {}
            Err(_) => unreachable!(),
        }
        let to = self.text.len();
        match self.spans.push(Span { from, to }) {
            Ok(()) => {}
            Err(_) => unreachable!(),
        }
        self.word_room -= 1;
        self.byte_room -= word.len();
    }

    /// Keeps these words, behind those that are there.
    pub fn push_all(&mut self, words: &[String])
        requires { Fits (map string_bytes words.now) self.old }
        ensures { self.new ≡ with_words (map string_bytes words.now) self.old }
    {
        for word in words {
            self.push(word.as_str());
        }
    }

    /// Word `i`, counted from 0; `None` exactly where there is none.
    pub fn get(&self, i: usize) -> Option<&[u8]>
        ensures { option_copied result ≡ slice_get self.now.words i }
    {
        let span = self.spans.get(i)?;
        Some(&self.text[span.from..span.to])
    }
}
