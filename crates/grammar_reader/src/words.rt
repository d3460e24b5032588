ghost use Rattle.std.specs.Prelude.{◌≡◌, ◌+◌, ◌<◌, ◌≤◌, ◌∷◌, [], ◌++◌, length, map};

/// A word of a line: a sign or a name, with the `[` or `]` before it, if there is one.
#[derive(Clone, Copy)]
pub(crate) struct Word<'a> {
    pub mark: &'a [u8],
    pub text: &'a [u8],
}

/// The greatest number of words in a line.
const ROOM: usize = 40;

/// The words of one line of a grammar text.
#[derive(Drop)]
pub(crate) struct Words<'a> {
    words: [Word<'a>; ROOM],
    pub len: usize,
    ghost room: { len ≤ 40 },
    ghost full: { length words ≡ 40 },
}

impl<'a> Words<'a> {
    ghost use Rattle.grammar_reader.specs.Words.{texts_of, word_text};

    /// A line that has this word so far.
    pub fn begin(text: &'a [u8]) -> Words<'a>
        ensures words { texts_of result ≡ text.entry.now ∷ [] }
        ensures len { result.len ≡ 1 }
    {
        Words {
            words: [Word { mark: b"", text }; ROOM],
            len: 1,
        }
    }

    /// Adds a word with its mark.
    pub fn push_marked(&mut self, mark: &'a [u8], text: &'a [u8])
        requires { self.old.len < 40 }
        ensures words { texts_of self.new
            ≡ texts_of self.old ++ (mark.entry.now ++ text.entry.now) ∷ [] }
        ensures len { self.new.len ≡ self.old.len + 1 }
    {
        self.words[self.len] = Word { mark, text };
        self.len += 1;
    }

    /// Adds a word.
    pub fn push(&mut self, text: &'a [u8])
        requires { self.old.len < 40 }
        ensures words { texts_of self.new ≡ texts_of self.old ++ text.entry.now ∷ [] }
        ensures len { self.new.len ≡ self.old.len + 1 }
    {
        self.push_marked(b"", text);
    }

    /// The words in their order.
    pub fn as_slice(&self) -> &[Word<'a>]
        ensures { map word_text result.now ≡ texts_of self.now }
    {
        &self.words[..self.len]
    }
}
