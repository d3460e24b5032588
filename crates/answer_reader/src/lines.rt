ghost use Rattle.std.specs.Prelude.{◌≡◌, ◌+◌, ◌∷◌, [], ◌<◌, ◌≤◌, ◌^◌, length, IfOk, OnOk, IfErr, OnErr};

use crate::answer_err::{AnswerCause, AnswerErr};
use crate::cut::{begins, cut};

/// The remaining lines of a text, with the number of the next, counted from 1.
#[derive(Drop)]
pub struct Lines<'a> {
    /// The remaining bytes.
    pub rest: &'a [u8],
    /// The number of the next line.
    pub number: u32,
    pub ghost few: { number + length rest.now < 2 ^ 32 },
}

impl<'a> Lines<'a> {
    ghost use Rattle.answer_reader.specs.declared.answer_err.AnswerErr.TheVariants.{At};
    ghost use Rattle.answer_reader.specs.declared.answer_err.AnswerCause.TheVariants.{CutShort};
    ghost use Rattle.timeline_text.specs.Bytes.{lines_of};
    ghost use Rattle.answer_reader.specs.Cuts.{begins};
    ghost use Rattle.answer_reader.specs.Left.{lines_left};

    /// The lines of a whole text.
    pub fn of_text(bytes: &'a [u8]) -> Lines<'a>
        requires { length bytes.now ≤ 268435456 }
        ensures lines { lines_left result ≡ lines_of bytes.entry.now }
        ensures number { result.number ≡ 1 }
    {
        Lines {
            rest: bytes,
            number: 1,
        }
    }

    /// The next line, without its line feed. `CutShort` if the bytes end before the line does; then
    /// the remaining lines are as before.
    pub fn next_line(&mut self) -> Result<&'a [u8], AnswerErr>
        ensures line { IfOk result (λ line. lines_left self.old ≡ line.now ∷ lines_left self.new) }
        ensures number { OnOk result (self.new.number ≡ self.old.number + 1) }
        ensures shorter { OnOk result (length self.new.rest.now < length self.old.rest.now) }
        ensures err { IfErr result (λ e. e ≡ At self.old.number CutShort) }
        ensures missing { IfErr result (λ _. lines_left self.old ≡ self.old.rest.now ∷ []) }
        ensures same { OnErr result (self.new ≡ self.old) }
    {
        let Some((line, rest)) = cut(b'\n', self.rest) else {
            return Err(AnswerErr::At {
                line: self.number,
                cause: AnswerCause::CutShort,
            });
        };
        self.rest = rest;
        self.number += 1;
        Ok(line)
    }

    /// Whether the remaining bytes begin with a prefix.
    pub fn begins(&self, front: &[u8]) -> bool
        ensures { result ≡ begins front.now self.now.rest.now }
    {
        begins(front, self.rest)
    }
}
