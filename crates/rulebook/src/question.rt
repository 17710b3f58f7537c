ghost use Rattle.std.specs.Prelude.{◌≡◌};
ghost use Rattle.rulebook.specs.Question.{each, low, high};

use super::group::Group;

/// A group and five tags: of the program counter, the instruction's cell, two sources and the memory cell.
#[derive(Clone, Copy, PartialEq, Eq, Debug, Default)]
pub struct Question {
    pub group: Group,
    pub pc: u32,
    pub ci: u32,
    pub a: u32,
    pub b: u32,
    pub m: u32,
}

// `==` is equality in all six numbers.
#[derived]
impl PartialEq for Question {
    ghost use Rattle.std.specs.Cmp.{partial_equiv_from_equiv};
    ghost use Rattle.rulebook.specs.Same.{same_question_laws};

    ghost laws = { partial_equiv_from_equiv same_question_laws };
}

// It says whether two questions are one and the same, and so is an equivalence.
#[derived]
impl Eq for Question {
    ghost use Rattle.std.specs.Cmp.{decided};
    ghost use Rattle.rulebook.specs.Same.{same_question_decides};

    ghost laws = { decided _ same_question_decides };
}

impl Question {
    /// The same question with the low 16 bits of each tag.
    pub fn lower(self) -> Question
        ensures { result ≡ each low self }
    {
        self.each(|tag| tag % 65536)
    }

    /// The same question with the high 16 bits of each tag.
    pub fn upper(self) -> Question
        ensures { result ≡ each high self }
    {
        self.each(|tag| tag >> 16)
    }

    fn each<F: Fn(u32) -> u32>(self, part: F) -> Question
        requires { F.IsAlwaysCallable part }
        ensures group { result.group ≡ self.group }
        ensures pc { F.post part self.pc result.pc }
        ensures ci { F.post part self.ci result.ci }
        ensures a { F.post part self.a result.a }
        ensures b { F.post part self.b result.b }
        ensures m { F.post part self.m result.m }
    {
        Question {
            group: self.group,
            pc: part(self.pc),
            ci: part(self.ci),
            a: part(self.a),
            b: part(self.b),
            m: part(self.m),
        }
    }
}
