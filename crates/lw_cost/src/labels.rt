// The marks of all classes.
ghost use Rattle.std.specs.Prelude.{◌≡◌, ◌<◌, None, length, slice_index_or};

use crate::Mark;
use lw_pool::ClassId;
use std::marker::Model;

/// Marks of the classes of a graph, in the order of their numbers.
#[derive(Drop)]
pub struct Labels {
    marks: Vec<Option<Mark>>,
}

impl Model for Labels {
    ghost use Rattle.std.specs.Prelude.{List, Option};
    ghost use Rattle.lw_cost.specs.declared.mark.Mark.{Mark};

    ghost Value = { List (Option Mark) };

    ghost view = { λ l. l.marks.items };
}

impl Labels {
    /// The marks of all classes, in the order of their numbers.
    pub fn from_marks(marks: Vec<Option<Mark>>) -> Self
        ensures { result ≡ marks.items }
    {
        Labels { marks }
    }

    /// The mark of a class: the least cost of its covers, and its height. None where it has no
    /// cover.
    pub fn mark(&self, class: ClassId) -> Option<Mark>
        requires { class.0 < length self.now }
        ensures { result ≡ slice_index_or self.now class.0 None }
    {
        self.marks[class.0 as usize]
    }

    /// The marks of all classes.
    pub fn marks(&self) -> &[Option<Mark>]
        ensures { result.now ≡ self.now }
    {
        &self.marks
    }
}
