//! The lines of a script.
ghost use Rattle.std.specs.Prelude.{◌≡◌, ◌↔◌, [], length, IsTrue};

use az_base::ThreadNo;
use std::marker::Model;
use zone_model::Act;

/// A call line: what a thread is to do.
#[derive(Debug, Drop)]
pub struct Line {
    pub thread: ThreadNo,
    pub act: Act,
}

/// The call lines of a script in their order. Contracts see the list.
#[derive(Debug, Drop)]
pub struct LineList {
    lines: Vec<Line>,
}

impl Model for LineList {
    ghost use Rattle.std.specs.Prelude.{List};
    ghost use Rattle.heap_script.specs.declared.line.Line.{Line};

    ghost Value = { List Line };

    ghost view = { λ l. l.lines.items };
}

impl LineList {
    /// These lines. It takes no memory.
    pub fn from_vec(lines: Vec<Line>) -> LineList
        ensures { result ≡ lines.items }
    {
        LineList { lines }
    }

    /// The lines. It takes no memory.
    pub fn as_slice(&self) -> &[Line]
        ensures { result.now ≡ self.now }
    {
        &self.lines
    }

    pub fn len(&self) -> usize
        ensures { result ≡ length self.now }
    {
        self.lines.len()
    }

    pub fn is_empty(&self) -> bool
        ensures { IsTrue result ↔ (self.now ≡ []) }
    {
        self.lines.is_empty()
    }
}
