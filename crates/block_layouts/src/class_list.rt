//! The classes of an object's words.
ghost use Rattle.std.specs.Prelude.{◌≡◌, IfOk};

use az_base::{Class, NoMemory};
use std::alloc::Global;
use std::marker::Model;

/// The classes of an object's words, in their order.
#[derive(Debug, Drop)]
pub struct ClassList {
    classes: Vec<Class>,
}

impl Model for ClassList {
    ghost use Rattle.std.specs.Prelude.{List};
    ghost use Rattle.az_base.specs.declared.word.Class.{Class};

    ghost Value = { List Class };

    ghost view = { λ c. c.classes.items };
}

impl ClassList {
    /// A copy of these classes. O(their number).
    pub fn from_slice(alloc: Global, classes: &[Class]) -> Result<ClassList, NoMemory>
        ensures { IfOk result (λ list. list ≡ classes.now) }
    {
        let classes = Vec::from_slice(alloc, classes)?;
        Ok(ClassList { classes })
    }

    /// The list of these classes. It takes no memory.
    pub fn from_vec(classes: Vec<Class>) -> ClassList
        ensures { result ≡ classes.items }
    {
        ClassList { classes }
    }

    /// The classes. It takes no memory.
    pub fn as_slice(&self) -> &[Class]
        ensures { result.now ≡ self.now }
    {
        &self.classes
    }
}
