//! What a thread asks of a zone.
use crate::lists::ActionList;
use az_base::{BlockId, Key, Mode, NoMemory, Reg, RootNo, WeakNo};
use block_layouts::Layout;
use std::alloc::Global;

/// A weak location as a call names it: a weak root, or the Weak word at a place of the block in a register.
#[derive(Clone, Copy, Debug, PartialEq, Eq)]
pub enum Loc {
    Root(WeakNo),
    Word(Reg, u32),
}

/// A call. `Begin` to `Reclaim` are the steps of a collection, and `Leave` is the end of a thread; they have no word in
/// scripts. A place `at` counts the words of a block from 0.
#[derive(Debug, Drop)]
pub enum Call {
    /// A new block, which the register then holds. An object may have finaliser actions.
    New {
        to: Reg,
        layout: Layout,
        actions: ActionList,
    },
    /// The register gets the reference in a Strong word.
    Load {
        to: Reg,
        from: Reg,
        at: u32,
    },
    /// A Strong word gets the reference in a register.
    Store {
        into: Reg,
        at: u32,
        from: Reg,
    },
    /// A Plain word gets a number.
    Put {
        into: Reg,
        at: u32,
        number: u64,
    },
    /// The number in a Plain word.
    Get {
        from: Reg,
        at: u32,
    },
    Copy {
        to: Reg,
        from: Reg,
    },
    DropReg {
        reg: Reg,
    },
    /// Reclaims the thread's own blocks that nothing reaches.
    CollectLocal,
    SetRoot {
        root: RootNo,
        from: Reg,
    },
    GetRoot {
        to: Reg,
        root: RootNo,
    },
    /// The external retain count rises by one.
    Retain {
        reg: Reg,
    },
    /// The external retain count falls by one.
    Release {
        reg: Reg,
    },
    Count {
        reg: Reg,
    },
    /// The register gets a block that has a positive count.
    Take {
        to: Reg,
        id: BlockId,
    },
    SetAssoc {
        object: Reg,
        key: Key,
        value: Reg,
    },
    GetAssoc {
        to: Reg,
        object: Reg,
        key: Key,
    },
    SetWeak {
        loc: Loc,
        from: Reg,
    },
    ReadWeak {
        to: Reg,
        loc: Loc,
    },
    Stats,
    Begin {
        mode: Mode,
    },
    Condemn,
    Finalise,
    Reclaim,
    Leave,
}

impl Call {
    ghost use Rattle.std.specs.Prelude.{◌≡◌, IfOk};

    /// An equal call. It takes memory for the classes of a new object alone. O(words of a new object).
    pub fn try_copy(&self, alloc: Global) -> Result<Call, NoMemory>
        ensures { IfOk result (λ call. call ≡ self.now) }
    {
        match self {
            Call::New {
                to,
                layout,
                actions,
            } => {
                let layout = layout.try_copy(alloc)?;
                Ok(Call::New {
                    to: *to,
                    layout,
                    actions: actions.copy(),
                })
            }
            Call::Load { to, from, at } => Ok(Call::Load {
                to: *to,
                from: *from,
                at: *at,
            }),
            Call::Store { into, at, from } => Ok(Call::Store {
                into: *into,
                at: *at,
                from: *from,
            }),
            Call::Put { into, at, number } => Ok(Call::Put {
                into: *into,
                at: *at,
                number: *number,
            }),
            Call::Get { from, at } => Ok(Call::Get {
                from: *from,
                at: *at,
            }),
            Call::Copy { to, from } => Ok(Call::Copy {
                to: *to,
                from: *from,
            }),
            Call::DropReg { reg } => Ok(Call::DropReg { reg: *reg }),
            Call::CollectLocal => Ok(Call::CollectLocal),
            Call::SetRoot { root, from } => Ok(Call::SetRoot {
                root: *root,
                from: *from,
            }),
            Call::GetRoot { to, root } => Ok(Call::GetRoot {
                to: *to,
                root: *root,
            }),
            Call::Retain { reg } => Ok(Call::Retain { reg: *reg }),
            Call::Release { reg } => Ok(Call::Release { reg: *reg }),
            Call::Count { reg } => Ok(Call::Count { reg: *reg }),
            Call::Take { to, id } => Ok(Call::Take { to: *to, id: *id }),
            Call::SetAssoc { object, key, value } => Ok(Call::SetAssoc {
                object: *object,
                key: *key,
                value: *value,
            }),
            Call::GetAssoc { to, object, key } => Ok(Call::GetAssoc {
                to: *to,
                object: *object,
                key: *key,
            }),
            Call::SetWeak { loc, from } => Ok(Call::SetWeak {
                loc: *loc,
                from: *from,
            }),
            Call::ReadWeak { to, loc } => Ok(Call::ReadWeak { to: *to, loc: *loc }),
            Call::Stats => Ok(Call::Stats),
            Call::Begin { mode } => Ok(Call::Begin { mode: *mode }),
            Call::Condemn => Ok(Call::Condemn),
            Call::Finalise => Ok(Call::Finalise),
            Call::Reclaim => Ok(Call::Reclaim),
            Call::Leave => Ok(Call::Leave),
        }
    }
}
