//! The line that a number says.
ghost use Rattle.std.specs.Prelude.{◌≡◌, ◌<◌, ◌≤◌, IfOk};
ghost use Rattle.soak_script.specs.Generated.{new_object, collection_by, call_by, act_by, line_by};

use crate::generator::{bits_at, low_two};
use az_base::{Class, Key, Mode, NoMemory, Reg, RootNo, ThreadNo, WeakNo};
use block_layouts::{Layout, LayoutErr};
use heap_script::{Act, Line};
use std::alloc::Global;
use zone_model::{ActionList, Call, Loc};

fn reg(n: u32) -> Reg
    requires { n < 4 }
    ensures { result ≡ n }
{
    Reg::new(n).unwrap()
}

fn new_object(alloc: Global, to: Reg) -> Result<Call, NoMemory>
    ensures { IfOk result (λ call. call ≡ new_object to) }
{
    let classes = [Class::Strong, Class::Strong, Class::Weak, Class::Plain];
    let layout = match Layout::object(alloc, classes.as_slice()) {
        Ok(layout) => layout,
        Err(_) => return Err(NoMemory),
    };
    Ok(Call::New {
        to,
        layout,
        actions: ActionList::new(),
    })
}

fn collection(c: u32) -> Act
    ensures { result ≡ collection_by c }
{
    match c {
        0 => Act::Call(Call::CollectLocal),
        1 => Act::Collect(Mode::Young),
        2 => Act::Collect(Mode::Full),
        _ => Act::Call(Call::Stats),
    }
}

/// The call that a number below 15 chooses, over registers a and b, and c as a root, a weak root, a key or a place.
fn call(alloc: Global, choice: u32, a: Reg, b: Reg, c: u8) -> Result<Call, NoMemory>
    ensures { IfOk result (λ call. call ≡ call_by choice a b c) }
{
    match choice {
        0..=3 => new_object(alloc, a),
        4 | 5 => Ok(Call::Store {
            into: a,
            at: u32::from(c % 2),
            from: b,
        }),
        6 => Ok(Call::Load {
            to: a,
            from: b,
            at: u32::from(c % 2),
        }),
        7 => Ok(Call::SetRoot {
            root: RootNo(c),
            from: a,
        }),
        8 => Ok(Call::GetRoot {
            to: a,
            root: RootNo(c),
        }),
        9 => Ok(Call::DropReg { reg: a }),
        10 => Ok(Call::Copy { to: a, from: b }),
        11 => Ok(Call::SetWeak {
            loc: Loc::Root(WeakNo(c)),
            from: a,
        }),
        12 => Ok(Call::ReadWeak {
            to: a,
            loc: Loc::Root(WeakNo(c)),
        }),
        13 => Ok(Call::SetAssoc {
            object: a,
            key: Key(c),
            value: b,
        }),
        _ if c < 2 => Ok(Call::Retain { reg: a }),
        _ => Ok(Call::Release { reg: a }),
    }
}

fn act(alloc: Global, choice: u32, a: Reg, b: Reg, c: u8) -> Result<Act, NoMemory>
    ensures { IfOk result (λ act. act ≡ act_by choice a b c) }
{
    if choice == 15 {
        return Ok(collection(u32::from(c)));
    }
    let call = call(alloc, choice, a, b, c)?;
    Ok(Act::Call(call))
}

/// The line that a number says.
#[tactic(auto, unfolding(crate::specs::Generated::line_by))]
pub fn line(alloc: Global, x: u64) -> Result<Line, NoMemory>
    ensures { IfOk result (λ line. line ≡ line_by x) }
{
    let thread = ThreadNo::new(1 + low_two(60, x)).unwrap();
    let a = reg(low_two(48, x));
    let b = reg(low_two(44, x));
    let c = low_two(40, x) as u8;
    let act = act(alloc, bits_at(52, x), a, b, c)?;
    Ok(Line { thread, act })
}
