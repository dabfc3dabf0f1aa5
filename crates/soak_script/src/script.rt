//! The generated script.
ghost use Rattle.std.specs.Prelude.{◌≡◌, IfOk};
ghost use Rattle.soak_script.specs.Generated.{soak_script};

use crate::generator::next_number;
use crate::lines::line;
use az_base::{NoMemory, Options};
use heap_script::{LineList, Script};
use std::alloc::Global;

/// The generated script of so many calls: usual options, and a line for each number that comes after the start. The
/// same start and number of calls give the same script. NoMemory alone may come in its place. O(calls).
pub fn soak_script(alloc: Global, start: u64, calls: u32) -> Result<Script, NoMemory>
    ensures { IfOk result (λ script. script ≡ soak_script start calls) }
{
    let mut lines = Vec::new(alloc);
    let mut x = start;
    for i in 0..calls {
        x = next_number(x);
        let line = line(alloc, x)?;
        lines.push(line)?;
    }
    Ok(Script {
        options: Options::usual(),
        lines: LineList::from_vec(lines),
    })
}
