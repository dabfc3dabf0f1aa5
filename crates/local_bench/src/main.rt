//! Makes many calls on one local set, so that their time can be measured from outside.
//!
//! Each line of standard input has three numbers: how many blocks to chain, how many local collections to make then, and
//! how many stores. A line of the output says how many calls were made, and how many blocks are left.
#![tactic(auto)]

ghost use Rattle.std.specs.Prelude.{◌≡◌, false};

use anyhow::Result;
use az_base::{Options, Reg, ThreadNo};
use block_layouts::Layout;
use local_set::Local;
use std::alloc::Global;

/// The entry of a call is published at once; one more call if it was made.
fn publish(local: &mut Local, made: bool) -> u64
    ensures { local.new.ended ≡ local.old.ended }
{
    local.mark_published();
    match local.pop_pending() {
        Some(_) if made => 1,
        _ => 0,
    }
}

/// One more block, which refers to the one in `head` and takes its place there.
fn extend(alloc: Global, local: &mut Local, head: Reg, next: Reg) -> u64
    requires { local.old.ended ≡ false }
    ensures { local.new.ended ≡ false }
{
    let Ok(layout) = Layout::scanned(1) else {
        return 0;
    };
    let born = local.new_block(alloc, next, layout).is_ok();
    let mut made = publish(local, born);
    let stored = local.store(next, 0, head).is_ok();
    made = made.wrapping_add(publish(local, stored));
    let copied = local.copy(head, next).is_ok();
    made.wrapping_add(publish(local, copied))
}

/// A chain of blocks, so many collections, and so many stores into its last block.
fn work(alloc: Global, local: &mut Local, head: Reg, next: Reg, counts: &[u32; 3]) -> u64
    requires { local.old.ended ≡ false }
    ensures { local.new.ended ≡ false }
{
    let mut made = 0u64;
    for _ in 0..counts[0] {
        made = made.wrapping_add(extend(alloc, local, head, next));
    }
    for _ in 0..counts[1] {
        let collected = local.collect_local(alloc).is_ok();
        made = made.wrapping_add(publish(local, collected));
    }
    for _ in 0..counts[2] {
        let stored = local.store(head, 0, next).is_ok();
        made = made.wrapping_add(publish(local, stored));
    }
    made
}

/// The numbers of a line; 0 where one is missing.
fn numbers(line: &str) -> [u32; 3] {
    let mut counts = [0; 3];
    for (at, word) in line.split(' ').take(3).enumerate() {
        if let (Some(count), Ok(number)) = (counts.get_mut(at), word.parse::<u32>()) {
            *count = number;
        }
    }
    counts
}

/// What the calls of one line made, and what is left of them.
fn play(alloc: Global, thread: ThreadNo, head: Reg, next: Reg, counts: &[u32; 3]) -> (u64, u32) {
    let mut local = Local::new(alloc, thread, Options::usual());
    let made = work(alloc, &mut local, head, next, counts);
    (made, local.own_quanta())
}

fn main(rt: HostRuntime) -> Result<()> {
    for line in rt.lines(rt.alloc()) {
        let counts = numbers(line?.as_str());
        if let (Some(thread), Some(head), Some(next)) = (
            ThreadNo::new(1),
            Reg::new(0),
            Reg::new(1),
        ) {
            let (made, left) = play(rt.alloc(), thread, head, next, &counts);
            println!(rt; "calls {made} quanta {left}")?;
        }
    }
    Ok(())
}
