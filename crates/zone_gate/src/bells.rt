//! Where threads sleep that wait for their turn.
ghost use Rattle.std.specs.Prelude.{◌≡◌, ◌<◌, vec_len};

use az_base::NoMemory;
use std::alloc::Global;
use std::sync::Wait;
use std::sync::atomic::{AtomicU64, Ordering};

/// A bell for each thread of a gate. Tickets that are out at one time have bells of their own, so the end of a turn wakes
/// the thread with the next ticket, and no other. A bell is rung once for each turn of its tickets.
#[derive(Drop)]
pub(crate) struct Bells {
    bells: Vec<AtomicU64>,
    ghost some: { 0 < vec_len bells },
}

impl Bells {
    /// So many bells, none of which was rung.
    pub(crate) fn hang(alloc: Global, count: usize) -> Result<Bells, NoMemory>
        requires { 0 < count }
    {
        let mut bells = Vec::new(alloc);
        for _n in 0..count {
            let Ok(()) = bells.push(AtomicU64::new(0)) else {
                return Err(NoMemory);
            };
        }
        Ok(Bells { bells })
    }

    fn of(&self, ticket: u64) -> &AtomicU64 {
        let count = self.bells.len() as u64;
        &self.bells[(ticket % count) as usize]
    }

    /// How often the ticket's bell was rung.
    pub(crate) fn rung(&self, ticket: u64) -> u64 {
        self.of(ticket).load(Ordering::SeqCst)
    }

    /// Sleeps until the ticket's bell rings, unless it has since it was read. It may also return for no reason.
    pub(crate) fn sleep<R: Wait>(&self, rt: &R, ticket: u64, rung: u64) {
        self.of(ticket).park(rt, (rung & 0xffff_ffff) as u32);
    }

    pub(crate) fn ring(&self, ticket: u64) {
        let bell = self.of(ticket);
        bell.fetch_add(1, Ordering::SeqCst);
        bell.wake_all();
    }
}
