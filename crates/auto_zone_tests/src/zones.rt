//! Zones of one and of two threads, from their sessions to their end.
ghost use Rattle.std.specs.Prelude.{IfSome, All};
ghost use Rattle.zone_gate.specs.Shown.{IsSeatOf};

use auto_zone::{Closed, Ended, Session, Zone};
use az_base::{Options, ThreadNo};
use std::alloc::Global;

/// A zone of thread 1, and its session; None where memory runs out.
pub fn zone_of_one(alloc: Global) -> Option<(Zone, Session)>
    ensures { IfSome result (λ r. IsSeatOf r.0 r.1.seat) }
{
    let threads = [ThreadNo::new(1)?];
    let Ok((zone, mut sessions)) = Zone::create(alloc, Options::usual(), &threads) else {
        return None;
    };
    let one = sessions.pop()?;
    Some((zone, one))
}

/// A zone of the threads 1 and 2, and their sessions; None where memory runs out.
pub fn zone_of_two(alloc: Global) -> Option<(Zone, Session, Session)>
    ensures { IfSome result (λ r. IsSeatOf r.0 r.1.seat × IsSeatOf r.0 r.2.seat) }
{
    let threads = [ThreadNo::new(1)?, ThreadNo::new(2)?];
    let Ok((zone, mut sessions)) = Zone::create(alloc, Options::usual(), &threads) else {
        return None;
    };
    let two = sessions.pop()?;
    let one = sessions.pop()?;
    Some((zone, one, two))
}

/// What is left of the zone; None where a thread hasn't ended, or memory runs out.
pub fn closed(alloc: Global, zone: Zone, ended: Vec<Ended>) -> Option<Closed>
    requires { All (λ s. IsSeatOf zone s) ended.items }
{
    if zone.all_in(&ended) {
        match zone.close(alloc, ended) {
            Ok(closed) => Some(closed),
            Err(_) => None,
        }
    } else {
        None
    }
}

/// What is left of the zone of these two.
pub fn closed_by_two(alloc: Global, zone: Zone, one: Ended, two: Ended) -> Option<Closed>
    requires { IsSeatOf zone one × IsSeatOf zone two }
{
    match vec![in alloc; one, two] {
        Ok(ended) => closed(alloc, zone, ended),
        Err(_) => None,
    }
}
