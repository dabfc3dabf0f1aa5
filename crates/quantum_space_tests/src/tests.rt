use az_base::{BlockId, ThreadNo, Word};
use block_layouts::Layout;
use quantum_space::{Admin, PlacedWord, Region, Shade};
use std::alloc::Global;
use std::test::*;

/// Subzones of 4,096 quanta of 2 words.
fn small(alloc: Global) -> Region {
    Region::new(alloc, 4096, 2)
}

/// Subzones of 256 quanta of 128 words.
fn medium(alloc: Global) -> Region {
    Region::new(alloc, 256, 128)
}

/// The id of the first thread's block with this serial.
fn id(serial: u32) -> Option<BlockId> {
    let thread = ThreadNo::new(1)?;
    Some(BlockId { thread, serial })
}

/// Where a block of so many words comes to lie. Its serial is that number.
fn place(region: &mut Region, words: u32) -> Option<(usize, usize)> {
    let id = id(words)?;
    let Ok(layout) = Layout::scanned(words) else {
        return None;
    };
    let quanta = region.quanta(&layout);
    if quanta > 32 {
        return None;
    }
    match region.reserve(quanta) {
        Ok(()) => Some(region.place(id, layout)),
        Err(_) => None,
    }
}

/// Whether blocks of these lengths come to lie at these quanta of the first subzone, in this order.
fn are_placed(region: &mut Region, rows: &[(u32, usize)]) -> bool {
    for row in rows {
        if place(region, row.0) != Some((0, row.1)) {
            return false;
        }
    }
    true
}

/// Frees the block at a quantum of the first subzone, and says whether there was one.
fn free(region: &mut Region, quantum: usize) -> bool {
    if region.has_block(0, quantum) {
        region.free(quantum);
        true
    } else {
        false
    }
}

/// Whether the first subzone's bytes begin so.
fn begins(region: &Region, bytes: &[u8]) -> bool {
    for (quantum, byte) in bytes.iter().enumerate() {
        if region.admin_byte(0, quantum) != Some(*byte) {
            return false;
        }
    }
    true
}

#[test]
fn short_blocks_and_their_bytes(rt: HostRuntime) {
    let mut region = small(rt.alloc());
    let right = are_placed(&mut region, &[(2, 0), (0, 1)])
        && begins(&region, &[0x80, 0x80, 0])
        && free(&mut region, 0)
        && are_placed(&mut region, &[(3, 2)])
        && begins(&region, &[0, 0x80, 0x80, 0x83, 0]);
    assert!(rt; right);
}

#[test]
fn medium_blocks(rt: HostRuntime) {
    let mut region = medium(rt.alloc());
    let right = are_placed(&mut region, &[(65, 0), (4096, 1), (129, 33)])
        && begins(&region, &[0x80, 0x80, 0x83]);
    assert!(rt; right);
}

#[test]
fn a_hole_a_quantum_too_short(rt: HostRuntime) {
    let mut region = small(rt.alloc());
    let right = are_placed(&mut region, &[(64, 0), (64, 32)])
        && free(&mut region, 0)
        && are_placed(&mut region, &[(2, 0), (63, 64), (62, 1)]);
    assert!(rt; right);
}

#[test]
fn the_first_of_two_neighbours_is_freed(rt: HostRuntime) {
    let mut region = small(rt.alloc());
    let right = are_placed(&mut region, &[(8, 0), (8, 4), (8, 8)])
        && free(&mut region, 4)
        && !free(&mut region, 5)
        && are_placed(&mut region, &[(10, 12), (8, 4)]);
    assert!(rt; right);
}

/// Fills the first subzone with blocks of 32 quanta but for its last quantum, and says where the next two come to lie.
fn fill(region: &mut Region) -> Option<((usize, usize), (usize, usize))> {
    for _ in 0..127 {
        place(region, 64)?;
    }
    place(region, 62)?;
    Some((place(region, 2)?, place(region, 2)?))
}

#[test]
fn the_next_subzone_is_opened(rt: HostRuntime) {
    let mut region = small(rt.alloc());
    assert!(rt;
        fill(&mut region) == Some(((0, 4095), (1, 0))) && region.admin_byte(2, 0).is_none()
    );
}

/// Whether a block's words are null at first, and then what was written.
fn words_are_kept(region: &mut Region) -> bool {
    if place(region, 3) != Some((0, 0)) || !region.has_word(0, 2) {
        return false;
    }
    let was_null = region.word(0, 2).word() == Word::Null;
    if region.has_word(0, 2) {
        region.set_word(0, 2, PlacedWord::of(Word::Number(7)));
    }
    was_null && region.has_word(0, 2) && region.word(0, 2).word() == Word::Number(7)
}

#[test]
fn words(rt: HostRuntime) {
    let mut region = small(rt.alloc());
    assert!(rt; words_are_kept(&mut region));
}

#[test]
fn admin_bytes(rt: HostRuntime) {
    let young = Admin {
        shade: Shade::White,
        age: 0,
        card: false,
        finalised: false,
    };
    let old = Admin {
        shade: Shade::Black,
        age: 3,
        card: true,
        finalised: true,
    };
    let grey = Admin {
        shade: Shade::Grey,
        age: 1,
        card: false,
        finalised: true,
    };
    let right = young.to_byte() == 0x80
        && old.to_byte() == 0xee
        && grey.to_byte() == 0xc5
        && Admin::from_byte(0xee) == old
        && Admin::from_byte(0xc5) == grey;
    assert!(rt; right);
}

/// Notes a byte of the block at a quantum of the first subzone, where there is one.
fn note(region: &mut Region, quantum: usize, admin: Admin) {
    if admin.age <= 3 && region.begins_at(quantum) {
        let byte = admin.to_byte();
        region.set_byte(quantum, byte);
    }
}

#[test]
fn walks_over_all_bytes(rt: HostRuntime) {
    let mut region = small(rt.alloc());
    let noted = Admin {
        shade: Shade::Black,
        age: 2,
        card: true,
        finalised: true,
    };
    let placed = are_placed(&mut region, &[(4, 0), (2, 2)]);
    note(&mut region, 0, noted);
    let before = begins(&region, &[0xea, 0x83, 0x80, 0]);
    region.whiten();
    let white = begins(&region, &[0xe8, 0x83, 0x80, 0]);
    region.age();
    let older = begins(&region, &[0xec, 0x83, 0x84, 0]);
    region.age();
    assert!(rt; placed && before && white && older && begins(&region, &[0xec, 0x83, 0x88, 0]));
}

#[test]
fn ids(rt: HostRuntime) {
    let mut region = small(rt.alloc());
    let right = are_placed(&mut region, &[(4, 0), (2, 2)])
        && region.begins_at(2)
        && Some(region.id(2)) == id(2)
        && !region.begins_at(1)
        && free(&mut region, 0)
        && are_placed(&mut region, &[(3, 0)])
        && region.begins_at(0)
        && Some(region.id(0)) == id(3);
    assert!(rt; right);
}
