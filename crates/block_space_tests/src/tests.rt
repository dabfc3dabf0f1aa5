use az_base::{BlockId, ThreadNo, Word};
use block_layouts::Layout;
use block_space::Space;
use quantum_space::{Admin, Place, Shade};
use std::alloc::Global;
use std::test::*;

/// Reserves blocks of these lengths, places them as scanned memory, and says whether each came to lie at its place.
fn are_placed(space: &mut Space, lengths: &[u32], places: &[(u32, u32)]) -> bool {
    if !space.may_reserve(lengths) || space.reserve(lengths).is_err() {
        return false;
    }
    for row in places.iter().enumerate() {
        let Some(words) = lengths.get(row.0) else {
            return false;
        };
        if place(space, *words) != Some(*row.1) {
            return false;
        }
    }
    lengths.len() == places.len()
}

/// The id of the first thread's block with this serial.
fn id(serial: u32) -> Option<BlockId> {
    let thread = ThreadNo::new(1)?;
    Some(BlockId { thread, serial })
}

/// Places a block of scanned memory, where its length is the first of those that are to come. Its serial is that length.
fn place(space: &mut Space, words: u32) -> Option<(u32, u32)> {
    let id = id(words)?;
    let Ok(layout) = Layout::scanned(words) else {
        return None;
    };
    if space.next_length() == Some(words) {
        let place = space.place(id, layout);
        Some((place.subzone, place.quantum))
    } else {
        None
    }
}

/// Frees the block at a place, and says whether there was one.
fn free(space: &mut Space, subzone: u32, quantum: u32) -> bool {
    let place = Place { subzone, quantum };
    if space.has_block(place) && space.knows_no_place() {
        space.free(place);
        true
    } else {
        false
    }
}

/// Whether a subzone has so many quanta, and its bytes begin so.
fn begins(space: &Space, subzone: u32, quanta: usize, bytes: &[u8]) -> bool {
    match space.subzone_map(subzone) {
        Some(map) => map.len() == quanta && map.starts_with(bytes),
        None => false,
    }
}

#[test]
fn blocks_of_both_kinds(rt: HostRuntime) {
    let mut space = Space::new(rt.alloc());
    let right = are_placed(&mut space, &[2, 0, 65], &[(0, 0), (0, 1), (1, 0)])
        && begins(&space, 0, 4096, &[0x80, 0x80, 0])
        && begins(&space, 1, 256, &[0x80, 0])
        && space.used() == 66
        && free(&mut space, 0, 0)
        && are_placed(&mut space, &[3], &[(0, 2)])
        && begins(&space, 0, 4096, &[0, 0x80, 0x80, 0x83]);
    assert!(rt; right);
}

#[test]
fn a_hole_a_quantum_too_short(rt: HostRuntime) {
    let mut space = Space::new(rt.alloc());
    let right = are_placed(&mut space, &[64, 64], &[(0, 0), (0, 32)])
        && free(&mut space, 0, 0)
        && are_placed(&mut space, &[2, 63], &[(0, 0), (0, 64)])
        && space.used() == 65;
    assert!(rt; right);
}

#[test]
fn a_hole_that_fits(rt: HostRuntime) {
    let mut space = Space::new(rt.alloc());
    let right = are_placed(&mut space, &[8, 10, 8], &[(0, 0), (0, 4), (0, 9)])
        && free(&mut space, 0, 4)
        && !free(&mut space, 0, 5)
        && are_placed(&mut space, &[12, 10], &[(0, 13), (0, 4)])
        && begins(
            &space,
            0,
            4096,
            &[0x80, 0x83, 0x83, 0x83, 0x80, 0x83, 0x83, 0x83, 0x83, 0x80],
        );
    assert!(rt; right);
}

#[test]
fn the_first_of_two_neighbours_is_freed(rt: HostRuntime) {
    let mut space = Space::new(rt.alloc());
    let right = are_placed(&mut space, &[4, 4], &[(0, 0), (0, 2)])
        && free(&mut space, 0, 0)
        && begins(&space, 0, 4096, &[0, 0, 0x80, 0x83, 0])
        && space.used() == 2
        && are_placed(&mut space, &[4, 4], &[(0, 0), (0, 4)]);
    assert!(rt; right);
}

#[test]
fn short_and_long_blocks(rt: HostRuntime) {
    let mut space = Space::new(rt.alloc());
    let right = are_placed(
        &mut space,
        &[0, 64, 65, 4096],
        &[(0, 0), (0, 1), (1, 0), (1, 1)],
    ) && space.used() == 1 + 32 + 64 + 2048
        && begins(&space, 1, 256, &[0x80, 0x80, 0x83])
        && are_placed(&mut space, &[2], &[(0, 33)]);
    assert!(rt; right);
}

/// Fills the first subzone with blocks of 32 quanta but for its last quantum, and says whether the next two blocks come
/// to lie there and at the beginning of the next subzone.
fn fills(space: &mut Space) -> bool {
    for block in 0..127 {
        if !are_placed(space, &[64], &[(0, 32 * block)]) {
            return false;
        }
    }
    are_placed(space, &[62, 2], &[(0, 4064), (0, 4095)]) && are_placed(space, &[2], &[(1, 0)])
}

#[test]
fn the_next_subzone_is_opened(rt: HostRuntime) {
    let mut space = Space::new(rt.alloc());
    let right = fills(&mut space)
        && begins(&space, 1, 4096, &[0x80, 0])
        && space.subzone_map(2).is_none()
        && space.used() == 4097;
    assert!(rt; right);
}

/// Whether a block's words are null at first, and then what was written.
fn keeps_words(space: &mut Space, place: Place) -> bool {
    if !space.has_word(place, 2) {
        return false;
    }
    let was_null = space.get(place, 2) == Word::Null;
    if space.has_word(place, 2) {
        space.set(place, 2, Word::Number(7));
    }
    was_null && space.has_word(place, 2) && space.get(place, 2) == Word::Number(7)
}

#[test]
fn words_are_kept(rt: HostRuntime) {
    let mut space = Space::new(rt.alloc());
    let place = Place {
        subzone: 0,
        quantum: 1,
    };
    let right = are_placed(&mut space, &[2, 3], &[(0, 0), (0, 1)])
        && keeps_words(&mut space, place)
        && !space.has_word(place, 3);
    assert!(rt; right);
}

/// Notes all that there is to note of a block, one thing after another.
fn note(space: &mut Space, place: Place) {
    if space.has_block(place) {
        space.set_mark(place, Shade::Black);
    }
    if space.has_block(place) {
        space.set_age(place, 3);
    }
    if space.has_block(place) {
        space.set_card(place, true);
    }
    if space.has_block(place) {
        space.set_finalised(place);
    }
}

/// What is noted of a block that is there.
fn admin(space: &Space, place: Place) -> Option<Admin> {
    if space.has_block(place) {
        Some(space.admin(place))
    } else {
        None
    }
}

#[test]
fn admin_bytes(rt: HostRuntime) {
    let mut space = Space::new(rt.alloc());
    let place = Place {
        subzone: 0,
        quantum: 0,
    };
    let noted = Admin {
        shade: Shade::Black,
        age: 3,
        card: true,
        finalised: true,
    };
    let placed = are_placed(&mut space, &[4], &[(0, 0)]);
    note(&mut space, place);
    let right = placed
        && begins(&space, 0, 4096, &[0xee, 0x83, 0])
        && admin(&space, place) == Some(noted);
    assert!(rt; right);
}

/// Whether the blocks at these places have these serials.
fn have_serials(space: &Space, rows: &[(u32, u32, u32)]) -> bool {
    for row in rows {
        let place = Place {
            subzone: row.0,
            quantum: row.1,
        };
        if !space.has_block(place) {
            return false;
        }
        if Some(space.id(place)) != id(row.2) {
            return false;
        }
    }
    true
}

#[test]
fn ids_lie_beside_the_bytes(rt: HostRuntime) {
    let mut space = Space::new(rt.alloc());
    let right = are_placed(&mut space, &[4, 65, 2], &[(0, 0), (1, 0), (0, 2)])
        && have_serials(&space, &[(0, 0, 4), (1, 0, 65), (0, 2, 2)])
        && free(&mut space, 0, 0)
        && are_placed(&mut space, &[3], &[(0, 0)])
        && have_serials(&space, &[(0, 0, 3), (1, 0, 65), (0, 2, 2)]);
    assert!(rt; right);
}

#[test]
fn all_blocks_are_whitened_and_aged(rt: HostRuntime) {
    let mut space = Space::new(rt.alloc());
    let place = Place {
        subzone: 1,
        quantum: 0,
    };
    let placed = are_placed(&mut space, &[4, 129], &[(0, 0), (1, 0)]);
    note(&mut space, place);
    let noted = begins(&space, 1, 256, &[0xee, 0x83, 0]);
    space.whiten_all();
    let white = begins(&space, 1, 256, &[0xec, 0x83, 0]);
    space.age_all();
    space.age_all();
    let old = begins(&space, 1, 256, &[0xec, 0x83, 0]);
    assert!(rt; placed && noted && white && old && begins(&space, 0, 4096, &[0x88, 0x83, 0]));
}

/// A place.
fn at(subzone: u32, quantum: u32) -> Place {
    Place { subzone, quantum }
}

#[test]
fn a_list_of_blocks_is_freed(rt: HostRuntime) {
    let mut space = Space::new(rt.alloc());
    let lengths = [2, 4, 65, 200, 2];
    let placed = are_placed(
        &mut space,
        &lengths,
        &[(0, 0), (0, 1), (1, 0), (1, 1), (0, 3)],
    );
    let free = space.knows_no_place();
    if free {
        space.free_all(&[at(1, 1), at(0, 0), at(0, 2), at(7, 0), at(0, 3), at(0, 0)]);
    }
    assert!(rt;
        placed
            && free
            && begins(&space, 0, 4096, &[0, 0x80, 0x83, 0, 0])
            && begins(&space, 1, 256, &[0x80, 0, 0, 0])
            && space.used() == 66
            && have_serials(&space, &[(0, 1, 4), (1, 0, 65)])
    );
}

/// Makes the first word of a block refer to another block, and says where the space knows that this lies.
fn refer(space: &mut Space, from: Place, to: Place) -> Option<(Word, Place)> {
    if space.has_word(from, 0) && space.has_block(to) {
        space.refer(from, 0, to);
    }
    if space.has_word(from, 0) {
        Some((space.get(from, 0), space.referent(from, 0)?))
    } else {
        None
    }
}

/// Whether the first word of a block tells nothing of a place once it was set.
fn forgets(space: &mut Space, place: Place, word: Word) -> bool {
    if space.has_word(place, 0) {
        space.set(place, 0, word);
    }
    space.has_word(place, 0) && space.get(place, 0) == word && space.referent(place, 0).is_none()
}

/// A reference to the first thread's block with this serial.
fn reference(serial: u32) -> Word {
    match id(serial) {
        Some(id) => Word::Block(id),
        None => Word::Null,
    }
}

#[test]
fn words_know_where_their_blocks_lie(rt: HostRuntime) {
    let mut space = Space::new(rt.alloc());
    let right = are_placed(&mut space, &[4, 65, 2], &[(0, 0), (1, 0), (0, 2)])
        && space.knows_no_place()
        && refer(&mut space, at(0, 0), at(1, 0)) == Some((reference(65), at(1, 0)))
        && refer(&mut space, at(1, 0), at(0, 2)) == Some((reference(2), at(0, 2)))
        && !space.knows_no_place()
        && forgets(&mut space, at(0, 0), reference(2))
        && forgets(&mut space, at(1, 0), Word::Number(7))
        && space.knows_no_place();
    assert!(rt; right);
}

#[test]
fn nothing_is_to_come_after_unreserve(rt: HostRuntime) {
    let mut space = Space::new(rt.alloc());
    let reserved = space.may_reserve(&[2, 3])
        && space.reserve(&[2, 3]).is_ok()
        && space.next_length() == Some(2)
        && !space.may_reserve(&[4097]);
    space.unreserve();
    let right = reserved
        && space.next_length().is_none()
        && are_placed(&mut space, &[64], &[(0, 0)]);
    assert!(rt; right);
}

/// Whether the bytes of a subzone are these, each so often, one after another to its end.
fn is_map(space: &Space, subzone: u32, runs: &[(usize, u8)]) -> bool {
    let Some(map) = space.subzone_map(subzone) else {
        return false;
    };
    let mut at: usize = 0;
    for run in runs {
        for _ in 0..run.0 {
            if map.get(at) != Some(&run.1) {
                return false;
            }
            at = at.wrapping_add(1);
        }
    }
    at == map.len()
}

/// Blocks of all lengths come to lie in holes of all kinds: one that fits, one that is a quantum too short, and the last of
/// a subzone.
fn come_and_go(space: &mut Space) -> bool {
    are_placed(space, &[2, 0, 65, 3], &[(0, 0), (0, 1), (1, 0), (0, 2)])
        && free(space, 0, 0)
        && are_placed(space, &[2, 64, 64], &[(0, 0), (0, 4), (0, 36)])
        && free(space, 0, 4)
        && are_placed(space, &[62, 64], &[(0, 4), (0, 68)])
        && are_placed(space, &[4096, 4096, 4096], &[(1, 1), (1, 33), (1, 65)])
        && are_placed(space, &[4096, 4096, 4096], &[(1, 97), (1, 129), (1, 161)])
        && are_placed(space, &[4096, 3968, 65], &[(1, 193), (1, 225), (2, 0)])
        && free(space, 1, 0)
}

#[test]
fn the_maps_after_all_of_it(rt: HostRuntime) {
    let mut space = Space::new(rt.alloc());
    let right = come_and_go(&mut space);
    note(&mut space, at(0, 1));
    note(&mut space, at(1, 225));
    space.whiten_all();
    let small = [
        (1, 0x80),
        (1, 0xec),
        (1, 0x80),
        (1, 0x83),
        (1, 0x80),
        (30, 0x83),
        (1, 0),
        (1, 0x80),
        (31, 0x83),
        (1, 0x80),
        (31, 0x83),
        (3996, 0),
    ];
    let medium = [
        (1, 0),
        (1, 0x80),
        (31, 0x83),
        (1, 0x80),
        (31, 0x83),
        (1, 0x80),
        (31, 0x83),
        (1, 0x80),
        (31, 0x83),
        (1, 0x80),
        (31, 0x83),
        (1, 0x80),
        (31, 0x83),
        (1, 0x80),
        (31, 0x83),
        (1, 0xec),
        (30, 0x83),
    ];
    let maps = is_map(&space, 0, &small)
        && is_map(&space, 1, &medium)
        && is_map(&space, 2, &[(1, 0x80), (255, 0)]);
    assert!(rt; right && maps && space.used() == 99 + 16384);
}
