//! Layouts of letters, their sizes and their limits.
use super::*;
use az_base::{Class, Word};
use std::alloc::Global;
use std::test::*;

/// Whether the layout has a Strong, a Weak and a Plain word.
fn is_tree(tree: &Layout) -> bool {
    tree.len() == 3
        && tree.kind_number() == 2
        && tree.quanta() == 2
        && tree.strong_after(0) == Some(0)
        && tree.strong_after(1) == None
        && tree.class_at(0) == Some(Class::Strong)
        && tree.class_at(1) == Some(Class::Weak)
        && tree.class_at(2) == Some(Class::Plain)
        && tree.class_at(3) == None
}

fn is_copied(alloc: Global, tree: &Layout) -> bool {
    match tree.try_copy(alloc) {
        Ok(copy) => is_tree(&copy),
        Err(_) => false,
    }
}

fn begins_null(alloc: Global, tree: &Layout) -> bool {
    match tree.first_words(alloc) {
        Ok(words) => words.as_slice() == [Word::Null, Word::Null, Word::Number(0)].as_slice(),
        Err(_) => false,
    }
}

#[test]
fn letters_say_a_layout(rt: HostRuntime) -> Result<(), Fail> {
    let alloc = rt.alloc();
    let tree = Layout::parse(alloc, "SWP")?;
    assert!(rt; is_tree(&tree) && is_copied(alloc, &tree) && begins_null(alloc, &tree));
    Ok(())
}

fn is_refused(layout: Result<Layout, LayoutErr>, error: LayoutErr) -> bool {
    match &layout {
        Ok(_) => false,
        Err(found) => *found == error,
    }
}

fn refuses(alloc: Global, long: &str) -> bool {
    is_refused(Layout::parse(alloc, ""), LayoutErr::Empty)
        && is_refused(Layout::parse(alloc, "SXP"), LayoutErr::Letter(1))
        && is_refused(Layout::parse(alloc, long), LayoutErr::TooLong)
        && is_refused(Layout::object(alloc, &[]), LayoutErr::Empty)
        && is_refused(Layout::scanned(4097), LayoutErr::TooLong)
}

#[test]
fn what_is_no_layout_is_refused(rt: HostRuntime) -> Result<(), Fail> {
    let alloc = rt.alloc();
    let letters = vec![in alloc; b'S'; 4097]?;
    let long = String::from_utf8_lossy(alloc, &letters)?;
    assert!(rt; refuses(alloc, long.as_str()));
    Ok(())
}

fn has_quanta(words: u32, quanta: u32) -> bool {
    match Layout::unscanned(words) {
        Ok(layout) => layout.quanta() == quanta,
        Err(_) => false,
    }
}

#[test]
fn sizes_in_quanta(rt: HostRuntime) -> Result<(), Fail> {
    let rows = [
        (0, 1),
        (1, 1),
        (2, 1),
        (3, 2),
        (64, 32),
        (65, 64),
        (128, 64),
        (129, 128),
        (4096, 2048),
    ];
    assert!(rt; rows.iter().all(|row| has_quanta(row.0, row.1)));
    Ok(())
}

fn has_kind(alloc: Global, classes: &[Class], number: u32) -> bool {
    match Layout::object(alloc, classes) {
        Ok(layout) => layout.kind_number() == number,
        Err(_) => false,
    }
}

#[test]
fn an_object_without_strong_words_is_of_kind_3(rt: HostRuntime) -> Result<(), Fail> {
    assert!(rt; has_kind(rt.alloc(), &[Class::Plain], 3));
    Ok(())
}
