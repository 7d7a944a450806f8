// What a user of the supervision tree sees.
ghost use Rattle.std.specs.Prelude.{◌≡◌, length, IfOk};
ghost use Rattle.links.specs.Linked.{linked};

use links::Links;
use reserved::Reserved;
use std::alloc::{AllocError, Global};
use std::test::Fail;
use supervision::Tree;

// Serials stay far below the largest number of 64 bits.
const MANY: u64 = 1_000_000;

// A context under the top, for the root task.
fn child_of_top(tree: &mut Tree) -> Result<(u64, bool), Fail> {
    if tree.next_serial() >= MANY {
        return Err(Fail::new("too many serials"));
    }
    Ok(tree.child(0, 0)?)
}

// As many children of the top are born and die.
fn deaths_below_top(tree: &mut Tree, deaths: u64) -> Result<(), Fail> {
    for _ in 0..deaths {
        let (context, _) = child_of_top(tree)?;
        tree.close(0, context)?;
    }
    Ok(())
}

// A new task at a context under the top; gives the context that the task holds.
fn spawn_below_top(tree: &mut Tree, task: u64) -> Result<u64, Fail> {
    let (context, _) = child_of_top(tree)?;
    if tree.node_of(task).is_none()
        && tree.next_serial() < MANY
        && tree.is_open(0, context)
        && !tree.is_aborted(context)
        && tree.has_node()
        && tree.has_link(context)
    {
        Ok(tree.seat(0, context, task))
    } else {
        Err(Fail::new("refused"))
    }
}

#[test]
fn thirty_one_dead_links_are_kept_when_a_child_is_linked(rt: HostRuntime) -> Result<(), Fail> {
    let mut tree = Tree::new(rt.alloc())?;
    deaths_below_top(&mut tree, 31)?;
    assert_eq!(rt; tree.links(0, 0)?, 31);
    let _ = child_of_top(&mut tree)?;
    assert_eq!(rt; tree.links(0, 0)?, 32);
    assert_eq!(rt; tree.len(), 2);
    Ok(())
}

#[test]
fn thirty_two_dead_links_are_dropped_when_a_child_is_linked(rt: HostRuntime) -> Result<(), Fail> {
    let mut tree = Tree::new(rt.alloc())?;
    deaths_below_top(&mut tree, 32)?;
    assert_eq!(rt; tree.links(0, 0)?, 32);
    let _ = child_of_top(&mut tree)?;
    assert_eq!(rt; tree.links(0, 0)?, 1);
    assert_eq!(rt; tree.len(), 2);
    Ok(())
}

#[test]
fn a_cascade_gives_the_last_child_first_and_each_task_once(rt: HostRuntime) -> Result<(), Fail> {
    let mut tree = Tree::new(rt.alloc())?;
    let _ = spawn_below_top(&mut tree, 1)?;
    let _ = spawn_below_top(&mut tree, 2)?;
    tree.cascade(0);
    assert_eq!(rt; tree.marks(), [2, 1].as_slice());
    tree.cascade(0);
    assert_eq!(rt; tree.marks().len(), 0);
    Ok(())
}

#[test]
fn a_child_of_an_aborted_node_is_aborted_and_unlinked(rt: HostRuntime) -> Result<(), Fail> {
    let mut tree = Tree::new(rt.alloc())?;
    tree.cascade(0);
    let (context, aborted) = child_of_top(&mut tree)?;
    assert_eq!(rt; context, 1);
    assert!(rt; aborted);
    assert_eq!(rt; tree.links(0, 0)?, 0);
    assert_eq!(rt; tree.len(), 2);
    Ok(())
}

#[test]
fn a_node_dies_with_its_last_context_task_and_child(rt: HostRuntime) -> Result<(), Fail> {
    let mut tree = Tree::new(rt.alloc())?;
    let context = spawn_below_top(&mut tree, 1)?;
    assert_eq!(rt; tree.node_of(1), Some(1));
    assert_eq!(rt; tree.len(), 3);
    assert!(rt; tree.close(1, 0).is_err());
    assert!(rt; tree.is_open(1, context));
    tree.close_all(1);
    assert_eq!(rt; tree.len(), 2);
    tree.leave(1);
    assert_eq!(rt; tree.len(), 1);
    assert_eq!(rt; tree.node_of(1), None);
    Ok(())
}

// Links from 1 to 2, from 3 to 4 and from 1 to 5.
fn three_links(heap: Global) -> Result<Links, AllocError>
    ensures { IfOk result (λ l. length (linked l) ≡ 3) }
{
    let mut links = Links::new(heap)?;
    links.add(1, 2);
    links.add(3, 4);
    links.add(1, 5);
    Ok(links)
}

#[test]
fn children_are_gathered_into_a_vector_of_the_least_capacity(rt: HostRuntime) -> Result<(), Fail> {
    let links = three_links(rt.alloc())?;
    let mut waiting = Vec::with_capacity(rt.alloc(), 4)?;
    waiting.push_reserved(7);
    links.gather(1, &mut waiting);
    assert_eq!(rt; waiting.as_slice(), [7, 2, 5].as_slice());
    assert_eq!(rt; waiting.capacity(), 4);
    Ok(())
}

#[test]
fn children_are_gathered_into_a_reserved_list(rt: HostRuntime) -> Result<(), Fail> {
    let links = three_links(rt.alloc())?;
    let mut waiting = Reserved::<u64, 4>::new(rt.alloc())?;
    waiting.push(7);
    links.gather(3, &mut waiting);
    assert_eq!(rt; waiting.as_slice(), [7, 4].as_slice());
    Ok(())
}
