//! Information filters: that calls succeed, and worked values by hand.

ghost use Rattle.std.specs.Prelude.{IfOk, ◌<◌};
ghost use Rattle.gs_model.specs.Rows.{rows};
ghost use Rattle.gs_filter.specs.Filter.{AreParents};

use gs_filter::{ClassError, Classes};
use std::alloc::{AllocError, Global};
use std::test::Fail;

/// Returns lists of digits from a text with a word for each list.
fn lists_of(alloc: Global, text: &str) -> Result<Vec<Vec<u32>>, AllocError> {
    let mut lists = Vec::new(alloc);
    for word in text.split(' ') {
        lists.push(digits_of(alloc, word)?)?;
    }
    Ok(lists)
}

/// Returns the digits of a word.
fn digits_of(alloc: Global, word: &str) -> Result<Vec<u32>, AllocError> {
    let mut list = Vec::new(alloc);
    for digit in word.chars() {
        list.push(digit.to_digit(10).unwrap_or(0))?;
    }
    Ok(list)
}

/// Returns the parents of three signals of round 1, and of two signals below each of them.
fn worked_parents(alloc: Global) -> Result<Vec<Vec<u32>>, AllocError>
    ensures { IfOk result (λ v. AreParents (rows v.items)) }
{
    let first = vec![in alloc; 0, 0, 0]?;
    let second = vec![in alloc; 0, 0, 1, 1, 2, 2]?;
    Ok(vec![in alloc; first, second]?)
}

/// Returns the classes of lists of digits over the worked parents, or their fault.
fn classes_in(alloc: Global, text: &str) -> Result<Classes, ClassError> {
    let parents = worked_parents(alloc)?;
    Classes::new(alloc, &parents, lists_of(alloc, text)?)
}

/// Returns a class for each signal of the worked parents.
fn singles(alloc: Global) -> Result<Classes, AllocError> {
    let parents = worked_parents(alloc)?;
    Classes::identity(alloc, &parents)
}

/// Returns the size, first member and parents' class of a class of a round after the first.
fn class_numbers(classes: &Classes, round: u8, class: u32) -> Option<(u32, u32, u32)> {
    if round < 2 || round > classes.rounds() || class < 1 || class > classes.classes(round) {
        return None;
    }
    Some((
        classes.size(round, class),
        classes.first(round, class),
        classes.parent_class(round, class),
    ))
}

fn class_of(classes: &Classes, round: u8, signal: u32) -> Option<u32> {
    if round < 1 || round > classes.rounds() || signal >= classes.signals(round) {
        return None;
    }
    Some(classes.class_of(round, signal))
}

/// Rounds and classes, with their size, first member and parents' class in the worked filter.
const NUMBERS: &[(u8, u32, Option<(u32, u32, u32)>)] = &[
    (2, 1, Some((2, 0, 1))),
    (2, 3, Some((2, 2, 2))),
    (2, 4, None),
];

/// Rounds and signals, with their class in the worked filter.
const CLASSES: &[(u8, u32, Option<u32>)] = &[(1, 2, Some(1)), (2, 4, Some(1)), (2, 6, None)];

/// Returns the first row of `NUMBERS` that fails.
fn other_numbers(classes: &Classes) -> Option<(u8, u32)> {
    for &(round, class, numbers) in NUMBERS {
        if class_numbers(classes, round, class) != numbers {
            return Some((round, class));
        }
    }
    None
}

/// Returns the first row of `CLASSES` that fails.
fn other_class(classes: &Classes) -> Option<(u8, u32)> {
    for &(round, signal, class) in CLASSES {
        if class_of(classes, round, signal) != class {
            return Some((round, signal));
        }
    }
    None
}

/// Returns the first rows of `NUMBERS` and of `CLASSES` that fail in the worked filter.
fn others(alloc: Global) -> Result<(Option<(u8, u32)>, Option<(u8, u32)>), ClassError> {
    let classes = classes_in(alloc, "121 123312")?;
    Ok((other_numbers(&classes), other_class(&classes)))
}

/// Returns the second round's classes and parents if each signal is a class, and the fifth class's numbers.
fn singles_text(alloc: Global) -> Result<String, AllocError> {
    let single = singles(alloc)?;
    format!(in alloc;
        "{:?} {:?} {:?}",
        single.lists().get(1),
        single.parents().get(1),
        class_numbers(&single, 2, 5)
    )
}

#[test]
fn worked_values(rt: HostRuntime) -> Result<(), Fail> {
    let alloc = rt.alloc();
    assert_eq!(rt; others(alloc)?, (None, None));
    assert_eq!(rt;
        singles_text(alloc)?.as_str(),
        "Some([1, 2, 3, 4, 5, 6]) Some([0, 0, 1, 1, 2, 2]) Some((1, 4, 3))"
    );
    Ok(())
}
