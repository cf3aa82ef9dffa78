//! The orders of labels.

use coset::{Algorithm, CborOrdering, CoseError, KeyType, Label, Result};
use std::alloc::Global;
use std::cmp::Ordering;
use test_lines::words::Words;
use test_lines::{mark, spelled};

/// Compares the first of these labels of that kind with each of them.
///
/// # Errors
/// A fault in the arguments, or an unknown kind of labels.
pub fn cmp(alloc: Global, kind: &str, words: &Words<'_>) -> Result<String> {
    match kind {
        "Label" => told(alloc, &labels(alloc, words, 1)?),
        "KeyType" => cmp_key_types(alloc, words),
        "Algorithm" => cmp_algorithms(alloc, words),
        _ => Err(CoseError::UnexpectedItem("name", "kind of labels")),
    }
}

/// Compares labels in an order. Arguments: the order, the first label, and the labels to compare
/// with it.
///
/// # Errors
/// A fault in the arguments.
pub fn compare(alloc: Global, words: &Words<'_>) -> Result<String> {
    let ordering = spelled::ordering(words.word(1))?;
    let labels = labels(alloc, words, 2)?;
    let mut orders = Vec::with_capacity(alloc, labels.len())?;
    mark::begin(alloc);
    let answer = all_compared(&ordering, &labels, &mut orders);
    mark::end(alloc);
    answer?;
    signs(alloc, &orders)
}

/// Compares labels by the lengths of their encodings first.
///
/// # Errors
/// A fault in the arguments.
pub fn cmp_canonical(alloc: Global, words: &Words<'_>) -> Result<String> {
    let labels = labels(alloc, words, 1)?;
    let mut orders = Vec::with_capacity(alloc, labels.len())?;
    mark::begin(alloc);
    let answer = all_canonical(&labels, &mut orders);
    mark::end(alloc);
    answer?;
    signs(alloc, &orders)
}

/// Compares the first of these key types with each of them.
fn cmp_key_types(alloc: Global, words: &Words<'_>) -> Result<String> {
    let mut all: Vec<KeyType> = Vec::new(alloc);
    for place in 1..words.count() {
        all.push(spelled::read(alloc, words.word(place))?)?;
    }
    told(alloc, &all)
}

/// Compares the first of these algorithms with each. `private=NUMBER` is a label for private use,
/// even if the number has a name.
fn cmp_algorithms(alloc: Global, words: &Words<'_>) -> Result<String> {
    let mut all: Vec<Algorithm> = Vec::new(alloc);
    for place in 1..words.count() {
        all.push(spelled::with_private(alloc, words.word(place))?)?;
    }
    told(alloc, &all)
}

/// Returns the labels spelled by the words from that place on.
fn labels(alloc: Global, words: &Words<'_>, place: usize) -> Result<Vec<Label>> {
    let mut labels = Vec::new(alloc);
    for place in place..words.count() {
        labels.push(spelled::read(alloc, words.word(place))?)?;
    }
    Ok(labels)
}

/// Compares the first label with each. Returns `<`, `=` or `>` for each, or `!` if `==` disagrees.
fn told<T: Ord>(alloc: Global, all: &[T]) -> Result<String> {
    let mut orders = Vec::with_capacity(alloc, all.len())?;
    mark::begin(alloc);
    let answer = all_ordered(all, &mut orders);
    mark::end(alloc);
    answer?;
    signs(alloc, &orders)
}

/// Compares the first with each of them. The result is `None` if `==` disagrees.
fn all_ordered<T: Ord>(all: &[T], orders: &mut Vec<Option<Ordering>>) -> Result<()> {
    let Some(first) = all.first() else {
        return Ok(());
    };
    for other in all {
        let order = first.cmp(other);
        let agrees = (*first == *other) == (order == Ordering::Equal);
        orders.push(agrees.then_some(order))?;
    }
    Ok(())
}

/// Compares the first with each of them in that order.
fn all_compared(
    ordering: &CborOrdering,
    all: &[Label],
    orders: &mut Vec<Option<Ordering>>,
) -> Result<()> {
    let Some(first) = all.first() else {
        return Ok(());
    };
    for other in all {
        orders.push(Some(ordering.compare(first, other)))?;
    }
    Ok(())
}

/// Compares the first with each of them by the lengths of their encodings first.
fn all_canonical(all: &[Label], orders: &mut Vec<Option<Ordering>>) -> Result<()> {
    let Some(first) = all.first() else {
        return Ok(());
    };
    for other in all {
        orders.push(Some(first.cmp_canonical(other)))?;
    }
    Ok(())
}

/// Returns a sign for each result.
fn signs(alloc: Global, orders: &[Option<Ordering>]) -> Result<String> {
    let mut signs = String::new(alloc);
    for order in orders {
        signs.push(match order {
            Some(Ordering::Less) => '<',
            Some(Ordering::Equal) => '=',
            Some(Ordering::Greater) => '>',
            None => '!',
        })?;
    }
    Ok(signs)
}
