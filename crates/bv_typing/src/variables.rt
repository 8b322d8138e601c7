//! The variables of a goal.

ghost use Rattle.std.specs.Prelude.{◌≡◌, ◌-◌, ◌++◌, [], IfOk, bytes_eq, flat_map, map};
ghost use Rattle.std.specs.List.{list_any};
ghost use Rattle.bv_typing.specs.Source.{text_at};
ghost use Rattle.bv_typing.specs.Goals.{bound_misfits, least};
ghost use Rattle.bv_typing.specs.Variables as spec;

use crate::misfit::{Misfit, earliest};
use crate::sorts::vectors;
use crate::source::File;
use bv_expr::Sort;
use bv_lex::FaultKind;
use bv_trees::{Piece, Sort as Written};
use std::alloc::{AllocError, Global};

/// The most variables of a goal.
const MOST_VARIABLES: usize = 64;

/// A name that is bound: the place where it stands, and the sort that is written, which is none where its width is 0 or above
/// 128.
#[derive(Clone, Copy, Debug, PartialEq, Eq)]
pub struct Binding {
    /// The place of the name: how many tokens stand before it.
    pub at: usize,
    /// The sort that is written behind it.
    pub sort: Option<Sort>,
}

/// The sort that is written there.
pub(crate) fn sort_at(file: &File<'_>, sort: Written) -> Option<Sort>
    ensures { result ≡ spec.sort_at file.now sort }
{
    match sort {
        Written::Truth => Some(Sort::Truth),
        Written::Vector(at) => vectors(file.number_at(at)),
    }
}

/// The names that pieces bind, in order. The error is want of memory alone. Takes linear time.
pub fn bindings_of(
    alloc: Global,
    file: &File<'_>,
    pieces: &[Piece],
) -> Result<Vec<Binding>, AllocError>
    ensures { IfOk result (λ bs. bs.items ≡ flat_map (spec.piece_bindings file.now) pieces.now) }
{
    let mut bindings = Vec::new(alloc);
    for piece in pieces {
        bind(file, *piece, &mut bindings)?;
    }
    Ok(bindings)
}

/// Binds the names that a piece binds.
fn bind(file: &File<'_>, piece: Piece, bindings: &mut Vec<Binding>) -> Result<(), AllocError>
    ensures { IfOk result (λ _. bindings.new.items ≡ bindings.old.items ++ spec.piece_bindings file.now piece) }
{
    match piece {
        Piece::Variables(from, to, sort) => place(sort_at(file, sort), from, to, bindings),
        _ => Ok(()),
    }
}

/// Binds the names from a place up to another one.
fn place(
    sort: Option<Sort>,
    from: usize,
    to: usize,
    bindings: &mut Vec<Binding>,
) -> Result<(), AllocError>
    ensures { IfOk result (λ _. bindings.new.items ≡ bindings.old.items ++ spec.placed sort from (to - from)) }
{
    for at in from..to {
        bindings.push(Binding { at, sort })?;
    }
    Ok(())
}

/// The variable of a name that stands at a place, with its sort. `_` names none, though it may be bound. Takes time linear in
/// the number of variables.
pub fn variable_at(
    file: &File<'_>,
    bindings: &[Binding],
    at: usize,
) -> Option<(usize, Option<Sort>)>
    ensures { result ≡ spec.variable_of (map (spec.named file.now) bindings.now) (text_at file.now at) }
{
    let name = file.text_at(at);
    if name == b"_".as_slice() {
        return None;
    }
    find(file, bindings, name)
}

fn find(file: &File<'_>, bindings: &[Binding], name: &[u8]) -> Option<(usize, Option<Sort>)>
    ensures { result ≡ spec.bound_from 0 name.now (map (spec.named file.now) bindings.now) }
{
    for (number, binding) in bindings.iter().enumerate() {
        if file.text_at(binding.at) == name {
            return Some((number, binding.sort));
        }
    }
    None
}

/// Whether a name is one of those that are bound.
fn is_bound(file: &File<'_>, bindings: &[Binding], name: &[u8]) -> bool
    ensures { result ≡ list_any (λ b. bytes_eq b.name name.now) (map (spec.named file.now) bindings.now) }
{
    for binding in bindings {
        if file.text_at(binding.at) == name {
            return true;
        }
    }
    false
}

/// Whether a name may be bound behind others.
fn may_bind(file: &File<'_>, before: &[Binding], binding: Binding) -> bool
    ensures { result ≡ spec.may_bind (map (spec.named file.now) before.now) (spec.named file.now binding) }
{
    !is_bound(file, before, file.text_at(binding.at))
        && binding.sort.is_some()
        && before.len() < MOST_VARIABLES
}

/// The least fault of the names that are bound. Takes time quadratic in their number.
pub(crate) fn binding_misfit(file: &File<'_>, bindings: &[Binding]) -> Option<Misfit>
    ensures { result ≡ least (bound_misfits [] (map (spec.named file.now) bindings.now)) }
{
    let mut found = None;
    for (number, binding) in bindings.iter().enumerate() {
        if !may_bind(file, &bindings[..number], *binding) {
            let misfit = Misfit {
                at: binding.at,
                kind: FaultKind::Typing,
            };
            found = earliest(found, Some(misfit));
        }
    }
    found
}
