//! The values of a goal's variables, read off the variables of its clauses. The inputs of the cone that are true are put
//! aside in one pass over the nodes, so that no bit needs a pass of its own.
ghost use Rattle.std.specs.Prelude.{◌≡◌, ◌≤◌, ◌+◌, ◌&&◌, ◌||◌, ℕ, length, map, IfOk, IsTrue, OnOk};
ghost use Rattle.std.specs.List.{range_with_len};
ghost use Rattle.bv_value.specs.Bits.{number_of};
ghost use Rattle.bv_expr.specs.Goal.{is_sort};
ghost use Rattle.sat_form.specs.Truth.{value_of};
ghost use Rattle.blast_goal.specs.Values.{value_with, values_of};
ghost use Rattle.goal_alone.specs.Satisfying.{is_input, node_bits};
ghost use Rattle.goal_alone.specs.Inputs.{has};

use bv_expr::{Goal, Sort, Val};
use bv_value::Bv;
use cone_walk::{Cone, ConeNode};
use std::alloc::{AllocError, Global};

/// Notes a node that is an input and true.
fn note(inputs: &mut Vec<(u8, u8)>, node: &ConeNode, is_true: bool) -> Result<(), AllocError>
    ensures { OnOk result ((k j : ℕ) → has inputs.new.items k j ≡ (has inputs.old.items k j || (is_input k j node.now && is_true))) }
{
    if let ConeNode::Input(variable, bit) = node {
        if is_true {
            inputs.push((*variable, *bit))?;
        }
    }
    Ok(())
}

/// The inputs of a cone that are true, each by its variable and bit, where `values[i]` is that of variable i + 1.
fn true_inputs(alloc: Global, cone: &Cone, values: &[bool]) -> Result<Vec<(u8, u8)>, AllocError>
    requires { length cone.now.nodes.items + 1 ≤ length values.now }
    ensures { IfOk result (λ inputs. (k j : ℕ) → has inputs.items k j ≡ node_bits cone.now.nodes.items (value_of values.now) k j) }
{
    let mut inputs = Vec::new(alloc);
    for (i, node) in cone.nodes.iter().enumerate() {
        note(&mut inputs, node, values[i + 1])?;
    }
    Ok(inputs)
}

/// Whether the input is there.
fn has_input(inputs: &[(u8, u8)], variable: u8, bit: u8) -> bool
    ensures { result ≡ has inputs.now variable bit }
{
    inputs
        .iter()
        .any(|input| input.0 == variable && input.1 == bit)
}

/// The number that the bits of a variable write.
fn number(inputs: &[(u8, u8)], variable: u8, width: u8) -> u128
    requires { width ≤ 128 }
    ensures { result ≡ number_of (map (has inputs.now variable) (range_with_len 0 width)) }
{
    let mut number = 0;
    let mut bit = width;
    while bit > 0 {
        bit -= 1;
        number = 2 * number + u128::from(has_input(inputs, variable, bit));
    }
    number
}

/// The value of a variable of this sort.
fn value(inputs: &[(u8, u8)], variable: u8, sort: Sort) -> Val
    requires { IsTrue (is_sort sort) }
    ensures { result ≡ value_with sort (has inputs.now variable) }
{
    match sort {
        Sort::Truth => Val::Truth(has_input(inputs, variable, 0)),
        Sort::Vector(width) => Val::Vector(Bv::new(width, number(inputs, variable, width))),
    }
}

/// The values of a goal's variables, where `values[i]` is that of variable i + 1 of its clauses. The only error is want
/// of memory. Takes time by the number of nodes, and by the number of bits times that of the inputs.
pub fn counterexample(
    alloc: Global,
    goal: &Goal,
    cone: &Cone,
    values: &[bool],
) -> Result<Vec<Val>, AllocError>
    requires { length cone.now.nodes.items + 1 ≤ length values.now }
    ensures { IfOk result (λ found. found.items ≡ values_of goal.now.binders (node_bits cone.now.nodes.items (value_of values.now))) }
{
    let inputs = true_inputs(alloc, cone, values)?;
    let mut found = Vec::new(alloc);
    for (variable, binder) in goal.binders.as_slice().iter().enumerate() {
        found.push(value(&inputs, variable as u8, binder.1))?;
    }
    Ok(found)
}
