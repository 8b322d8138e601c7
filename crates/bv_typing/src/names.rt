//! What a goal is called, its variables, and the file of its certificate.

ghost use Rattle.std.specs.Prelude.{◌≡◌, ◌≤◌, ◌-◌, ◌++◌, ℕ, IfOk, IsUtf8, map, string_bytes};
ghost use Rattle.bv_typing.specs.Source.{quoted_at, text_at};
ghost use Rattle.bv_typing.specs.Variables.{binders_of, named, sorted_binder};
ghost use Rattle.bv_typing.specs.Goals.{name_between, path_text};

use crate::source::File;
use crate::variables::Binding;
use bv_expr::{Name, Sort};
use sqlite_items::Items;
use std::alloc::{AllocError, Global};

/// Bytes as text.
fn as_text(bytes: &[u8]) -> &str
    requires { IsUtf8 bytes.now }
    ensures { result.now ≡ bytes.now }
{
    match str::from_utf8(bytes) {
        Ok(text) => text,
        Err(_) => unreachable!(),
    }
}

/// What the token at a place spells, as text.
fn spelling<'a>(file: &File<'a>, at: usize) -> &'a str
    requires { IsUtf8 (text_at file.now at) }
    ensures { result.now ≡ text_at file.now at }
{
    as_text(file.text_at(at))
}

/// The variables of a goal with their sorts. Takes time linear in the length of their names.
pub fn binders(
    alloc: Global,
    file: &File<'_>,
    bindings: &[Binding],
) -> Result<Items<(Name, Sort)>, AllocError>
    requires { (i : ℕ) → IsUtf8 (text_at file.now i) }
    ensures { IfOk result (λ bs. bs ≡ binders_of (map (named file.now) bindings.now)) }
{
    let mut binders = Vec::new(alloc);
    for binding in bindings {
        add(alloc, file, *binding, &mut binders)?;
    }
    Ok(Items::from_vec(binders))
}

/// Adds a variable, where it has a sort.
fn add(
    alloc: Global,
    file: &File<'_>,
    binding: Binding,
    binders: &mut Vec<(Name, Sort)>,
) -> Result<(), AllocError>
    requires { IsUtf8 (text_at file.now binding.at) }
    ensures { IfOk result (λ _. binders.new.items ≡ binders.old.items ++ sorted_binder (text_at file.now binding.at) binding.sort) }
{
    match binding.sort {
        Some(sort) => {
            let text = String::from_str(alloc, spelling(file, binding.at))?;
            binders.push((Name::from_string(text), sort))?;
            Ok(())
        }
        None => Ok(()),
    }
}

/// The name of a goal whose head word stands at a place, and whose name ends before another one: its path without spaces, or
/// `example`. Takes time linear in its length.
pub fn goal_name(
    alloc: Global,
    file: &File<'_>,
    head: usize,
    path: usize,
) -> Result<Name, AllocError>
    requires { (i : ℕ) → IsUtf8 (text_at file.now i) }
    ensures { IfOk result (λ n. n ≡ name_between file.now head path) }
{
    if path <= head {
        return Ok(Name::from_string(String::new(alloc)));
    }
    if path - head == 1 {
        return Ok(Name::from_string(String::from_str(alloc, "example")?));
    }
    Ok(Name::from_string(path_text(alloc, file, head + 1, path)?))
}

/// What the tokens from a place up to another one spell.
#[tactic(auto, using(crate::proofs::Spelling::path_more))]
fn path_text(alloc: Global, file: &File<'_>, from: usize, to: usize) -> Result<String, AllocError>
    requires texts { (i : ℕ) → IsUtf8 (text_at file.now i) }
    requires order { from ≤ to }
    ensures { IfOk result (λ t. string_bytes t ≡ path_text file.now from (to - from)) }
{
    let mut text = String::new(alloc);
    for at in from..to {
        text.push_str(spelling(file, at))?;
    }
    Ok(text)
}

/// What stands between the quotes of the string at a place. Takes time linear in its length.
pub fn quoted_name(alloc: Global, file: &File<'_>, at: usize) -> Result<Name, AllocError>
    requires { IsUtf8 (quoted_at file.now at) }
    ensures { IfOk result (λ n. n ≡ quoted_at file.now at) }
{
    let text = as_text(file.quoted_at(at));
    Ok(Name::from_string(String::from_str(alloc, text)?))
}
