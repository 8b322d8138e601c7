//! The limit on the variables of a goal.

ghost use Rattle.std.specs.Prelude.{◌≡◌, ◌+◌, ◌<◌, ◌^◌, Bool, IfSome, List, length, drop, slice_get, Some};
ghost use Rattle.bv_grammar.specs.declared.words.Terminal.{Terminal};
ghost use Rattle.bv_grammar.specs.Taking.{AreTaken};
ghost use Rattle.bv_limits.specs.Counting as heads;
ghost use Rattle.bv_limits.specs.Naming as spec;
ghost use Rattle.bv_limits.specs.Limits.{IsFirstTooMany};

use bv_grammar::{Role, Taken, Word};

/// The place of the first token that is the 65th variable of a goal, where the tokens are taken so. A name in braces is a
/// variable at once; one in round brackets where the token behind the colon begins a sort and is reached, so that names before
/// a hypothesis don't count. Takes time linear in the number of tokens.
pub fn first_variable_limit(taken: &[Taken]) -> Option<usize>
    ensures { (ts : List Terminal) → AreTaken ts taken.now → IsFirstTooMany ts (length taken.now) result }
{
    let mut variables = None;
    let mut known = None;
    let mut at = 0;
    while at < taken.len() {
        let role = role_at(taken, at);
        let sorted = sorted(taken, at, role, known);
        let variable = is_variable(role, sorted);
        if variable && is_full(variables) {
            return Some(at);
        }
        variables = counted(is_head(role), variable, variables);
        known = sorted;
        at += 1;
    }
    None
}

/// What the terminal at a place is taken as.
fn role_at(taken: &[Taken], at: usize) -> Role
    requires { at < length taken.now }
    ensures { spec.role_of (slice_get taken.now at) ≡ Some result }
{
    taken[at].role
}

/// Of a name in round brackets: whether it is bound to a sort. Names that stand together are bound to one, so that it is
/// known behind the first of them.
fn sorted(taken: &[Taken], at: usize, role: Role, known: Option<bool>) -> Option<bool>
    requires { (b : Bool) → known ≡ Some b → b ≡ spec.names_sort (drop at taken.now) }
    ensures { result ≡ spec.sorted role (drop at taken.now) }
{
    if !is_binder(role) {
        return None;
    }
    match known {
        Some(known) => Some(known),
        None => Some(names_sort(taken, at)),
    }
}

/// Whether names stand here, as many as there are, and behind them a colon and a sort.
fn names_sort(taken: &[Taken], from: usize) -> bool
    ensures { result ≡ spec.names_sort (drop from taken.now) }
{
    let mut at = from;
    while at < taken.len() {
        let role = role_at(taken, at);
        if !is_binder(role) {
            return is_colon(role) && is_sort(taken, at + 1);
        }
        at += 1;
    }
    false
}

/// Whether a sort begins here.
fn is_sort(taken: &[Taken], at: usize) -> bool
    ensures { result ≡ spec.is_sort (drop at taken.now) }
{
    if at < taken.len() {
        return begins_sort(role_at(taken, at));
    }
    false
}

fn is_variable(role: Role, sorted: Option<bool>) -> bool
    ensures { result ≡ spec.is_variable role sorted }
{
    match role {
        Role::BraceBinder => true,
        _ => match sorted {
            Some(sorted) => sorted,
            None => false,
        },
    }
}

fn is_full(variables: Option<usize>) -> bool
    ensures { result ≡ spec.is_full variables }
{
    match variables {
        Some(variables) => variables == 64,
        None => false,
    }
}

/// One token more: a head word, a variable, or another.
fn counted(head: bool, variable: bool, variables: Option<usize>) -> Option<usize>
    requires { IfSome variables (λ n. n + 1 < 2 ^ 64) }
    ensures { result ≡ spec.counted head variable variables }
{
    if head {
        return Some(0);
    }
    match variables {
        Some(variables) if variable => Some(variables + 1),
        _ => variables,
    }
}

fn is_head(role: Role) -> bool
    ensures { result ≡ heads.is_head role }
{
    match role {
        Role::Word(Word::Theorem | Word::Example) => true,
        _ => false,
    }
}

fn is_binder(role: Role) -> bool
    ensures { result ≡ spec.is_binder role }
{
    match role {
        Role::Binder => true,
        _ => false,
    }
}

fn is_colon(role: Role) -> bool
    ensures { result ≡ spec.is_colon role }
{
    match role {
        Role::Word(Word::Colon) => true,
        _ => false,
    }
}

fn begins_sort(role: Role) -> bool
    ensures { result ≡ spec.begins_sort role }
{
    match role {
        Role::Word(Word::Bool | Word::BitVec) => true,
        _ => false,
    }
}
