//! Clauses read from DIMACS text.
ghost use Rattle.std.specs.Prelude.{◌≡◌, true};
ghost use Rattle.sat_form.specs.Shape.{are_within, variables_within};

use sat_form::{Clauses, Cnf, Lit};
use std::alloc::{AllocError, Global};

/// Clauses that are read: those so far, and the one whose end hasn't come.
#[derive(Drop)]
struct Draft {
    vars: u32,
    literals: Vec<Lit>,
    clauses: Clauses,
    ghost within: { are_within vars literals.items ≡ true },
    ghost closed: { variables_within vars clauses ≡ true },
}

impl Draft {
    /// Takes a word: a literal of the open clause, or the 0 behind it. False where it is neither.
    fn take(&mut self, word: &str) -> Result<bool, AllocError> {
        let Ok(number) = word.parse::<i64>() else {
            return Ok(false);
        };
        if number == 0 {
            self.clauses.push(&self.literals)?;
            self.literals.clear();
            return Ok(true);
        }
        let Ok(var) = u32::try_from(number.unsigned_abs()) else {
            return Ok(false);
        };
        if var > self.vars || self.vars >= 1 << 31 {
            return Ok(false);
        }
        self.literals.push(Lit::new(var, number > 0))?;
        Ok(true)
    }
}

/// The number of variables that a header line names.
fn header(line: &str) -> Option<u32> {
    line.split_whitespace().nth(2)?.parse::<u32>().ok()
}

/// Takes a line: a header, with which all begins anew, a comment, or words of clauses. None where it is none of these.
fn take_line(alloc: Global, draft: Draft, line: &str) -> Result<Option<Draft>, AllocError> {
    if line.starts_with("c") {
        return Ok(Some(draft));
    }
    if line.starts_with("p") {
        return Ok(begun(alloc, line));
    }
    let mut draft = draft;
    for word in line.split_whitespace() {
        if !draft.take(word)? {
            return Ok(None);
        }
    }
    Ok(Some(draft))
}

/// Nothing is read yet, over the variables 1 to `vars`.
fn empty(alloc: Global, vars: u32) -> Draft {
    Draft {
        vars,
        literals: Vec::new(alloc),
        clauses: Clauses::new(alloc),
    }
}

/// What is read behind a header line.
fn begun(alloc: Global, line: &str) -> Option<Draft> {
    let vars = header(line)?;
    Some(empty(alloc, vars))
}

/// The formula of what was read, where it has few enough variables and clauses. A clause that isn't closed is left out.
fn formula(draft: Draft) -> Option<Cnf> {
    let Draft { vars, clauses, .. } = draft;
    if vars >= 1 << 31 || clauses.len() >= 1 << 62 {
        return None;
    }
    Some(Cnf { vars, clauses })
}

/// The formula of a DIMACS text, where it is one.
pub fn clauses_of(alloc: Global, text: &str) -> Result<Option<Cnf>, AllocError> {
    let mut draft = empty(alloc, 0);
    for line in text.lines() {
        draft = match take_line(alloc, draft, line)? {
            Some(draft) => draft,
            None => return Ok(None),
        };
    }
    Ok(formula(draft))
}
