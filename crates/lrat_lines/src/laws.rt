//! Laws of the definitions: what reading, writing and checking say of one another. Each stands as the contract of a function that does nothing, so that the prover holds it and callers can use it.

ghost use Rattle.std.specs.Prelude.{ℕ, List};
ghost use Rattle.sat_form.specs.Literals.{Literal};
ghost use Rattle.lrat_lines.specs.Lines as lines;
ghost use Rattle.lrat_lines.specs.Judge.{Clauses};
ghost use Rattle.lrat_lines.specs.Laws.{LineReadsBack, TextReadsBack, OneReading, OneVerdict, ChecksRefute, CheckedIsAccepted, AcceptedIsChecked, CheckedTextIsAccepted};

/// Reading gives back what writing wrote, line by line and as a whole text.
pub fn written_lines_read_back()
    ensures line { (l : lines.Line) → LineReadsBack l }
    ensures text { (ls : List lines.Line) → TextReadsBack ls }
{}

/// A text is read in one way, and comes to one verdict.
pub fn one_reading()
    ensures line { (bytes : List ℕ) → OneReading bytes }
    ensures verdict { (db : Clauses) (number : ℕ) (texts : List (List ℕ)) → OneVerdict db number texts }
{}

/// Clauses over which lines check up to the empty clause have no satisfying values.
pub fn checked_lines_refute()
    ensures { (cs : List (List Literal)) (ls : List lines.Line) → ChecksRefute cs ls }
{}

/// The verdict "accepted" is that of texts whose first lines check, and of no others.
pub fn checked_lines_are_accepted()
    ensures front { (db : Clauses) (number : ℕ) (front : List (List ℕ)) (ls : List lines.Line) → CheckedIsAccepted db number front ls }
    ensures only { (db : Clauses) (number : ℕ) (texts : List (List ℕ)) → AcceptedIsChecked db number texts }
    ensures whole { (cs : List (List Literal)) (most : ℕ) (text : List ℕ) (ls : List lines.Line) → CheckedTextIsAccepted cs most text ls }
{}
