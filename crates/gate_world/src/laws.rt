//! What holds of all lists of events, as the clauses of a function that does nothing.

ghost use Rattle.gate_world.specs.Laws.{StaysRight, StepsAreBounded, TurnsAreBounded, EventsLower, ConesAgree};

/// Whatever the events and their order: the words stay sound, each place in each view holds its word, and
/// each goal is unended, or has the answer that it has alone, or ran out of memory, or found each word of
/// the table taken, or was cancelled by a goal that is replied false. For a script of so many gates at most
/// gates * (2n + 2) steps and one for each gate of the cone fit what a goal has in hand, and at most
/// budget + 1 turns; each event that fits leaves less to do, and none leaves more. A walk loads as many words as
/// the cone has gates. Nothing is done.
pub fn every_list_of_events()
    ensures right { StaysRight }
    ensures steps { StepsAreBounded }
    ensures turns { TurnsAreBounded }
    ensures lower { EventsLower }
    ensures cones { ConesAgree }
{}
