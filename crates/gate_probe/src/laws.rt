//! What holds of all sound words and of their parts, and of whole searches, as the clauses of functions
//! that do nothing.

ghost use Rattle.gate_probe.specs.Laws.{ClaimsKeepSound, StandsOnce, StandsForGood, MeansWhatStands};
ghost use Rattle.gate_probe.specs.Runs.{FullOfOthers, FoundWhereSeen, SeenInOrder};

/// A claim that is allowed keeps the words sound; in sound words one literal stands for a tree, and it
/// does so for good; and a builder knows by a part of sound words what stands by it. Nothing is done.
pub fn sound_words()
    ensures claims { ClaimsKeepSound }
    ensures once { StandsOnce }
    ensures for_good { StandsForGood }
    ensures means { MeansWhatStands }
{}

/// Whichever words a search is told, it is Full exactly where words other than 0 were seen at n places,
/// the wanted one at none of them; it is Found exactly where the wanted word was seen, with the node of
/// that place; and the places are the first ones from the pair's home on. Nothing is done.
pub fn whole_searches()
    ensures full { FullOfOthers }
    ensures found { FoundWhereSeen }
    ensures places { SeenInOrder }
{}
