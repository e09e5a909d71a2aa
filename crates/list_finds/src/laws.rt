//! The law of honest servers, as a call whose contract is the law. A call does nothing when it runs.

ghost use Rattle.list_finds.specs.Honest.{AnswersForTheList};

/// Where in each query of a search at least `h` records are the frames of honest servers that hold one table of a clear
/// list, or their shares of it, and `2h > k + t` for its k usable answers and the session's degree t, each key is
/// answered by what the list has for its digest (Goldberg 2007; Chor, Gilboa and Naor 1998), and each verdict lists one
/// block.
pub fn honest_servers_answer_for_the_list()
    ensures { AnswersForTheList }
{}
