//! Theorems about runs, each as the contract of an empty function. Among them: each graph of a run's books is drawn if
//! it is laid out, and its line says so. What a run writes is the text of such books, or if it fails a prefix of that
//! and of the lines of such entries: so say clauses `written` and `begun` of `write_batch`. So it has no line of a
//! shape without a drawing.
ghost use Rattle.std.specs.Prelude.{ℕ, List, ◌≡◌, ◌≢◌, ◌<◌, All, [], ◌∷◌, None, false, map, slice_index_or};
ghost use Rattle.common.specs.declared.parameters.Choice.{Choice};
ghost use Rattle.lanes.specs.Opening.{Meaning, Opened};
ghost use Rattle.reports.specs.declared.answer.Answer.{Answer};
ghost use Rattle.reports.specs.Books.{AreBooks, BookModel, IsBook};
ghost use Rattle.answers.specs.DrawnAnswers.{IsDrawnIfLaid};
ghost use Rattle.collector.specs.DrawnBooks.{AreDrawnBooks, IsDrawnBook, TellsDrawingIfLaid};
ghost use Rattle.planar_code.specs.declared.partial_record.Ending.{Ending};
ghost use Rattle.planar_code.specs.Split.{IsSplit};
ghost use Rattle.reports.specs.AllBooks.{AreAllBooks};
ghost use Rattle.graph_facts.specs.Conditions.{no_condition, those_meeting};
ghost use Rattle.collector.specs.FactBooks.{FactBook};
ghost use Rattle.collector.specs.Headline.{IsWholeRun, HasMemory};
ghost use Rattle.collector.specs.Picked.{picked_text};

/// Theorem: in books that are right for their files, each entry that has a shape has a drawing of it.
pub fn books_are_drawn()
    ensures one { (choice : Choice) (meaning : Meaning) (file : ℕ) (book : BookModel)
        → IsBook choice meaning file book → IsDrawnBook book }
    ensures all { (choice : Choice) (meaning : ℕ → Meaning) (first : ℕ) (books : List BookModel)
        → AreBooks choice meaning first books → AreDrawnBooks books }
{}

/// Theorem: the line of an answer that has a drawing says so, in either format.
pub fn lines_tell_drawings()
    ensures { (answer : Answer) → IsDrawnIfLaid answer → TellsDrawingIfLaid answer }
{}

/// Theorem: if memory suffices, a file that is read without error has one right entry for each record.
///
/// This holds for the books that `run_plain` or `run_batch` returns. The book of each file that opens and gives all its
/// bytes, and in which memory did not run out, has one entry for each record of these bytes, each once and in order,
/// and their ending as its mark. Each entry names the first rule that its record breaks, or gives an orthogonal
/// representation of its embedding and chosen outer face with the fewest bends, and coordinates that draw it without
/// crossings.
pub fn whole_run()
    ensures { (choice : Choice) (meaning : ℕ → Meaning) (files : ℕ) (books : List BookModel) (other : BookModel)
        → AreAllBooks choice meaning files books
        → (file : ℕ) (bytes : List ℕ)
        → file < files
        → meaning file ≡ Opened bytes false
        → HasMemory (slice_index_or books file other)
        → IsWholeRun choice file bytes (slice_index_or books file other) }
{}

/// Theorem: without a condition, what is picked from a complete file is the whole file, unless memory ran out for a
/// record.
pub fn all_of_a_file()
    ensures { (file : List ℕ) (records : List (List ℕ)) (book : FactBook)
        → IsSplit file records Ending.Complete
        → map (λ entry. entry.about.bytes) book.entries ≡ records
        → All (λ entry. entry.facts ≢ None) book.entries
        → picked_text (those_meeting no_condition) (book ∷ []) ≡ file }
{}
