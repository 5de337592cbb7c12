//! The result of a run: a book for each file; how books are made of complete drafts; and the exit status of a whole
//! report. Also the style of the output and the limit of files.
ghost use Rattle.std.specs.Prelude.{◌≡◌, ◌<◌, ◌≤◌, length, slice_index_or, vec_len, ℕ, IfOk, IsSome, Some, ◌≢◌, ◌↔◌, IsTrue};
ghost use Rattle.reports.specs.declared.book.TheConstants.{MAX_FILES};
ghost use Rattle.reports.specs.Books.{BookModel, AreBooks};
ghost use Rattle.streams.specs.declared.frames.Mark.{Mark};
ghost use Rattle.common.specs.declared.parameters.Choice.{Choice};
ghost use Rattle.lanes.specs.Opening.{Meaning};
ghost use Rattle.lanes.specs.Files.{AreReady};
ghost use Rattle.reports.specs.Abouts.{about_of};

use crate::answer::Entry;
use common::DrawingKind;
use lanes::Draft;
use planar_code::Ending;
use std::alloc::{AllocError, Global};
use std::marker::Model;
use streams::{Form, Mark};

/// The output format of a run, and the kind of its drawings. Only JSON lines show coordinates.
#[derive(Clone, Copy, Debug, PartialEq, Eq)]
pub struct Style {
    pub form: Form,
    pub drawing_kind: DrawingKind,
}

/// The maximum number of files of a run.
pub const MAX_FILES: u32 = 256;

/// The entries of one file, one for each record and in order, and its mark. No accessor allocates.
#[derive(Drop)]
pub struct Book {
    entries: Vec<Entry>,
    mark: Mark,
}

impl Model for Book {
    ghost use Rattle.reports.specs.Books.{BookModel};

    ghost Value = { BookModel };

    ghost view = { λ b. record { entries = b.entries.items; mark = b.mark } };
}

impl Book {
    /// The book with these entries, one for each record in the order of the file, and this mark.
    pub fn new(entries: Vec<Entry>, mark: Mark) -> Book
        ensures { result ≡ record { entries = entries.items; mark = mark } }
    {
        Book { entries, mark }
    }

    /// The entries in the order of the file.
    pub fn entries(&self) -> &[Entry]
        ensures { result.now ≡ self.now.entries }
    {
        self.entries.as_slice()
    }

    /// How the file ended.
    pub fn mark(&self) -> Mark
        ensures { result ≡ self.now.mark }
    {
        self.mark
    }
}

/// The books of a run, one for each file, at most `MAX_FILES`.
///
/// In contracts it is the list of them. No accessor allocates.
#[derive(Drop)]
pub struct Batch {
    books: Vec<Book>,
}

impl Model for Batch {
    ghost use Rattle.std.specs.Prelude.{◌≤◌, List, length};
    ghost use Rattle.reports.specs.declared.book.TheConstants.{MAX_FILES};
    ghost use Rattle.reports.specs.Books.{BookModel};

    ghost Value = { List BookModel };

    ghost view = { λ b. b.books.items };

    ghost invariant = { λ b. length b.books.items ≤ MAX_FILES };
}

impl Batch {
    /// The batch with these books, one for each file, in order; there may be at most `MAX_FILES` of them.
    pub fn new(books: Vec<Book>) -> Batch
        requires { vec_len books ≤ MAX_FILES }
        ensures { result ≡ books.items }
    {
        Batch { books }
    }

    /// The number of files, at most `MAX_FILES`.
    pub fn files(&self) -> u32
        ensures count { result ≡ length self.now }
        ensures few { result ≤ MAX_FILES }
    {
        self.books.len() as u32
    }

    /// The book of the file with the index `file`, from 0, which must be below the number of files.
    pub fn book(&self, file: u32) -> &Book
        requires { file < length self.now }
        ensures { (other : BookModel) → result.now ≡ slice_index_or self.now file other }
    {
        &self.books[file as usize]
    }
}

/// The batch with a book for each of `drafts`, in order. It consumes the drafts, each of which must hold all entries
/// and the mark of its file. `AllocError` if there is no memory for the list of books; the drafts are then dropped.
///
/// # Errors
///
/// `AllocError` if there is no memory for the list of books.
pub fn books_of(alloc: Global, drafts: Vec<Draft<Entry>>) -> Result<Batch, AllocError>
    requires few { vec_len drafts ≤ MAX_FILES }
    requires ready { (choice : Choice) × (meaning : ℕ → Meaning) × AreReady about_of choice meaning 0 drafts.items }
    ensures count { IfOk result (λ books. length books ≡ vec_len drafts) }
    ensures books { IfOk result (λ books. (choice : Choice) (meaning : ℕ → Meaning)
        → AreReady about_of choice meaning 0 drafts.items → AreBooks choice meaning 0 books) }
{
    let mut books = Vec::with_capacity(alloc, drafts.len())?;
    for draft in drafts {
        books.push(book_of(draft))?;
    }
    Ok(Batch::new(books))
}

/// The book with the entries and the mark of a draft, which it consumes. The draft must have a mark.
fn book_of(draft: Draft<Entry>) -> Book
    requires { IsSome draft.mark }
    ensures { (mark : Mark) → draft.mark ≡ Some mark → result ≡ record { entries = draft.entries.items; mark = mark } }
{
    Book::new(draft.entries, draft.mark.unwrap())
}

/// The exit status for a file with this mark: 0 if the file ended complete, and otherwise 3.
pub fn status_of(mark: Mark) -> u8
    ensures complete { (result ≡ 0) ↔ (mark ≡ Mark.Ended Ending.Complete) }
    ensures other { mark ≢ Mark.Ended Ending.Complete → result ≡ 3 }
{
    if is_complete(mark) { 0 } else { 3 }
}

/// Whether a file with this mark ended complete.
fn is_complete(mark: Mark) -> bool
    ensures { IsTrue result ↔ (mark ≡ Mark.Ended Ending.Complete) }
{
    matches!(mark, Mark::Ended(Ending::Complete))
}
