//! Runs whose lanes give output lines, and records with their lines.
ghost use Rattle.std.specs.Prelude.{◌≡◌};
ghost use Rattle.std.proofs.Props.{props};
ghost use Rattle.planar_code.specs.Stream.{lists_of};
ghost use Rattle.reports.specs.Answers.{Answers};
ghost use Rattle.answers.specs.Steps.{answer_in, IsFoundFor, IsShaped};
ghost use Rattle.reports.specs.declared.answer.Entry.{Entry};
ghost use Rattle.lanes.specs.Opening.{IsPlacedAt, IsEndAt};
ghost use Rattle.reports.specs.Answered.{IsAnswer};
ghost use Rattle.collector.specs.Answered.{entry_of};
ghost use Rattle.collector.specs.FormLines.{IsLineOf};
ghost use Rattle.answers.specs.Spelt.{IsSpelt};
ghost use Rattle.common.specs.declared.parameters.DrawingKind.{DrawingKind};
ghost use Rattle.common.specs.declared.parameters.DrawingKind.TheVariants.{Quick};
ghost use Rattle.reports.specs.Lengths.{IfDrawn, IsQuick};
ghost use Rattle.answers.specs.Tasks.{about_in};

use crate::lines::{Line, answer_line, file_number};
use answers::{Answering, DrawScratch, PointsFound, Purpose, ShapedPlane, Task, find_points};
use common::{Choice, DrawingKind};
use embedding::ReadFault;
use file_order::{KnownEnd, KnownFiles, known_end};
use lanes::Numbered;
use planar_code::Record;
use reports::{Answer, Form, LaidGraph, ReportLine, Style, laid_line};
use std::alloc::Global;
use std::marker::PhantomData;
use std::snapshot::Snapshot;
use streams::SourceEnd;

/// A record of a file, and the output line of its answer.
///
/// The type guarantees that the record has its place in what the file means.
#[derive(Drop)]
pub struct Printed<J: KnownFiles> {
    /// The index of the file, from 0.
    pub file: u32,
    /// The index of the record in its file, from 0.
    pub ordinal: u32,
    /// The rule by which the outer face of its plane is chosen.
    pub choice: Choice,
    /// The output format of the line.
    pub form: Form,
    /// The line, or `None` if memory ran out for an answer or for its line.
    pub line: Option<Line>,
    /// The record. It exists only in proofs.
    pub rec: Snapshot<Record>,
    /// What was found for the record. It exists only in proofs.
    pub found: Snapshot<PointsFound>,
    pub known_files: PhantomData<J>,
    pub ghost answers: { ∥ Answers choice (lists_of rec.value) (answer_in found.value) ∥₁ },
    pub ghost rec_is: { IsSpelt rec.value } by { Prim.hlevel props },
    pub ghost line_is: { IsLineOf form (entry_of file ordinal rec.value choice (answer_in found.value) answers) line } by { Prim.hlevel props },
    pub ghost placed: { ∥ IsPlacedAt (J.meaning file) ordinal rec.value ∥₁ } by { Prim.hlevel props },
}

impl<J: KnownFiles + Send + Sync> Numbered for Printed<J> {
    ghost about = { λ p. record { file = p.file; ordinal = p.ordinal; bytes = p.rec.value; choice = p.choice } };

    /// The index of the record's file, from 0.
    fn file(&self) -> u32 {
        self.file
    }

    /// The index of the record in its file, from 0.
    fn ordinal(&self) -> u32 {
        self.ordinal
    }
}

/// Returns the output line, with a newline at its end, of a record with the result `found`, also if it breaks a rule.
/// `None` if memory ran out, for the result or for the line, or in JSON if `file` + 1 does not fit in 32 bits.
///
/// The record is number `ordinal`, from 0, of the file with index `file`. The line has the format `form`. A short line
/// of a report is not allocated.
pub fn found_line(
    alloc: Global,
    form: Form,
    file: u32,
    ordinal: u32,
    found: &PointsFound,
) -> Option<Line>
    requires { IsAnswer (answer_in found.now) }
    ensures { (entry : Entry) → entry.file ≡ file → entry.ordinal ≡ ordinal → entry.answer ≡ answer_in found.now
        → IsLineOf form entry result }
{
    let graph = u64::from(ordinal) + 1;
    match found {
        Ok((shaped_plane, points)) => match form {
            Form::Report => {
                let line = ReportLine::of_drawn(graph, &shaped_plane.plane, &shaped_plane.shape);
                Line::copied(alloc, line.as_slice()).ok()
            }
            Form::Json => {
                let laid = LaidGraph {
                    plane: &shaped_plane.plane,
                    shape: &shaped_plane.shape,
                    prices: &shaped_plane.prices,
                    drawing: Ok(points),
                };
                let text = laid_line(alloc, file_number(file).ok()?, graph, laid).ok()?;
                Some(Line::of(text))
            }
        },
        Err(ReadFault::Rule(rule)) => {
            answer_line(alloc, form, file, ordinal, &Answer::Refused(*rule)).ok()
        }
        Err(ReadFault::Memory) => None,
    }
}

/// The value that tells `run_lanes` to run lanes which make output lines in the format of `style`. Its drawing kind is
/// that of `style` in JSON, and `Quick` in a report. No lane is started.
///
/// The report shows no coordinates, so its lines are of quick drawings, whatever kind is asked for.
pub fn line_lanes<J: KnownFiles>(style: Style) -> Answering<PrintLines<J>>
    ensures form { result.purpose.form ≡ style.form }
    ensures report { style.form ≡ Form.Report → result.drawing_kind ≡ Quick }
    ensures json { style.form ≡ Form.Json → result.drawing_kind ≡ style.drawing_kind }
{
    let drawing_kind = match style.form {
        Form::Report => DrawingKind::Quick,
        Form::Json => style.drawing_kind,
    };
    Answering {
        purpose: PrintLines {
            form: style.form,
            known_files: PhantomData,
        },
        drawing_kind,
    }
}

/// The `Purpose` of runs whose lanes give output lines in a format.
///
/// The type guarantees that records have their places in what their files mean; nothing is carried of them once their
/// graphs are read.
#[derive(Drop)]
pub struct PrintLines<J: KnownFiles> {
    pub form: Form,
    pub known_files: PhantomData<J>,
}

impl<J: KnownFiles + Send + Sync> Purpose for PrintLines<J> {
    type Carried = Snapshot<Record>;

    type Entry = Printed<J>;

    type End = KnownEnd<J>;

    ghost accepts = { λ file place bytes. IsPlacedAt (J.meaning file) place bytes };

    ghost ends = { λ file count mark. IsEndAt (J.meaning file) count mark };

    /// The same purpose, for one record: a new value with the same format.
    fn of_record(&self) -> PrintLines<J> {
        let form = self.form;
        PrintLines {
            form,
            known_files: PhantomData,
        }
    }

    /// The `KnownEnd` of file `file`, with the number of records and the mark of `end`.
    fn end(file: u32, end: SourceEnd) -> KnownEnd<J> {
        known_end(file, end)
    }

    /// Finds points that draw `shaped_plane`, and returns the record's place and its output line, which is `None` if
    /// memory ran out for the answer or the line. The call uses the lists of `scratch`; those of the plane and of the
    /// points go there for reuse once the line is made.
    fn finish(
        self,
        alloc: Global,
        scratch: &mut DrawScratch,
        task: Task,
        rec: Snapshot<Record>,
        shaped_plane: Result<ShapedPlane, ReadFault>,
    ) -> Printed<J>
        requires known { ∥ IsPlacedAt (J.meaning task.file) task.ordinal rec.value × IsSpelt rec.value ∥₁ }
        requires shaped { ∥ IsShaped task.choice (lists_of rec.value) shaped_plane ∥₁ }
        ensures about { ⟦<Printed<J> as Numbered>⟧.about result ≡ about_in task rec.value }
        ensures found { IsFoundFor shaped_plane result.found.value }
        ensures quick { task.drawing_kind ≡ DrawingKind.Quick → IfDrawn IsQuick (answer_in result.found.value) }
        ensures form { result.form ≡ self.form }
    {
        let found = find_points(alloc, scratch, shaped_plane, task.drawing_kind);
        let line = found_line(alloc, self.form, task.file, task.ordinal, &found);
        let printed = Printed {
            file: task.file,
            ordinal: task.ordinal,
            choice: task.choice,
            form: self.form,
            line,
            rec,
            found: Snapshot::of(&found),
            known_files: PhantomData,
        };
        if let Ok((shaped_plane, points)) = found {
            scratch.take_back(shaped_plane, points);
        }
        printed
    }
}
