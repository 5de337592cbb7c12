//! Records with their answers. By proof no answer has a cause in place of points (`answers_are_drawn`), but the formats
//! name the causes.
ghost use Rattle.std.specs.Prelude.{◌≡◌};
ghost use Rattle.planar_code.specs.Stream.{lists_of};
ghost use Rattle.reports.specs.Answers.{Answers};

use common::Choice;
use drawing_check::Drawing;
use embedding::Rule;
use faces::Plane;
use lanes::Numbered;
use ortho_rep::{Prices, Shape};
use planar_code::Record;

/// The reason why the shape of a record's plane has no drawing.
#[derive(Clone, Copy, Debug, PartialEq, Eq)]
pub enum Cause {
    /// Its boxes have no coordinates that are all at most 65,535.
    Wide,
    /// Some coordinate is above 65,535.
    OutOfGrid,
    /// A part of an edge is not parallel to an axis.
    NotAxis,
    /// A corner or an angle is not that of the shape.
    WrongTurn,
    /// A grid point is used twice.
    Meet,
}

impl Cause {
    ghost use Rattle.reports.specs.CauseWords.{word_of};

    /// The word for the cause in reports and JSON lines: `wide`, `outofgrid`, `notaxis`, `wrongturn` or `meet`.
    pub fn word(self) -> &'static str
        ensures { result.now ≡ word_of self }
    {
        match self {
            Cause::Wide => "wide",
            Cause::OutOfGrid => "outofgrid",
            Cause::NotAxis => "notaxis",
            Cause::WrongTurn => "wrongturn",
            Cause::Meet => "meet",
        }
    }
}

/// The answer to a record: its drawing and the proof of its bends, the rule it breaks, or out of memory.
#[derive(Drop)]
pub enum Answer {
    /// The answer to a record that breaks no rule.
    Laid {
        /// The plane: the record's neighbour lists with their faces and the chosen outer face.
        plane: Plane,
        /// An orthogonal representation of the plane with the fewest bends.
        shape: Shape,
        /// The dual prices that prove that the shape has the fewest bends.
        prices: Prices,
        /// Coordinates that draw the shape, or the cause why there are none.
        drawing: Result<Drawing, Cause>,
    },
    /// The first rule that the record breaks.
    Refused(Rule),
    /// Memory ran out.
    NoMemory,
}

/// A record of a file and its answer.
#[derive(Drop)]
pub struct Entry {
    /// The index of the file, from 0.
    pub file: u32,
    /// The index of the record in its file, from 0.
    pub ordinal: u32,
    pub rec: Record,
    /// The rule by which the outer face of its plane is chosen.
    pub choice: Choice,
    pub answer: Answer,
    pub ghost answers: { ∥ Answers choice (lists_of rec) answer ∥₁ },
}

impl Numbered for Entry {
    ghost about = { λ e. record { file = e.file; ordinal = e.ordinal; bytes = e.rec; choice = e.choice } };

    /// The index of the record's file, from 0.
    fn file(&self) -> u32 {
        self.file
    }

    /// The index of the record in its file, from 0.
    fn ordinal(&self) -> u32 {
        self.ordinal
    }
}
