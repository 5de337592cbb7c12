//! Laws, each as the contract of a function that does nothing: what is left of the causes that boxes may show in place
//! of a drawing, and that no answer has a cause in place of points.
ghost use Rattle.std.specs.Prelude.{◌≡◌, ◌+◌, ◌≤◌, ℕ, List, Err, Result, Ok};
ghost use Rattle.common.specs.declared.parameters.Choice.{Choice};
ghost use Rattle.faces.specs.Planes.{PlaneModel, IsPlane};
ghost use Rattle.ortho_rep.specs.declared.grid_points.TheConstants.{MAX_COORDINATE};
ghost use Rattle.ortho_rep.specs.Shapes.{ShapeModel};
ghost use Rattle.ortho_rep.specs.Points.{PointsModel};
ghost use Rattle.ortho_rep.specs.Prices.{PricesModel};
ghost use Rattle.ortho_rep.specs.Representation.{IsLeast};
ghost use Rattle.drawing_check.specs.Draws.{AreInGrid};
ghost use Rattle.dissect.specs.Boxes.{BoxesModel, AreBoxes};
ghost use Rattle.dissect.specs.Boxed.{IsBoxed};
ghost use Rattle.dissect.specs.Monotone.{AreLeastPoints};
ghost use Rattle.reports.specs.declared.answer.Cause.{Cause};
ghost use Rattle.reports.specs.Drawn.{ShowsCause, IsDrawingOf};
ghost use Rattle.reports.specs.Answers.{IsLaid, Answers};
ghost use Rattle.drawing_laws.specs.Least.{HasNoCoordinates};
ghost use Rattle.answers.specs.Remaining.{MayShow};
ghost use Rattle.reports.specs.declared.answer.Answer.{Answer};
ghost use Rattle.answers.specs.DrawnAnswers.{IsDrawnIfLaid};

/// Theorem: least points and their corners are within the grid, so boxes of a shape never show the cause `OutOfGrid`.
pub fn least_points_are_in_grid()
    ensures points { (b : BoxesModel) (points : PointsModel) → AreBoxes b → AreLeastPoints b points → AreInGrid points }
    ensures cause { (plane : PlaneModel) (shape : ShapeModel) (b : BoxesModel)
        → IsBoxed plane shape b → ¬ ShowsCause plane shape b Cause.OutOfGrid }
{}

/// Theorem: boxes with at most 65,536 vertices show the cause `Wide` only if no coordinates grow along their darts, and
/// never `OutOfGrid`.
///
/// The grid has 65,536 columns. The boxes of a shape with the fewest bends have fewer vertices, so this holds for each
/// cause in place of points in a laid answer.
pub fn remaining_causes()
    ensures vertices { (plane : PlaneModel) (shape : ShapeModel) (b : BoxesModel) (cause : Cause)
        → IsBoxed plane shape b → b.vertices ≤ MAX_COORDINATE + 1
        → ShowsCause plane shape b cause → MayShow b cause }
    ensures least { (plane : PlaneModel) (shape : ShapeModel) (b : BoxesModel) (cause : Cause)
        → IsPlane plane → IsLeast plane shape → IsBoxed plane shape b
        → ShowsCause plane shape b cause → MayShow b cause }
    ensures laid { (choice : Choice) (g : List (List ℕ)) (plane : PlaneModel) (shape : ShapeModel) (prices : PricesModel) (cause : Cause)
        → IsLaid choice g plane shape prices (Err cause)
        → (boxes : BoxesModel) × IsBoxed plane shape boxes × MayShow boxes cause }
{}

/// Theorem: the only cause that boxes of a shape can show is `Wide`, since their least points draw the shape.
///
/// In place of points a laid answer has it only if some boxes of its shape have no coordinates that grow along their
/// darts at all.
pub fn only_wide()
    ensures shown { (plane : PlaneModel) (shape : ShapeModel) (b : BoxesModel) (cause : Cause)
        → IsPlane plane → IsBoxed plane shape b → ShowsCause plane shape b cause → cause ≡ Cause.Wide }
    ensures laid { (choice : Choice) (g : List (List ℕ)) (plane : PlaneModel) (shape : ShapeModel) (prices : PricesModel) (cause : Cause)
        → IsLaid choice g plane shape prices (Err cause)
        → (boxes : BoxesModel) × IsBoxed plane shape boxes × HasNoCoordinates boxes × (cause ≡ Cause.Wide) }
{}

/// Theorem: boxes that dissect a shape with the fewest bends have a drawing: they show no cause.
///
/// Some coordinates grow along their darts, so the least ones are within the grid, and points that are derived from
/// these draw the shape.
pub fn no_cause_is_shown()
    ensures { (plane : PlaneModel) (shape : ShapeModel) (b : BoxesModel) (cause : Cause)
        → IsPlane plane → IsLeast plane shape → IsBoxed plane shape b → ¬ ShowsCause plane shape b cause }
{}

/// Theorem: a laid answer has points that draw its shape, with each face where it belongs, and never a cause.
pub fn laid_answers_are_drawn()
    ensures cause { (choice : Choice) (g : List (List ℕ)) (plane : PlaneModel) (shape : ShapeModel) (prices : PricesModel) (cause : Cause)
        → ¬ IsLaid choice g plane shape prices (Err cause) }
    ensures points { (choice : Choice) (g : List (List ℕ)) (plane : PlaneModel) (shape : ShapeModel) (prices : PricesModel) (drawing : Result PointsModel Cause)
        → IsLaid choice g plane shape prices drawing
        → (points : PointsModel) × (drawing ≡ Ok points) × IsDrawingOf plane shape points }
{}

/// Theorem: an answer to a graph has a drawing of its shape if it is `Laid`.
pub fn answers_are_drawn()
    ensures { (choice : Choice) (g : List (List ℕ)) (answer : Answer) → Answers choice g answer → IsDrawnIfLaid answer }
{}
