//! Parsing of the command line.
ghost use Rattle.std.specs.Prelude.{◌≡◌, ◌≢◌, ◌<◌, ◌≤◌, ◌↔◌, ◌||◌, ℕ, Err, IfErr, IfOk, IfNone, IfSome, length, map, option_map, true, false};
ghost use Rattle.std.specs.List.{count_by};
ghost use Rattle.common.specs.declared.parameters.Choice.{Choice};
ghost use Rattle.streams.specs.declared.frames.Form.{Form};
ghost use Rattle.command_line.specs.declared.reading.Keyword.{Keyword};
ghost use Rattle.command_line.specs.declared.request.ParseFault.{ParseFault};
ghost use Rattle.command_line.specs.declared.request.RunRequest.{RunRequest};
ghost use Rattle.command_line.specs.Requests.{AreValid, AsksNothing, AsksRun, HasWaiting, IsAskedBy, IsNumberOf, IsWaiting, IsWaitingIn, asks_in, drawing_in, files_in};
ghost use Rattle.named_sources.specs.Naming as naming;

use crate::help::describe;
use crate::progress::Progress;
use crate::reading::{
    Keyword, Setting, are_valid, asks, files_of, inputs_among, setting_text, uses,
};
use crate::selecting::{columns_of, selection_of, value_fault};
use clap::Error;
use clap::error::ErrorKind;
use common::{Choice, DrawingKind};
use graph_facts::{Columns, Selection};
use reports::{Form, Style};
use std::alloc::{AllocError, Global};

/// The request that a command line makes.
#[derive(Drop)]
pub enum Request<'a> {
    /// The records of one file (the command `frames`).
    Frames { name: &'a str },
    /// Answers to the records of files (the command `layout`).
    Layout(LayoutRequest<'a>),
    /// Verdicts on drawings (the command `check`).
    Check(CheckRequest<'a>),
    /// The records of the graphs that are selected (the command `pick`).
    Pick(PickRequest<'a>),
    /// The numbers of the graphs that are selected (the command `count`).
    Count(CountRequest<'a>),
}

/// The files of a run, and the options that each run has.
#[derive(Drop)]
pub struct RunRequest<'a> {
    /// The files, in order.
    pub names: Vec<&'a str>,
    /// The number of lanes that work on them.
    pub lanes: u32,
    /// The rule by which the outer face of each plane is chosen.
    pub choice: Choice,
    /// Whether and where progress is shown.
    pub progress: Progress,
}

/// The options and files of the command `layout`.
#[derive(Drop)]
pub struct LayoutRequest<'a> {
    pub run: RunRequest<'a>,
    /// The limit on buffered text of later files, in megabytes, from which on their reading pauses.
    pub waiting: u32,
    /// The output format, and the kind of its drawings.
    pub style: Style,
}

/// The options and files of the command `check`.
#[derive(Clone, Copy)]
pub struct CheckRequest<'a> {
    /// The planar_code file of the graphs.
    pub graphs: &'a str,
    /// The file with a drawing of each graph, one per line.
    pub lines: &'a str,
    /// The output format.
    pub form: Form,
    /// Whether each region must also be its face.
    pub faces: bool,
}

/// The options and files of the command `pick`.
#[derive(Drop)]
pub struct PickRequest<'a> {
    pub run: RunRequest<'a>,
    /// The limit on buffered records of later files, in megabytes, from which on their reading pauses.
    pub waiting: u32,
    /// The graphs that are selected.
    pub selection: Selection,
}

/// The options and files of the command `count`.
#[derive(Drop)]
pub struct CountRequest<'a> {
    pub run: RunRequest<'a>,
    /// The graphs that are selected.
    pub selection: Selection,
    /// The columns of the table.
    pub columns: Columns,
}

/// The reason why the arguments make no request.
#[derive(Drop)]
pub enum ParseFault {
    /// Memory ran out for the list of files.
    Memory,
    /// There are no arguments.
    NoArguments,
    /// They ask for help.
    Help,
    /// The value of `--waiting` is not 1 to 65536.
    BadWaiting,
    /// The error of `clap`: why they are not valid; or, of the kind `OutOfMemory`, that memory ran out for the message.
    Told(Error),
}

/// The request that `words`, the arguments after the program's name, make. `Memory` if memory runs out for the files;
/// otherwise, if they make none: `NoArguments` if there are no words, `Help` if clap gives help for them, `BadWaiting`
/// if only the value of `--waiting` is bad, else `Told`, also if memory runs out for its message.
///
/// A `layout`, a `pick` and a `count` have at least one file, a `check` two, and they have standard input at most once.
/// The number of lanes is not checked: one that is not a number is 0.
///
/// # Errors
///
/// `Memory` if memory runs out for the list of files. Otherwise the arguments ask for nothing, and the fault says why:
/// `NoArguments`, `Help`, `BadWaiting` if only the value of `--waiting` is bad, and otherwise `Told`.
pub fn parse<'a>(alloc: Global, words: &'a [String]) -> Result<Request<'a>, ParseFault>
    ensures asked { IfOk result (IsAskedBy words.now) }
    ensures waits { IfOk result HasWaiting }
    ensures refused { IfErr result (λ fault. fault ≢ ParseFault.Memory → AsksNothing words.now) }
    ensures help { result ≡ Err ParseFault.Help → asks_in Keyword.Help words.now ≡ true }
{
    let Ok(files) = files_of(alloc, words) else {
        return Err(ParseFault::Memory);
    };
    match request_of(words, files) {
        Some(request) => Ok(request),
        None => Err(fault_of(alloc, words)),
    }
}

/// The fault to report for `words`, which must make no request: `NoArguments`, `Help`, `BadWaiting`, or `Told` with an
/// error of clap. If memory runs out, it is `Told` with an error of the kind `OutOfMemory`, and never `Memory`.
fn fault_of(alloc: Global, words: &[String]) -> ParseFault
    ensures known { result ≢ ParseFault.Memory }
    ensures help { result ≡ ParseFault.Help → asks_in Keyword.Help words.now ≡ true }
{
    if words.is_empty() {
        return ParseFault::NoArguments;
    }
    let error = match clap_error(alloc, words) {
        Ok(Some(error)) => error,
        Ok(None) => return ParseFault::BadWaiting,
        Err(error) => error,
    };
    if error.kind() == ErrorKind::DisplayHelp && asks(Keyword::Help, words) {
        return ParseFault::Help;
    }
    ParseFault::Told(error)
}

/// The error of clap to report for `words`, which must make no request: `Err` if clap refuses them or gives help, or if
/// memory runs out (kind `OutOfMemory`); otherwise `Ok(Some)` with the reason that was found after clap. `Ok(None)` if
/// only the value of `--waiting` is bad.
///
/// # Errors
///
/// The error of clap: the help, if it is asked for; the reason why the arguments are refused; or that memory ran out,
/// of the kind `OutOfMemory`.
fn clap_error(alloc: Global, words: &[String]) -> Result<Option<Error>, Error> {
    let mut program = describe(alloc)?;
    program.try_get_matches_from_mut(words)?;
    let files = files_of(alloc, words)?;
    if inputs_among(files.as_slice()) > 1 {
        return Ok(Some(program.error(ErrorKind::ArgumentConflict, INPUT_TWICE)?));
    }
    if lacks_json(words) {
        return Ok(Some(program.error(ErrorKind::MissingRequiredArgument, DRAWING_ALONE)?));
    }
    if let Some(message) = value_fault(alloc, words)? {
        return Ok(Some(program.error(ErrorKind::ValueValidation, message.as_str())?));
    }
    if waiting_of(words).is_none() {
        return Ok(None);
    }
    // Clap refuses all other arguments that make no request, except some that ask for help.
    Ok(Some(program.error(ErrorKind::MissingRequiredArgument, "a file is missing")?))
}

/// The request that `words` make; `files` must be the files that they name, in order. `None` if they ask for help, name
/// no command, or if an option, a value or the number of files is not valid, or standard input is named twice.
fn request_of<'a>(words: &[String], files: Vec<&'a str>) -> Option<Request<'a>>
    requires files { map (λ file. file.now) files.items ≡ files_in words.now }
    ensures some { IfSome result (IsAskedBy words.now) }
    ensures none { IfNone result (AsksNothing words.now) }
{
    if asks(Keyword::Help, words) {
        return None;
    }
    if asks(Keyword::Frames, words) {
        return frames_of(words, files.as_slice());
    }
    if asks(Keyword::Check, words) {
        return check_of(words, files.as_slice());
    }
    if asks(Keyword::Layout, words) {
        return layout_of(words, files);
    }
    if asks(Keyword::Pick, words) {
        return pick_of(words, files);
    }
    if asks(Keyword::Count, words) {
        return count_of(words, files);
    }
    None
}

/// The request that `words`, whose command is `frames`, make; `files` must be the files that they name. `None` if the
/// words are not valid, or if there is not exactly one file.
fn frames_of<'a>(words: &[String], files: &[&'a str]) -> Option<Request<'a>>
    requires command { asks_in Keyword.Frames words.now ≡ true }
    requires no_help { asks_in Keyword.Help words.now ≡ false }
    requires files { map (λ file. file.now) files.now ≡ files_in words.now }
    ensures some { IfSome result (IsAskedBy words.now) }
    ensures none { IfNone result (AsksNothing words.now) }
{
    if !are_valid(Keyword::Frames, words) {
        return None;
    }
    match files {
        [name] => Some(Request::Frames { name: *name }),
        _ => None,
    }
}

/// The request that `words`, whose command is `check`, make; `files` must be the files that they name. `None` if the
/// words are not valid, if there are not exactly two files, or if both are standard input.
fn check_of<'a>(words: &[String], files: &[&'a str]) -> Option<Request<'a>>
    requires command { asks_in Keyword.Check words.now ≡ true }
    requires no_help { asks_in Keyword.Help words.now ≡ false }
    requires files { map (λ file. file.now) files.now ≡ files_in words.now }
    ensures some { IfSome result (IsAskedBy words.now) }
    ensures none { IfNone result (AsksNothing words.now) }
{
    if !are_valid(Keyword::Check, words) {
        return None;
    }
    if !has_files(files) {
        return None;
    }
    match files {
        [graphs, lines] => Some(Request::Check(CheckRequest {
            graphs: *graphs,
            lines: *lines,
            form: form_of(words),
            faces: asks(Keyword::Faces, words),
        })),
        _ => None,
    }
}

/// The request that `words`, whose command is `layout`, make; `files` must be the files that they name. `None` if the
/// words are not valid, if there is no file or standard input is named twice, if `--waiting` is out of range, or if
/// they have `--drawing` without `--json`. A bad value of `--lanes` gives 0 lanes.
fn layout_of<'a>(words: &[String], files: Vec<&'a str>) -> Option<Request<'a>>
    requires command { asks_in Keyword.Layout words.now ≡ true }
    requires no_help { asks_in Keyword.Help words.now ≡ false }
    requires files { map (λ file. file.now) files.items ≡ files_in words.now }
    ensures some { IfSome result (IsAskedBy words.now) }
    ensures none { IfNone result (AsksNothing words.now) }
{
    let run = run_of(Keyword::Layout, words, files)?;
    let waiting = waiting_of(words)?;
    if lacks_json(words) {
        return None;
    }
    Some(Request::Layout(LayoutRequest {
        run,
        waiting,
        style: Style {
            form: form_of(words),
            drawing_kind: drawing_of(words),
        },
    }))
}

/// The request that `words`, whose command is `pick`, make; `files` must be the files that they name. `None` if the
/// words are not valid, if there is no file or standard input is named twice, or if the value of `--waiting` or of a
/// condition is not valid. A bad value of `--lanes` gives 0 lanes.
fn pick_of<'a>(words: &[String], files: Vec<&'a str>) -> Option<Request<'a>>
    requires command { asks_in Keyword.Pick words.now ≡ true }
    requires no_help { asks_in Keyword.Help words.now ≡ false }
    requires files { map (λ file. file.now) files.items ≡ files_in words.now }
    ensures some { IfSome result (IsAskedBy words.now) }
    ensures none { IfNone result (AsksNothing words.now) }
{
    let run = run_of(Keyword::Pick, words, files)?;
    let waiting = waiting_of(words)?;
    let selection = selection_of(words)?;
    Some(Request::Pick(PickRequest {
        run,
        waiting,
        selection,
    }))
}

/// The request that `words`, whose command is `count`, make; `files` must be the files that they name. `None` if the
/// words are not valid, if there is no file or standard input is named twice, or if the value of a condition or of
/// `--by` is not valid. A bad value of `--lanes` gives 0 lanes.
fn count_of<'a>(words: &[String], files: Vec<&'a str>) -> Option<Request<'a>>
    requires command { asks_in Keyword.Count words.now ≡ true }
    requires no_help { asks_in Keyword.Help words.now ≡ false }
    requires files { map (λ file. file.now) files.items ≡ files_in words.now }
    ensures some { IfSome result (IsAskedBy words.now) }
    ensures none { IfNone result (AsksNothing words.now) }
{
    let run = run_of(Keyword::Count, words, files)?;
    let selection = selection_of(words)?;
    let columns = columns_of(setting_text(Setting::By, words))?;
    Some(Request::Count(CountRequest {
        run,
        selection,
        columns,
    }))
}

/// The run over `files` that `words`, arguments of the command `command`, ask for: with 1 lane if they have no
/// `--lanes`, and with 0 if its value is no number. `None` if they are not valid, there are no files, or standard input
/// is named twice.
fn run_of<'a>(command: Keyword, words: &[String], files: Vec<&'a str>) -> Option<RunRequest<'a>>
    requires no_help { asks_in Keyword.Help words.now ≡ false }
    requires files { map (λ file. file.now) files.items ≡ files_in words.now }
    ensures valid { IfSome result (λ _. AreValid command words.now) }
    ensures asked { IfSome result (AsksRun words.now) }
    ensures none { IfNone result (AreValid command words.now → (run : RunRequest) → ¬ AsksRun words.now run) }
{
    if !are_valid(command, words) {
        return None;
    }
    if !has_files(files.as_slice()) {
        return None;
    }
    Some(RunRequest {
        names: files,
        lanes: number_or(1, setting_text(Setting::Lanes, words)),
        choice: choice_of(words),
        progress: Progress::of_count(uses("--progress", words)),
    })
}

/// Whether there is at least one file in `files`, and at most one of them is standard input.
fn has_files(files: &[&str]) -> bool
    ensures { (result ≡ true) ↔ ((0 < length files.now) × (count_by naming.is_input (map (λ file. file.now) files.now) ≤ 1)) }
{
    !files.is_empty() && inputs_among(files) <= 1
}

/// The value of `--waiting` that `words` give, in megabytes, or 64 if they give none; `None` if it is no number from 1
/// to 65,536.
fn waiting_of(words: &[String]) -> Option<u32>
    ensures asked { IfSome result (IsWaitingIn words.now) }
    ensures in_range { IfSome result IsWaiting }
    ensures none { IfNone result ((waiting : ℕ) → IsWaitingIn words.now waiting → ¬ IsWaiting waiting) }
{
    let waiting = number_or(64, setting_text(Setting::Waiting, words));
    if 1 <= waiting && waiting <= GREATEST_WAITING {
        return Some(waiting);
    }
    None
}

/// The number that `text` contains, 0 if it contains no number of 32 bits; `otherwise` if `text` is `None`.
fn number_or(otherwise: u32, text: Option<&str>) -> u32
    ensures { IsNumberOf otherwise (option_map (λ t. t.now) text.entry) result }
{
    match text {
        Some(text) => text.parse::<u32>().unwrap_or(0),
        None => otherwise,
    }
}

/// Whether `words` name a kind of drawing with `--drawing` and do not have `--json`.
fn lacks_json(words: &[String]) -> bool
    ensures lacks { result ≡ true
        → ((asks_in Keyword.ShortDrawing words.now || asks_in Keyword.QuickDrawing words.now) ≡ true) × (asks_in Keyword.Json words.now ≡ false) }
    ensures has { result ≡ false
        → (asks_in Keyword.ShortDrawing words.now || asks_in Keyword.QuickDrawing words.now) ≡ true → asks_in Keyword.Json words.now ≡ true }
{
    let names_drawing = asks(Keyword::ShortDrawing, words) || asks(Keyword::QuickDrawing, words);
    names_drawing && !asks(Keyword::Json, words)
}

/// The choice of the outer face that `words` ask for: `Best` if they give `best` for `--outer`, and otherwise `First`.
fn choice_of(words: &[String]) -> Choice
    ensures { (result ≡ Choice.Best) ↔ (asks_in Keyword.BestOuter words.now ≡ true) }
{
    if asks(Keyword::BestOuter, words) {
        Choice::Best
    } else {
        Choice::First
    }
}

/// The output format that `words` ask for: `Json` if they have `--json`, and otherwise `Report`.
fn form_of(words: &[String]) -> Form
    ensures { (result ≡ Form.Json) ↔ (asks_in Keyword.Json words.now ≡ true) }
{
    if asks(Keyword::Json, words) {
        Form::Json
    } else {
        Form::Report
    }
}

/// The kind of drawing that `words` ask for with `--drawing`; without it, `Short` if they have `--json`, and otherwise
/// `Quick`.
fn drawing_of(words: &[String]) -> DrawingKind
    ensures { result ≡ drawing_in words.now }
{
    let is_quick = asks(Keyword::QuickDrawing, words) || !asks(Keyword::Json, words);
    if asks(Keyword::ShortDrawing, words) || !is_quick {
        DrawingKind::Short
    } else {
        DrawingKind::Quick
    }
}

/// The maximum limit on buffered text, in megabytes.
const GREATEST_WAITING: u32 = 65_536;

/// The error message for a kind of drawing with the report.
const DRAWING_ALONE: &str = "--drawing needs --json: the report has no drawings";

/// The error message for standard input named twice.
const INPUT_TWICE: &str = "'-' (standard input) may be given only once";
