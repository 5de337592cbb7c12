//! The lines of verdicts, and their words.
ghost use Rattle.std.specs.Prelude.{◌≡◌, ◌+◌, ◌≤◌, ◌++◌, length};
ghost use Rattle.streams.specs.declared.output.TheConstants.{ROOM, LINE};
ghost use Rattle.checking.specs.Words.{line_word, drawn_word, claim_word, word_of};
ghost use Rattle.checking.specs.Text.{count_text, place_text, counts_text, result_text, head_text, tail_text, verdict_line, mark_text, last_line};

use crate::json::LineFault;
use crate::judging::Verdict;
use referee::{FalseClaim, Fault};
use streams::{Form, Mark, TextBuffer, mark_word};

/// The word in a verdict for a line that describes no drawing: `line=` and a word for the fault (`malformed`, `points`,
/// `range`, `angles`, `turns` or `prices`), or only `memory` for the fault `Memory`. It has at most 24 bytes.
fn line_word(fault: LineFault) -> &'static str
    ensures word { result.now ≡ line_word fault }
    ensures short { length result.now ≤ 24 }
{
    match fault {
        LineFault::Malformed => "line=malformed",
        LineFault::Points => "line=points",
        LineFault::Number => "line=range",
        LineFault::Angles => "line=angles",
        LineFault::Turns => "line=turns",
        LineFault::Prices => "line=prices",
        LineFault::Memory => "memory",
    }
}

/// The word in a verdict for points that draw no embedding: `drawn=` and a word for the fault, such as `drawn=grid`, or
/// only `embedding`, `outer` or `memory` for these faults. It has at most 24 bytes.
fn drawn_word(fault: Fault) -> &'static str
    ensures word { result.now ≡ drawn_word fault }
    ensures short { length result.now ≤ 24 }
{
    match fault {
        Fault::Vertices => "drawn=vertices",
        Fault::Edges => "drawn=edges",
        Fault::Long { .. } => "drawn=long",
        Fault::VertexOutOfGrid { .. } => "drawn=grid",
        Fault::CornerOutOfGrid { .. } => "drawn=grid",
        Fault::NotAxis { .. } => "drawn=axes",
        Fault::NoTurn { .. } => "drawn=turn",
        Fault::Embedding { .. } => "embedding",
        Fault::Outer => "outer",
        Fault::Meet => "drawn=meet",
        Fault::Memory => "memory",
    }
}

/// The word in a verdict for a claim that does not hold: `claim=` and the name of its field. It has at most 24 bytes.
fn claim_word(claim: FalseClaim) -> &'static str
    ensures word { result.now ≡ claim_word claim }
    ensures short { length result.now ≤ 24 }
{
    match claim {
        FalseClaim::Angles => "claim=angles",
        FalseClaim::Turns => "claim=turns",
        FalseClaim::Prices => "claim=prices",
        FalseClaim::Bends => "claim=bends",
        FalseClaim::Outer => "claim=outer",
    }
}

/// Appends the word of a verdict to `lines`, for `Refused` that of the rule after `refused `: at most 24 bytes, which
/// must be free in `lines`.
pub(crate) fn push_word(lines: &mut TextBuffer, verdict: Verdict)
    requires { length lines.old + 24 ≤ ROOM }
    ensures text { lines.new ≡ lines.old ++ word_of verdict }
    ensures short { length lines.new ≤ length lines.old + 24 }
{
    match verdict {
        Verdict::Refused(rule) => {
            lines.push(b"refused ");
            lines.push(rule.word().as_bytes());
        }
        Verdict::Missing => lines.push(b"line=missing"),
        Verdict::Unread => lines.push(b"line=unread"),
        Verdict::Line(fault) => lines.push(line_word(fault).as_bytes()),
        Verdict::Drawn(fault) => lines.push(drawn_word(fault).as_bytes()),
        Verdict::Regions => lines.push(b"regions"),
        Verdict::Claim(claim) => lines.push(claim_word(claim).as_bytes()),
        Verdict::Ok { .. } => lines.push(b"ok"),
        Verdict::Memory => lines.push(b"memory"),
    }
}

/// Appends the verdict on the graph with this number to `lines`, as a line of a report or a JSON object, with its
/// newline. `LINE` bytes must be free in `lines`.
///
/// There must be room for a line.
pub(crate) fn push_verdict(lines: &mut TextBuffer, form: Form, number: u64, verdict: Verdict)
    requires { length lines.old + LINE ≤ ROOM }
    ensures { lines.new ≡ lines.old ++ verdict_line form number verdict }
{
    push_head(lines, form, number);
    push_result(lines, form, verdict);
    push_counts(lines, form, verdict);
    push_tail(lines, form);
}

/// Appends the last line to `lines`, with its newline: the word of the graph file's mark, its number of graphs, and
/// `surplus`, the number of lines without a graph. `LINE` bytes must be free in `lines`.
///
/// There must be room for a line.
pub(crate) fn push_end(lines: &mut TextBuffer, form: Form, mark: Mark, graphs: u64, surplus: u64)
    requires { length lines.old + LINE ≤ ROOM }
    ensures { lines.new ≡ lines.old ++ last_line form mark graphs surplus }
{
    push_mark(lines, form, mark);
    push_count(lines, form, b"graphs", graphs);
    push_count(lines, form, b"surplus", surplus);
    push_tail(lines, form);
}

/// Appends the beginning of the line of the graph with this number to `lines`: `graph NUMBER`, in JSON
/// `{"graph":NUMBER`. These are at most 60 bytes, which must be free in `lines`.
fn push_head(lines: &mut TextBuffer, form: Form, number: u64)
    requires { length lines.old + 60 ≤ ROOM }
    ensures text { lines.new ≡ lines.old ++ head_text form number }
    ensures short { length lines.new ≤ length lines.old + 60 }
{
    match form {
        Form::Report => lines.push(b"graph "),
        Form::Json => lines.push(b"{\"graph\":"),
    }
    lines.push_number(number);
}

/// Appends a space and the word of a verdict to `lines`; in JSON a comma and `ok` with true or false, and if false,
/// also `fault` with the word. These are at most 60 bytes, which must be free in `lines`.
fn push_result(lines: &mut TextBuffer, form: Form, verdict: Verdict)
    requires { length lines.old + 60 ≤ ROOM }
    ensures text { lines.new ≡ lines.old ++ result_text form verdict }
    ensures short { length lines.new ≤ length lines.old + 60 }
{
    match form {
        Form::Report => {
            lines.push(b" ");
            push_word(lines, verdict);
        }
        Form::Json => match verdict {
            Verdict::Ok { .. } => lines.push(b",\"ok\":true"),
            _ => {
                lines.push(b",\"ok\":false,\"fault\":\"");
                push_word(lines, verdict);
                lines.push(b"\"");
            }
        },
    }
}

/// Appends the numbers of a verdict to `lines`: for `Ok` its bends and the fewest bends, for `Drawn` the place of the
/// fault, and nothing for others. These are at most 120 bytes, which must be free in `lines`.
fn push_counts(lines: &mut TextBuffer, form: Form, verdict: Verdict)
    requires { length lines.old + 120 ≤ ROOM }
    ensures text { lines.new ≡ lines.old ++ counts_text form verdict }
    ensures short { length lines.new ≤ length lines.old + 120 }
{
    match verdict {
        Verdict::Ok { bends, fewest } => {
            push_count(lines, form, b"bends", u64::from(bends));
            push_count(lines, form, b"fewest", u64::from(fewest));
        }
        Verdict::Drawn(fault) => push_place(lines, form, fault),
        _ => {}
    }
}

/// Appends the place of a fault to `lines`: its vertex, its edge, or its edge with a corner or part; nothing if the
/// fault has no place. These are at most 120 bytes, which must be free in `lines`.
fn push_place(lines: &mut TextBuffer, form: Form, fault: Fault)
    requires { length lines.old + 120 ≤ ROOM }
    ensures text { lines.new ≡ lines.old ++ place_text form fault }
    ensures short { length lines.new ≤ length lines.old + 120 }
{
    match fault {
        Fault::Long { edge } => push_count(lines, form, b"edge", u64::from(edge)),
        Fault::VertexOutOfGrid { vertex } | Fault::Embedding { vertex } => {
            push_count(lines, form, b"vertex", u64::from(vertex));
        }
        Fault::CornerOutOfGrid { edge, corner } | Fault::NoTurn { edge, corner } => {
            push_count(lines, form, b"edge", u64::from(edge));
            push_count(lines, form, b"corner", corner as u64);
        }
        Fault::NotAxis { edge, part } => {
            push_count(lines, form, b"edge", u64::from(edge));
            push_count(lines, form, b"part", part as u64);
        }
        _ => {}
    }
}

/// Appends a key and a number to `lines`: ` KEY=NUMBER`, in JSON `,"KEY":NUMBER`. The key may have at most 8 bytes.
/// These are at most 60 bytes, which must be free in `lines`.
fn push_count(lines: &mut TextBuffer, form: Form, key: &[u8], number: u64)
    requires room { length lines.old + 60 ≤ ROOM }
    requires key { length key.now ≤ 8 }
    ensures text { lines.new ≡ lines.old ++ count_text form key.now number }
    ensures short { length lines.new ≤ length lines.old + 60 }
{
    match form {
        Form::Report => {
            lines.push(b" ");
            lines.push(key);
            lines.push(b"=");
        }
        Form::Json => {
            lines.push(b",\"");
            lines.push(key);
            lines.push(b"\":");
        }
    }
    lines.push_number(number);
}

/// Appends the beginning of the last line to `lines`, with the word of the mark: `end WORD`, in JSON `{"end":"WORD"`.
/// These are at most 60 bytes, which must be free in `lines`.
fn push_mark(lines: &mut TextBuffer, form: Form, mark: Mark)
    requires { length lines.old + 60 ≤ ROOM }
    ensures text { lines.new ≡ lines.old ++ mark_text form mark }
    ensures short { length lines.new ≤ length lines.old + 60 }
{
    match form {
        Form::Report => {
            lines.push(b"end ");
            lines.push(mark_word(mark).as_bytes());
        }
        Form::Json => {
            lines.push(b"{\"end\":\"");
            lines.push(mark_word(mark).as_bytes());
            lines.push(b"\"");
        }
    }
}

/// Appends the end of a line to `lines`: a newline, in JSON `}` and a newline. These are at most 2 bytes, which must be
/// free in `lines`.
fn push_tail(lines: &mut TextBuffer, form: Form)
    requires { length lines.old + 2 ≤ ROOM }
    ensures { lines.new ≡ lines.old ++ tail_text form }
{
    match form {
        Form::Report => lines.push(b"\n"),
        Form::Json => lines.push(b"}\n"),
    }
}
